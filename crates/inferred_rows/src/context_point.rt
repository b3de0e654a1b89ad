// The place of an inferred row, as a number by which rows are ordered.

ghost use Rattle.std.specs.Prelude.{◌≡◌, ◌+◌, ◌*◌, ◌%◌};

use analysis::ProgramPoint;

/// The place of an inferred row: a procedure, an address, and what distinguishes the rows there.
#[derive(Clone, Copy)]
pub struct ContextPoint {
    /// The number of the procedure, 0 to 65,537.
    pub proc: u32,
    pub address: u16,
    /// The part of a split that its states belong to, counted from 1; 0 for none.
    pub part: u16,
    /// The context of its states, 1 to 2,047; 0 for none.
    pub context: u16,
    /// The number, 0 to 15, of the row among those whose states cannot be joined.
    pub class: u16,
}

/// A modulus for the number of a procedure.
const PROCEDURES: u32 = 0x2_0000;

/// A factor that leaves room for an address and for what distinguishes the rows there.
const ADDRESSES: u64 = 0x8000_0000_0000;

/// A factor that leaves room for a part, a context and a class.
const PARTS: u64 = 0x8000_0000;

/// A factor that leaves room for a context and a class.
const CONTEXTS: u64 = 0x8000;

/// How many classes there are.
pub const CLASSES: u16 = 16;

/// How many contexts there are, with 0 for none.
pub const CONTEXT_LIMIT: u16 = 2048;

impl ContextPoint {
    /// The place of a procedure at an address, in no part of a split and in no context.
    pub fn at(proc: u32, address: u16) -> ContextPoint {
        ContextPoint {
            proc,
            address,
            part: 0,
            context: 0,
            class: 0,
        }
    }

    /// The number of the place. The numbers order places by procedure, then address, then part, context and class.
    pub fn number(self) -> u64 {
        let inner = u64::from(self.context % CONTEXT_LIMIT) * u64::from(CLASSES)
            + u64::from(self.class % CLASSES);
        u64::from(self.proc % PROCEDURES) * ADDRESSES
            + u64::from(self.address) * PARTS
            + u64::from(self.part) * CONTEXTS
            + inner
    }

    /// The place with this number.
    pub fn of(number: u64) -> ContextPoint {
        let inner = (number % CONTEXTS) as u16;
        ContextPoint {
            proc: (number / ADDRESSES) as u32,
            address: (number / PARTS % 0x1_0000) as u16,
            part: (number / CONTEXTS % 0x1_0000) as u16,
            context: inner / CLASSES,
            class: inner % CLASSES,
        }
    }

    /// The same place for the plain analysis.
    pub fn plain(self) -> ProgramPoint {
        ProgramPoint {
            proc: self.proc,
            address: self.address,
            part: self.part,
        }
    }

    /// The least number of a place of a procedure.
    pub fn first_of(proc: u32) -> u64
        ensures { result ≡ proc % 0x20000 * 0x800000000000 }
    {
        u64::from(proc % PROCEDURES) * ADDRESSES
    }

    /// The greatest number of a place of a procedure.
    pub fn last_of(proc: u32) -> u64
        ensures { result ≡ proc % 0x20000 * 0x800000000000 + 0x7FFFFFFFFFFF }
    {
        u64::from(proc % PROCEDURES) * ADDRESSES + (ADDRESSES - 1)
    }

    /// The least number of a place of a procedure at an address.
    pub fn first_at(proc: u32, address: u16) -> u64
        ensures { result ≡ proc % 0x20000 * 0x800000000000 + address * 0x80000000 }
    {
        u64::from(proc % PROCEDURES) * ADDRESSES + u64::from(address) * PARTS
    }

    /// The greatest number of a place of a procedure at an address.
    pub fn last_at(proc: u32, address: u16) -> u64
        ensures { result ≡ proc % 0x20000 * 0x800000000000 + address * 0x80000000 + 0x7FFFFFFF }
    {
        u64::from(proc % PROCEDURES) * ADDRESSES + u64::from(address) * PARTS + (PARTS - 1)
    }
}
