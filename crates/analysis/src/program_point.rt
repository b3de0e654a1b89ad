// A place: where a row is, as a number by which rows are ordered.

ghost use Rattle.std.specs.Prelude.{◌≡◌, ◌+◌, ◌*◌};

/// The number of main.
pub const MAIN: u32 = 0;

/// The number of the NMI routine.
pub const NMI: u32 = 1;

/// The number of the called procedure with this entry, 2 to 65,537.
pub fn sub_of(entry: u16) -> u32 {
    u32::from(entry) + 2
}

/// A place: the number of a procedure, an address, and the part of a split that its states belong to, counted from 1; 0
/// for none.
#[derive(Clone, Copy)]
pub struct ProgramPoint {
    pub proc: u32,
    pub address: u16,
    pub part: u16,
}

/// A factor that leaves room for an address and a part.
const ADDRESSES: u64 = 0x1_0000_0000;

/// A factor that leaves room for a part.
const PARTS: u64 = 0x1_0000;

impl ProgramPoint {
    /// The number of the place. The numbers order places by procedure, then address, then part.
    pub fn number(self) -> u64 {
        u64::from(self.proc) * ADDRESSES + u64::from(self.address) * PARTS + u64::from(self.part)
    }

    /// The place with this number.
    pub fn of(number: u64) -> ProgramPoint {
        ProgramPoint {
            proc: (number / ADDRESSES) as u32,
            address: (number / PARTS % PARTS) as u16,
            part: (number % PARTS) as u16,
        }
    }

    /// The least number of a place of a procedure.
    pub fn first_of(proc: u32) -> u64
        ensures { result ≡ proc * 0x100000000 }
    {
        u64::from(proc) * ADDRESSES
    }

    /// The greatest number of a place of a procedure.
    pub fn last_of(proc: u32) -> u64
        ensures { result ≡ proc * 0x100000000 + 0xFFFFFFFF }
    {
        u64::from(proc) * ADDRESSES + (ADDRESSES - 1)
    }
}
