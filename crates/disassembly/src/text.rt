// The text of an instruction, and how it is put together.

ghost use Rattle.std.specs.Prelude.{◌≡◌, ◌≤◌, length};

use crate::names::{index_name, register8};
use crate::numbers::{ByteNumber, WordNumber};
use crate::reference::Reference;
use arrayvec::ArrayString;
use std::fmt;
use std::fmt::Write;
use std::marker::Model;
use z80_decode::{Address, Memory, Operand, Place};

/// The longest part has 16 bytes: `LD (IX-80h),0FFh`.
const ROOM: usize = 16;

/// The text of an instruction in ASCII. As a text it is whole, at most 16 bytes, with its number. A caller may put a
/// label in the place of the number: `before`, label, `after`.
#[derive(Drop)]
pub struct InstrText {
    before: ArrayString<ROOM>,
    reference: Option<Reference>,
    after: ArrayString<ROOM>,
}

impl Model for InstrText {
    ghost use Rattle.disassembly.specs.Text.{InstrTextView};

    ghost Value = { InstrTextView };

    ghost view = { λ t. record { before = t.before.bytes; reference = t.reference; after = t.after.bytes } };
}

impl InstrText {
    /// The text before the number that a label may stand for, or the whole text where there is no such number.
    pub fn before(&self) -> &str
        ensures value { result.now ≡ self.now.before }
        ensures fits { length result.now ≤ 16 }
    {
        self.before.as_str()
    }

    /// The number that a label may stand for.
    pub fn reference(&self) -> Option<Reference>
        ensures { result ≡ self.now.reference }
    {
        self.reference
    }

    /// The text after that number.
    pub fn after(&self) -> &str
        ensures value { result.now ≡ self.now.after }
        ensures fits { length result.now ≤ 16 }
    {
        self.after.as_str()
    }
}

impl fmt::Display for InstrText {
    fn fmt<W: fmt::Write>(&self, f: &mut fmt::Formatter<W>) -> fmt::Result {
        let (before, after) = (self.before(), self.after());
        match self.reference {
            Some(number) => write!(f, "{before}{number}{after}"),
            None => write!(f, "{before}"),
        }
    }
}

/// Appends a text. No part of an instruction is longer than the room.
fn append(part: &mut ArrayString<ROOM>, more: &str)
    ensures { length part.old.bytes ≤ length part.new.bytes }
{
    let _fits = part.try_push_str(more);
}

/// A text that begins with a mnemonic of at most 16 bytes.
pub(crate) fn begin(mnemonic: &str) -> InstrText
    requires { length mnemonic.now ≤ 16 }
    ensures { result.before ≡ mnemonic.now }
{
    let mut before = ArrayString::new();
    match before.try_push_str(mnemonic) {
        Ok(()) => {}
        Err(_) => unreachable!(),
    }
    InstrText {
        before,
        reference: None,
        after: ArrayString::new(),
    }
}

impl InstrText {
    /// The text, followed by more.
    pub(crate) fn add(self, more: &str) -> InstrText
        ensures { length self.before ≤ length result.before }
    {
        let mut text = self;
        match text.reference {
            Some(_) => append(&mut text.after, more),
            None => append(&mut text.before, more),
        }
        text
    }

    /// The text, followed by the number that a label may stand for.
    pub(crate) fn number(self, number: Option<Reference>) -> InstrText
        ensures { length self.before ≤ length result.before }
    {
        let mut text = self;
        text.reference = number;
        text
    }

    pub(crate) fn byte(self, byte: u8) -> InstrText
        ensures { length self.before ≤ length result.before }
    {
        let mut digits = ArrayString::<ROOM>::new();
        let _fits = write!(digits, "{}", ByteNumber(byte));
        self.add(digits.as_str())
    }

    pub(crate) fn memory(self, memory: Memory) -> InstrText
        ensures { length self.before ≤ length result.before }
    {
        match memory {
            Memory::AtHl => self.add("(HL)"),
            Memory::At(index, by) if by < 128 => {
                self.add("(")
                    .add(index_name(index))
                    .add("+")
                    .byte(by)
                    .add(")")
            }
            Memory::At(index, by) => {
                self.add("(")
                    .add(index_name(index))
                    .add("-")
                    .byte(by.wrapping_neg())
                    .add(")")
            }
        }
    }

    pub(crate) fn place(self, place: Place) -> InstrText
        ensures { length self.before ≤ length result.before }
    {
        match place {
            Place::Register(register) => self.add(register8(register)),
            Place::Memory(memory) => self.memory(memory),
        }
    }

    pub(crate) fn operand(self, operand: Operand) -> InstrText
        ensures { length self.before ≤ length result.before }
    {
        match operand {
            Operand::Place(place) => self.place(place),
            Operand::Immediate(byte) => self.byte(byte),
        }
    }

    /// An address of LD A,(..) or LD (..),A. `number` is the reference to nn.
    pub(crate) fn address(self, address: Address, number: Option<Reference>) -> InstrText
        ensures { length self.before ≤ length result.before }
    {
        match address {
            Address::Bc => self.add("(BC)"),
            Address::De => self.add("(DE)"),
            Address::Direct(_) => self.direct(number),
        }
    }

    /// The operand (nn).
    pub(crate) fn direct(self, number: Option<Reference>) -> InstrText
        ensures { length self.before ≤ length result.before }
    {
        self.add("(").number(number).add(")")
    }
}
