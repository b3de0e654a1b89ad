// The ranges and the flag facts of operations.
ghost use Rattle.std.specs.Prelude.{◌≡◌};
ghost use Rattle.abs_draft.specs.Results.{arithmetic_range, shift_range, rotate_range, zero_fact, compare_fact};

use crate::draft::AbsDraft;
use abs_state::FlagFact;
use intervals::ByteRange;
use z80_decode::{AccumulatorRotate, ArithmeticKind, Register8, ShiftKind};
use z80_moves::ByteRegister;

impl AbsDraft {
    /// A after an operation on A and a byte.
    pub(crate) fn arithmetic(&self, kind: ArithmeticKind, register: ByteRegister) -> ByteRange
        ensures { result ≡ arithmetic_range kind register self.now }
    {
        let a = self.state.pairs.af.high;
        let byte = self.byte(register);
        match (kind, register) {
            (ArithmeticKind::Sub | ArithmeticKind::Xor, ByteRegister::A) => ByteRange::single(0),
            (ArithmeticKind::Add, _) => a.sum(byte),
            (ArithmeticKind::Adc, _) => a.sum_with_carry(byte),
            (ArithmeticKind::Sub, _) => a.difference(byte),
            (ArithmeticKind::Sbc, _) => a.difference_with_carry(byte),
            (ArithmeticKind::And, _) => a.and(byte),
            (ArithmeticKind::Xor, _) => a.xor(byte),
            (ArithmeticKind::Or, _) => a.or(byte),
            (ArithmeticKind::Compare, _) => a,
        }
    }
}

/// A byte after a shift or rotate after the prefix CB.
pub(crate) fn shifted(kind: ShiftKind, range: ByteRange) -> ByteRange
    ensures { result ≡ shift_range kind range }
{
    match kind {
        ShiftKind::Rlc => range.rotation_left(),
        ShiftKind::Rrc => range.rotation_right(),
        ShiftKind::Sla => range.doubles(),
        ShiftKind::Srl => range.halves(),
        ShiftKind::Rl | ShiftKind::Rr | ShiftKind::Sra => ByteRange::full(),
    }
}

/// A after a rotate of A with an opcode of one byte.
pub(crate) fn rotated(kind: AccumulatorRotate, range: ByteRange) -> ByteRange
    ensures { result ≡ rotate_range kind range }
{
    match kind {
        AccumulatorRotate::Rlca => range.rotation_left(),
        AccumulatorRotate::Rrca => range.rotation_right(),
        AccumulatorRotate::Rla | AccumulatorRotate::Rra => ByteRange::full(),
    }
}

/// The flag fact of INC and DEC of a register.
pub(crate) fn zero_of(register: ByteRegister) -> Option<FlagFact>
    ensures { result ≡ zero_fact register }
{
    let register = match register {
        ByteRegister::A => Register8::A,
        ByteRegister::B => Register8::B,
        ByteRegister::C => Register8::C,
        ByteRegister::D => Register8::D,
        ByteRegister::E => Register8::E,
        ByteRegister::H => Register8::H,
        ByteRegister::L => Register8::L,
        ByteRegister::F | ByteRegister::I | ByteRegister::Operand => return None,
    };
    Some(FlagFact::Zero(register))
}

/// The flag fact of CP with a byte.
pub(crate) fn compared(range: ByteRange) -> Option<FlagFact>
    ensures { result ≡ compare_fact range }
{
    if range.low() == range.high() {
        Some(FlagFact::Compared(range.low()))
    } else {
        None
    }
}
