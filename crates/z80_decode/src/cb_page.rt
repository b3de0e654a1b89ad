// Opcodes after the prefix CB: shifts, and the bits of a byte.
ghost use Rattle.std.specs.Prelude.{◌≡◌};
ghost use Rattle.z80_decode.specs.CbPage.{behind_cb};

use crate::fields::OpcodeFields;
use crate::instr::Instr;
use crate::kinds::{Bit, ShiftKind};
use crate::operands::Place;

/// The instruction of an opcode after the prefix CB. The caller has read the place from the field zzz.
pub(crate) fn behind_cb(opcode: u8, place: Place) -> Option<Instr>
    ensures { result ≡ behind_cb opcode place }
{
    let OpcodeFields { x, y, .. } = OpcodeFields::of(opcode);
    match x {
        0 => Some(Instr::Shift(ShiftKind::of(y)?, place)),
        1 => Some(Instr::TestBit(Bit::of(y), place)),
        2 => Some(Instr::ResetBit(Bit::of(y), place)),
        _ => Some(Instr::SetBit(Bit::of(y), place)),
    }
}
