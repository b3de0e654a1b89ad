// Opcodes after the prefix ED.
ghost use Rattle.std.specs.Prelude.{◌≡◌};
ghost use Rattle.z80_decode.specs.EdPage.{behind_ed, port_or_pair, block_instr, single_code};

use crate::fields::OpcodeFields;
use crate::instr::Instr;
use crate::kinds::{BlockKind, MaskableMode};
use crate::operands::{Direct, OperandPair, Register8, Register16, Special};

/// The instruction of an opcode after the prefix ED, given the word after it.
pub(crate) fn behind_ed(opcode: u8, word: u16) -> Option<Instr>
    ensures { result ≡ behind_ed opcode word }
{
    let OpcodeFields { x, y, z } = OpcodeFields::of(opcode);
    match x {
        1 if z < 4 => port_or_pair(y, z, word),
        1 => single(opcode),
        2 => block_instr(y, z),
        _ => None,
    }
}

/// 01 yyy 0zz
fn port_or_pair(y: u8, z: u8, word: u16) -> Option<Instr>
    ensures { result ≡ port_or_pair y z word }
{
    match z {
        0 => Some(Instr::InputRegister(Register8::of(y)?)),
        1 => Some(Instr::OutputRegister(Register8::of(y)?)),
        2 if y % 2 == 0 => Some(Instr::SbcHl(OperandPair::of(y / 2))),
        2 => Some(Instr::AdcHl(OperandPair::of(y / 2))),
        _ if y % 2 == 0 => Some(Instr::StorePairDirect(Direct::Pair(Register16::of(y / 2)), word)),
        _ => Some(Instr::LoadPairDirect(Direct::Pair(Register16::of(y / 2)), word)),
    }
}

/// 01 yyy 1zz: the opcodes without an operand.
fn single(opcode: u8) -> Option<Instr>
    ensures { result ≡ single_code opcode }
{
    match opcode {
        0x44 => Some(Instr::Negate),
        0x45 => Some(Instr::ReturnFromNonMaskable),
        0x46 => Some(Instr::InterruptMode(MaskableMode::Zero)),
        0x47 => Some(Instr::StoreASpecial(Special::I)),
        0x4D => Some(Instr::ReturnFromInterrupt),
        0x4F => Some(Instr::StoreASpecial(Special::R)),
        0x56 => Some(Instr::InterruptMode(MaskableMode::One)),
        0x57 => Some(Instr::LoadASpecial(Special::I)),
        0x5E => Some(Instr::InterruptMode(MaskableMode::Two)),
        0x5F => Some(Instr::LoadASpecial(Special::R)),
        0x67 => Some(Instr::RotateDigitsRight),
        0x6F => Some(Instr::RotateDigitsLeft),
        _ => None,
    }
}

/// 10 yyy zzz; only 10 1yy 0zz is documented.
fn block_instr(y: u8, z: u8) -> Option<Instr>
    ensures { result ≡ block_instr y z }
{
    if y < 4 {
        return None;
    }
    let kind = BlockKind::of(y);
    match z {
        0 => Some(Instr::BlockLoad(kind)),
        1 => Some(Instr::BlockCompare(kind)),
        2 => Some(Instr::BlockInput(kind)),
        3 => Some(Instr::BlockOutput(kind)),
        _ => None,
    }
}
