// The moves of the block instructions.

ghost use Rattle.std.specs.Prelude.{◌≡◌};
ghost use Rattle.z80_moves.specs.Moves.{block_load, block_compare};

use crate::moves::{Move, Moves, Test};
use crate::registers::{ByteRegister, WordRegister};
use z80_decode::BlockKind;

// One turn of LDI or LDIR, without the repetition.
const LOAD_UP: [Move; 6] = [
    Move::ReadByte(ByteRegister::Operand, WordRegister::Hl),
    Move::WriteByte(WordRegister::De, ByteRegister::Operand),
    Move::IncrementWord(WordRegister::Hl),
    Move::IncrementWord(WordRegister::De),
    Move::DecrementWord(WordRegister::Bc),
    Move::BlockLoadFlags,
];

// One turn of LDD or LDDR, without the repetition.
const LOAD_DOWN: [Move; 6] = [
    Move::ReadByte(ByteRegister::Operand, WordRegister::Hl),
    Move::WriteByte(WordRegister::De, ByteRegister::Operand),
    Move::DecrementWord(WordRegister::Hl),
    Move::DecrementWord(WordRegister::De),
    Move::DecrementWord(WordRegister::Bc),
    Move::BlockLoadFlags,
];

// One turn of CPI or CPIR, without the repetition.
const COMPARE_UP: [Move; 4] = [
    Move::ReadByte(ByteRegister::Operand, WordRegister::Hl),
    Move::IncrementWord(WordRegister::Hl),
    Move::DecrementWord(WordRegister::Bc),
    Move::BlockCompareFlags,
];

// One turn of CPD or CPDR, without the repetition.
const COMPARE_DOWN: [Move; 4] = [
    Move::ReadByte(ByteRegister::Operand, WordRegister::Hl),
    Move::DecrementWord(WordRegister::Hl),
    Move::DecrementWord(WordRegister::Bc),
    Move::BlockCompareFlags,
];

// A repetition sets PC back by 2 (FEh is -2), to the instruction itself.
const BACK: Move = Move::Displace(WordRegister::Pc, 0xFE);

// One turn of LDI, LDD, LDIR or LDDR.
pub(crate) fn block_load(kind: BlockKind) -> Moves
    ensures { result ≡ block_load kind }
{
    match kind {
        BlockKind::Increment => Moves::of(&LOAD_UP),
        BlockKind::Decrement => Moves::of(&LOAD_DOWN),
        BlockKind::IncrementRepeat => {
            Moves::of(&LOAD_UP).then(&[Move::OnlyIf(Test::BcNotZero), BACK])
        }
        BlockKind::DecrementRepeat => {
            Moves::of(&LOAD_DOWN).then(&[Move::OnlyIf(Test::BcNotZero), BACK])
        }
    }
}

// One turn of CPI, CPD, CPIR or CPDR.
pub(crate) fn block_compare(kind: BlockKind) -> Moves
    ensures { result ≡ block_compare kind }
{
    match kind {
        BlockKind::Increment => Moves::of(&COMPARE_UP),
        BlockKind::Decrement => Moves::of(&COMPARE_DOWN),
        BlockKind::IncrementRepeat => {
            Moves::of(&COMPARE_UP).then(&[Move::OnlyIf(Test::SearchGoesOn), BACK])
        }
        BlockKind::DecrementRepeat => {
            Moves::of(&COMPARE_DOWN).then(&[Move::OnlyIf(Test::SearchGoesOn), BACK])
        }
    }
}
