// The moves of instructions that work on an operand.

ghost use Rattle.std.specs.Prelude.{◌≡◌};
ghost use Rattle.z80_decode.specs.declared.instr.Instr.TheVariants.{Arithmetic};
ghost use Rattle.z80_moves.specs.Moves.{moves_of, reading, changing};

use crate::load_moves::at_memory;
use crate::moves::{Move, Moves};
use crate::operands::worked_at;
use crate::registers::{ByteRegister, WordRegister};
use z80_decode::{ArithmeticKind, Operand, Place};

// A move that reads an operand, after those that fetch it.
pub(crate) fn reading(place: Place, step: Move) -> Moves
    ensures { result ≡ reading place step }
{
    match place {
        Place::Register(_) => Moves::one(step),
        Place::Memory(memory) => at_memory(
            memory,
            &[
                Move::ReadByte(ByteRegister::Operand, WordRegister::Pointer),
                step,
            ],
        ),
    }
}

// A move that changes an operand, between those that fetch it and write it back.
pub(crate) fn changing(place: Place, step: Move) -> Moves
    ensures { result ≡ changing place step }
{
    match place {
        Place::Register(_) => Moves::one(step),
        Place::Memory(memory) => at_memory(
            memory,
            &[
                Move::ReadByte(ByteRegister::Operand, WordRegister::Pointer),
                step,
                Move::WriteByte(WordRegister::Pointer, ByteRegister::Operand),
            ],
        ),
    }
}

pub(crate) fn arithmetic(kind: ArithmeticKind, operand: Operand) -> Moves
    ensures { result ≡ moves_of (Arithmetic kind operand) }
{
    match operand {
        Operand::Place(place) => reading(place, Move::Arithmetic(kind, worked_at(place))),
        Operand::Immediate(byte) => Moves::of(&[
            Move::SetByte(ByteRegister::Operand, byte),
            Move::Arithmetic(kind, ByteRegister::Operand),
        ]),
    }
}
