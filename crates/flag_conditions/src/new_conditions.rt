// The new conditions of each instruction.
ghost use Rattle.std.specs.Prelude.{◌≡◌};
ghost use Rattle.flag_conditions.specs.NewConditions.{rotate_before, shift_before, test_before, new_before, new_after};

use crate::arithmetic::{arithmetic_after, arithmetic_before};
use crate::byte_operand::{operand_term, register_variable};
use crate::linears::{above_128, left_of_127, no_terms, one_term, only};
use crate::new_parts::NewParts;
use crate::parts::{carry_if_below, of_byte, of_hl, zero, zero_if_below};
use crate::word_operand::{index_operand_word, index_variable, operand_word};
use crate::words::{word_difference_before, word_sum_after, word_sum_before};
use intervals::ByteRange;
use loop_bounds::Variable;
use z80_decode::{AccumulatorRotate, Bit, Instr, Place, Register8, ShiftKind};

fn rotate_before(kind: AccumulatorRotate) -> NewParts
    ensures { result ≡ rotate_before kind }
{
    match kind {
        AccumulatorRotate::Rlca | AccumulatorRotate::Rla => {
            NewParts::one(carry_if_below(left_of_127(Variable::A)))
        }
        AccumulatorRotate::Rrca | AccumulatorRotate::Rra => NewParts::none(),
    }
}

fn shift_before(kind: ShiftKind, register: Register8) -> NewParts
    ensures { result ≡ shift_before kind register }
{
    match kind {
        ShiftKind::Rlc | ShiftKind::Rl | ShiftKind::Sla => {
            NewParts::one(carry_if_below(left_of_127(register_variable(register))))
        }
        ShiftKind::Rrc | ShiftKind::Rr | ShiftKind::Sra | ShiftKind::Srl => NewParts::none(),
    }
}

fn test_before(bit: Bit, register: Register8) -> NewParts
    ensures { result ≡ test_before bit register }
{
    match bit {
        Bit::Seven => NewParts::one(zero_if_below(above_128(register_variable(register)))),
        _ => NewParts::none(),
    }
}

/// The new conditions over the variables before the instruction. `byte` is the range of the byte in work.
#[tactic(auto, unfolding(crate::specs::NewConditions::new_before))]
pub(crate) fn new_before(instr: &Instr, byte: ByteRange, carry: Option<bool>) -> NewParts
    ensures { result ≡ new_before instr.now byte carry }
{
    match instr {
        Instr::Arithmetic(kind, operand) => {
            arithmetic_before(*kind, *operand, operand_term(*operand, byte), carry)
        }
        Instr::Negate => NewParts::two(
            carry_if_below(one_term(0, -1, Variable::A)),
            zero(only(Variable::A)),
        ),
        Instr::SetCarry => NewParts::one(carry_if_below(no_terms(-1))),
        Instr::AddHl(pair) => word_sum_before(Variable::Hl, operand_word(*pair), Some(false)),
        Instr::AdcHl(pair) => word_sum_before(Variable::Hl, operand_word(*pair), carry),
        Instr::SbcHl(pair) => word_difference_before(Variable::Hl, operand_word(*pair), carry),
        Instr::AddIndex(index, pair) => word_sum_before(
            index_variable(*index),
            index_operand_word(*pair),
            Some(false),
        ),
        Instr::RotateA(kind) => rotate_before(*kind),
        Instr::Shift(kind, Place::Register(register)) => shift_before(*kind, *register),
        Instr::TestBit(bit, Place::Register(register)) => test_before(*bit, *register),
        _ => NewParts::none(),
    }
}

/// The new conditions over the variables after the instruction. `byte` is the range of the byte in work.
#[tactic(auto, unfolding(crate::specs::NewConditions::new_after))]
pub(crate) fn new_after(instr: &Instr, byte: ByteRange, carry: Option<bool>) -> NewParts
    ensures { result ≡ new_after instr.now byte carry }
{
    match instr {
        Instr::Arithmetic(kind, operand) => {
            arithmetic_after(*kind, operand_term(*operand, byte), carry)
        }
        Instr::Increment(Place::Register(register))
        | Instr::Decrement(Place::Register(register))
        | Instr::Shift(_, Place::Register(register)) => of_byte(&register_variable(*register)),
        Instr::LoadASpecial(_)
        | Instr::DecimalAdjust
        | Instr::Negate
        | Instr::RotateDigitsLeft
        | Instr::RotateDigitsRight => of_byte(&Variable::A),
        Instr::AddHl(pair) => word_sum_after(Variable::Hl, operand_word(*pair)),
        Instr::AdcHl(_) | Instr::SbcHl(_) => of_hl(),
        Instr::AddIndex(index, pair) => {
            word_sum_after(index_variable(*index), index_operand_word(*pair))
        }
        _ => NewParts::none(),
    }
}
