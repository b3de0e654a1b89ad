// The registers that operands name.

ghost use Rattle.std.specs.Prelude.{◌≡◌};
ghost use Rattle.z80_moves.specs.Operands.{byte_register, word_register, stack_register, pair_register, index_register, index_pair_register, pointer_register, direct_register, worked_at, long_condition};

use crate::registers::{ByteRegister, WordRegister};
use z80_decode::{
    Condition, Direct, Index, IndexPair, OperandPair, Place, Pointer, Register8, Register16,
    ShortCondition, StackPair,
};

/// The register that an operand names, as the byte of a move.
pub fn byte_register(register: Register8) -> ByteRegister
    ensures { result ≡ byte_register register }
{
    match register {
        Register8::B => ByteRegister::B,
        Register8::C => ByteRegister::C,
        Register8::D => ByteRegister::D,
        Register8::E => ByteRegister::E,
        Register8::H => ByteRegister::H,
        Register8::L => ByteRegister::L,
        Register8::A => ByteRegister::A,
    }
}

/// The register that an operand names, as the word of a move.
pub fn word_register(pair: Register16) -> WordRegister
    ensures { result ≡ word_register pair }
{
    match pair {
        Register16::Bc => WordRegister::Bc,
        Register16::De => WordRegister::De,
        Register16::Hl => WordRegister::Hl,
        Register16::Sp => WordRegister::Sp,
        Register16::Ix => WordRegister::Ix,
        Register16::Iy => WordRegister::Iy,
    }
}

pub(crate) fn stack_register(pair: StackPair) -> WordRegister
    ensures { result ≡ stack_register pair }
{
    match pair {
        StackPair::Bc => WordRegister::Bc,
        StackPair::De => WordRegister::De,
        StackPair::Hl => WordRegister::Hl,
        StackPair::Af => WordRegister::Af,
        StackPair::Ix => WordRegister::Ix,
        StackPair::Iy => WordRegister::Iy,
    }
}

pub(crate) fn pair_register(pair: OperandPair) -> WordRegister
    ensures { result ≡ pair_register pair }
{
    match pair {
        OperandPair::Bc => WordRegister::Bc,
        OperandPair::De => WordRegister::De,
        OperandPair::Hl => WordRegister::Hl,
        OperandPair::Sp => WordRegister::Sp,
    }
}

/// The index register that an operand names, as the word of a move.
pub fn index_register(index: Index) -> WordRegister
    ensures { result ≡ index_register index }
{
    match index {
        Index::Ix => WordRegister::Ix,
        Index::Iy => WordRegister::Iy,
    }
}

pub(crate) fn index_pair_register(index: Index, pair: IndexPair) -> WordRegister
    ensures { result ≡ index_pair_register index pair }
{
    match pair {
        IndexPair::Bc => WordRegister::Bc,
        IndexPair::De => WordRegister::De,
        IndexPair::Own => index_register(index),
        IndexPair::Sp => WordRegister::Sp,
    }
}

pub(crate) fn pointer_register(pointer: Pointer) -> WordRegister
    ensures { result ≡ pointer_register pointer }
{
    match pointer {
        Pointer::Hl => WordRegister::Hl,
        Pointer::Ix => WordRegister::Ix,
        Pointer::Iy => WordRegister::Iy,
    }
}

pub(crate) fn direct_register(pair: Direct) -> WordRegister
    ensures { result ≡ direct_register pair }
{
    match pair {
        Direct::ShortHl => WordRegister::Hl,
        Direct::Pair(pair) => word_register(pair),
    }
}

// Where the byte of an operand is worked on: a byte in memory is read into the byte in work.
pub(crate) fn worked_at(place: Place) -> ByteRegister
    ensures { result ≡ worked_at place }
{
    match place {
        Place::Register(register) => byte_register(register),
        Place::Memory(_) => ByteRegister::Operand,
    }
}

// The condition of JR as one of JP, CALL and RET.
pub(crate) fn long_condition(condition: ShortCondition) -> Condition
    ensures { result ≡ long_condition condition }
{
    match condition {
        ShortCondition::NotZero => Condition::NotZero,
        ShortCondition::Zero => Condition::Zero,
        ShortCondition::NotCarry => Condition::NotCarry,
        ShortCondition::Carry => Condition::Carry,
    }
}
