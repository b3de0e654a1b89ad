// Opcodes without a prefix.
ghost use Rattle.std.specs.Prelude.{◌≡◌};
ghost use Rattle.z80_decode.specs.UnprefixedPage.{unprefixed, first_quarter, relative_jump, indirect_load, on_accumulator, load, last_quarter, pop_or_return, jump_or_exchange, push_or_call};

use crate::fields::OpcodeFields;
use crate::instr::Instr;
use crate::kinds::{AccumulatorRotate, ArithmeticKind, Condition, RestartAddress, ShortCondition};
use crate::operands::{
    Address, Direct, Operand, OperandPair, Place, Pointer, Register16, StackPair,
};

/// The instruction of an opcode without a prefix, given the byte and the word after it. None for the four prefixes.
pub(crate) fn unprefixed(opcode: u8, byte: u8, word: u16) -> Option<Instr>
    ensures { result ≡ unprefixed opcode byte word }
{
    let OpcodeFields { x, y, z } = OpcodeFields::of(opcode);
    match x {
        0 => Some(first_quarter(y, z, byte, word)),
        1 => Some(load(Place::of(y), Place::of(z))),
        2 => Some(Instr::Arithmetic(ArithmeticKind::of(y), Operand::Place(Place::of(z)))),
        _ => last_quarter(y, z, byte, word),
    }
}

/// 00 yyy zzz
fn first_quarter(y: u8, z: u8, byte: u8, word: u16) -> Instr
    ensures { result ≡ first_quarter y z byte word }
{
    match z {
        0 => relative_jump(y, byte),
        1 if y % 2 == 0 => Instr::LoadPair(Register16::of(y / 2), word),
        1 => Instr::AddHl(OperandPair::of(y / 2)),
        2 => indirect_load(y, word),
        3 if y % 2 == 0 => Instr::IncrementPair(Register16::of(y / 2)),
        3 => Instr::DecrementPair(Register16::of(y / 2)),
        4 => Instr::Increment(Place::of(y)),
        5 => Instr::Decrement(Place::of(y)),
        6 => Instr::LoadImmediate(Place::of(y), byte),
        _ => on_accumulator(y),
    }
}

/// 00 yyy 000
fn relative_jump(y: u8, byte: u8) -> Instr
    ensures { result ≡ relative_jump y byte }
{
    match y {
        0 => Instr::Nop,
        1 => Instr::ExchangeAf,
        2 => Instr::DecrementJump(byte),
        3 => Instr::JumpRelative(byte),
        _ => Instr::JumpRelativeIf(ShortCondition::of(y), byte),
    }
}

/// 00 yyy 010
fn indirect_load(y: u8, word: u16) -> Instr
    ensures { result ≡ indirect_load y word }
{
    match y {
        0 => Instr::StoreA(Address::Bc),
        1 => Instr::LoadA(Address::Bc),
        2 => Instr::StoreA(Address::De),
        3 => Instr::LoadA(Address::De),
        4 => Instr::StorePairDirect(Direct::ShortHl, word),
        5 => Instr::LoadPairDirect(Direct::ShortHl, word),
        6 => Instr::StoreA(Address::Direct(word)),
        _ => Instr::LoadA(Address::Direct(word)),
    }
}

/// 00 yyy 111
fn on_accumulator(y: u8) -> Instr
    ensures { result ≡ on_accumulator y }
{
    match y {
        0 => Instr::RotateA(AccumulatorRotate::Rlca),
        1 => Instr::RotateA(AccumulatorRotate::Rrca),
        2 => Instr::RotateA(AccumulatorRotate::Rla),
        3 => Instr::RotateA(AccumulatorRotate::Rra),
        4 => Instr::DecimalAdjust,
        5 => Instr::Complement,
        6 => Instr::SetCarry,
        _ => Instr::ComplementCarry,
    }
}

/// 01 yyy zzz. HALT has the code of a load from memory to memory.
fn load(target: Place, source: Place) -> Instr
    ensures { result ≡ load target source }
{
    match (target, source) {
        (Place::Register(target), source) => Instr::LoadRegister(target, source),
        (Place::Memory(target), Place::Register(source)) => Instr::Store(target, source),
        (Place::Memory(_), Place::Memory(_)) => Instr::Halt,
    }
}

/// 11 yyy zzz
fn last_quarter(y: u8, z: u8, byte: u8, word: u16) -> Option<Instr>
    ensures { result ≡ last_quarter y z byte word }
{
    match z {
        0 => Some(Instr::ReturnIf(Condition::of(y))),
        1 => Some(pop_or_return(y)),
        2 => Some(Instr::JumpIf(Condition::of(y), word)),
        3 => jump_or_exchange(y, byte, word),
        4 => Some(Instr::CallIf(Condition::of(y), word)),
        5 => push_or_call(y, word),
        6 => Some(Instr::Arithmetic(ArithmeticKind::of(y), Operand::Immediate(byte))),
        _ => Some(Instr::Restart(RestartAddress::of(y))),
    }
}

/// 11 yyy 001
fn pop_or_return(y: u8) -> Instr
    ensures { result ≡ pop_or_return y }
{
    match y {
        _ if y % 2 == 0 => Instr::Pop(StackPair::of(y / 2)),
        1 => Instr::Return,
        3 => Instr::ExchangeSets,
        5 => Instr::JumpTo(Pointer::Hl),
        _ => Instr::LoadSp(Pointer::Hl),
    }
}

/// 11 yyy 011
fn jump_or_exchange(y: u8, byte: u8, word: u16) -> Option<Instr>
    ensures { result ≡ jump_or_exchange y byte word }
{
    match y {
        0 => Some(Instr::Jump(word)),
        1 => None,
        2 => Some(Instr::OutputImmediate(byte)),
        3 => Some(Instr::InputImmediate(byte)),
        4 => Some(Instr::ExchangeStack(Pointer::Hl)),
        5 => Some(Instr::ExchangeDeHl),
        6 => Some(Instr::DisableInterrupts),
        _ => Some(Instr::EnableInterrupts),
    }
}

/// 11 yyy 101
fn push_or_call(y: u8, word: u16) -> Option<Instr>
    ensures { result ≡ push_or_call y word }
{
    match y {
        _ if y % 2 == 0 => Some(Instr::Push(StackPair::of(y / 2))),
        1 => Some(Instr::Call(word)),
        _ => None,
    }
}
