// Opcodes after the prefixes DD and FD of the index registers.
ghost use Rattle.std.specs.Prelude.{◌≡◌};
ghost use Rattle.z80_decode.specs.IndexPage.{behind_index, on_index, on_memory, load_at, as_word, as_stack_pair, as_pointer};

use crate::fields::OpcodeFields;
use crate::instr::Instr;
use crate::kinds::ArithmeticKind;
use crate::operands::{
    Direct, Index, IndexPair, Memory, Operand, Place, Pointer, Register8, Register16, StackPair,
};

impl Index {
    fn as_word(self) -> Register16
        ensures { result ≡ as_word self }
    {
        match self {
            Index::Ix => Register16::Ix,
            Index::Iy => Register16::Iy,
        }
    }

    fn as_stack_pair(self) -> StackPair
        ensures { result ≡ as_stack_pair self }
    {
        match self {
            Index::Ix => StackPair::Ix,
            Index::Iy => StackPair::Iy,
        }
    }

    fn as_pointer(self) -> Pointer
        ensures { result ≡ as_pointer self }
    {
        match self {
            Index::Ix => Pointer::Ix,
            Index::Iy => Pointer::Iy,
        }
    }
}

/// The instruction of an opcode after the prefix of an index register, given the two bytes after it and their word.
pub(crate) fn behind_index(
    index: Index,
    opcode: u8,
    byte: u8,
    number: u8,
    word: u16,
) -> Option<Instr>
    ensures { result ≡ behind_index index opcode byte number word }
{
    on_index(index, opcode, word).or(on_memory(Memory::At(index, byte), opcode, number))
}

/// Opcodes for the index register itself.
fn on_index(index: Index, opcode: u8, word: u16) -> Option<Instr>
    ensures { result ≡ on_index index opcode word }
{
    match opcode {
        0x09 => Some(Instr::AddIndex(index, IndexPair::Bc)),
        0x19 => Some(Instr::AddIndex(index, IndexPair::De)),
        0x29 => Some(Instr::AddIndex(index, IndexPair::Own)),
        0x39 => Some(Instr::AddIndex(index, IndexPair::Sp)),
        0x21 => Some(Instr::LoadPair(index.as_word(), word)),
        0x22 => Some(Instr::StorePairDirect(Direct::Pair(index.as_word()), word)),
        0x23 => Some(Instr::IncrementPair(index.as_word())),
        0x2A => Some(Instr::LoadPairDirect(Direct::Pair(index.as_word()), word)),
        0x2B => Some(Instr::DecrementPair(index.as_word())),
        0xE1 => Some(Instr::Pop(index.as_stack_pair())),
        0xE3 => Some(Instr::ExchangeStack(index.as_pointer())),
        0xE5 => Some(Instr::Push(index.as_stack_pair())),
        0xE9 => Some(Instr::JumpTo(index.as_pointer())),
        0xF9 => Some(Instr::LoadSp(index.as_pointer())),
        _ => None,
    }
}

/// Opcodes for the byte at (IX+d). The number of LD (IX+d),n comes after d.
fn on_memory(memory: Memory, opcode: u8, number: u8) -> Option<Instr>
    ensures { result ≡ on_memory memory opcode number }
{
    let OpcodeFields { x, y, z } = OpcodeFields::of(opcode);
    let place = Place::Memory(memory);
    match opcode {
        0x34 => Some(Instr::Increment(place)),
        0x35 => Some(Instr::Decrement(place)),
        0x36 => Some(Instr::LoadImmediate(place, number)),
        _ if x == 1 => load_at(memory, Register8::of(y), Register8::of(z)),
        _ if x == 2 && z == 6 => Some(Instr::Arithmetic(
            ArithmeticKind::of(y),
            Operand::Place(place),
        )),
        _ => None,
    }
}

/// 01 yyy zzz, documented only if exactly one field is the code of memory.
fn load_at(memory: Memory, target: Option<Register8>, source: Option<Register8>) -> Option<Instr>
    ensures { result ≡ load_at memory target source }
{
    match (target, source) {
        (Some(target), None) => Some(Instr::LoadRegister(target, Place::Memory(memory))),
        (None, Some(source)) => Some(Instr::Store(memory, source)),
        _ => None,
    }
}
