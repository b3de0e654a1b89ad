// What the operands of an instruction say to an inferring analysis.

use loop_bounds::Variable;
use z80_decode::{Address, ArithmeticKind, Index, Instr, Memory, Operand, Place};

/// The pair through which an instruction writes.
pub fn pointer_of(instr: &Instr) -> Option<Variable> {
    match instr {
        Instr::LoadImmediate(place, _)
        | Instr::Increment(place)
        | Instr::Decrement(place)
        | Instr::Shift(_, place)
        | Instr::SetBit(_, place)
        | Instr::ResetBit(_, place) => pointer_at(*place),
        Instr::Store(memory, _) => Some(pointer_to(*memory)),
        Instr::StoreA(Address::Bc) => Some(Variable::Bc),
        Instr::StoreA(Address::De) => Some(Variable::De),
        Instr::BlockLoad(_) => Some(Variable::De),
        Instr::RotateDigitsLeft | Instr::RotateDigitsRight => Some(Variable::Hl),
        _ => None,
    }
}

fn pointer_at(place: Place) -> Option<Variable> {
    match place {
        Place::Register(_) => None,
        Place::Memory(memory) => Some(pointer_to(memory)),
    }
}

fn pointer_to(memory: Memory) -> Variable {
    match memory {
        Memory::AtHl => Variable::Hl,
        Memory::At(Index::Ix, _) => Variable::Ix,
        Memory::At(Index::Iy, _) => Variable::Iy,
    }
}

/// The word and the byte that an instruction names, if it loads or compares them.
pub(crate) fn constants_of(instr: &Instr) -> (Option<u16>, Option<u8>) {
    match instr {
        Instr::LoadPair(_, word) => (Some(*word), None),
        Instr::LoadImmediate(Place::Register(_), byte) => (None, Some(*byte)),
        Instr::Arithmetic(ArithmeticKind::Compare, Operand::Immediate(byte)) => (None, Some(*byte)),
        Instr::Arithmetic(ArithmeticKind::And, Operand::Immediate(byte)) => (None, Some(*byte)),
        _ => (None, None),
    }
}
