// The registers that an instruction uses: those whose values decide what it does.

use intervals::RegPair;
use z80_decode::{
    Address, ArithmeticKind, Direct, Index, IndexPair, Instr, Memory, Operand, OperandPair, Place,
    Pointer, Register8, Register16, StackPair,
};

/// A register or a pair that an instruction uses.
#[derive(Clone, Copy)]
pub enum Used {
    Register(Register8),
    Pair(RegPair),
}

impl Used {
    /// The pair, or that of the register.
    pub fn pair(self) -> RegPair {
        match self {
            Used::Pair(pair) => pair,
            Used::Register(Register8::A) => RegPair::Af,
            Used::Register(Register8::B | Register8::C) => RegPair::Bc,
            Used::Register(Register8::D | Register8::E) => RegPair::De,
            Used::Register(Register8::H | Register8::L) => RegPair::Hl,
        }
    }
}

/// What an instruction uses, at most three, in the order of its operands. Registers that it only writes do not
/// count, nor do the flags, SP, I and R.
pub type UsedRegisters = [Option<Used>; 3];

const NONE: UsedRegisters = [None, None, None];

const A: Option<Used> = Some(Used::Register(Register8::A));

const HL: Option<Used> = Some(Used::Pair(RegPair::Hl));

fn pair(pair: RegPair) -> Option<Used> {
    Some(Used::Pair(pair))
}

fn register(register: Register8) -> Option<Used> {
    Some(Used::Register(register))
}

fn at_memory(memory: Memory) -> Option<Used> {
    match memory {
        Memory::AtHl => HL,
        Memory::At(at, _) => pair(index_pair(at)),
    }
}

fn at_place(place: Place) -> Option<Used> {
    match place {
        Place::Register(at) => register(at),
        Place::Memory(memory) => at_memory(memory),
    }
}

fn at_address(address: Address) -> Option<Used> {
    match address {
        Address::Bc => pair(RegPair::Bc),
        Address::De => pair(RegPair::De),
        Address::Direct(_) => None,
    }
}

fn index_pair(index: Index) -> RegPair {
    match index {
        Index::Ix => RegPair::Ix,
        Index::Iy => RegPair::Iy,
    }
}

fn at_pointer(pointer: Pointer) -> Option<Used> {
    match pointer {
        Pointer::Hl => HL,
        Pointer::Ix => pair(RegPair::Ix),
        Pointer::Iy => pair(RegPair::Iy),
    }
}

fn at_word(word: Register16) -> Option<Used> {
    match word {
        Register16::Bc => pair(RegPair::Bc),
        Register16::De => pair(RegPair::De),
        Register16::Hl => HL,
        Register16::Sp => None,
        Register16::Ix => pair(RegPair::Ix),
        Register16::Iy => pair(RegPair::Iy),
    }
}

fn at_stack_pair(word: StackPair) -> Option<Used> {
    match word {
        StackPair::Bc => pair(RegPair::Bc),
        StackPair::De => pair(RegPair::De),
        StackPair::Hl => HL,
        StackPair::Af => pair(RegPair::Af),
        StackPair::Ix => pair(RegPair::Ix),
        StackPair::Iy => pair(RegPair::Iy),
    }
}

/// HL, and the other operand where it is another pair.
fn at_hl_and(other: OperandPair) -> UsedRegisters {
    match other {
        OperandPair::Bc => [HL, pair(RegPair::Bc), None],
        OperandPair::De => [HL, pair(RegPair::De), None],
        OperandPair::Hl | OperandPair::Sp => [HL, None, None],
    }
}

fn at_index_and(index: Index, other: IndexPair) -> UsedRegisters {
    let own = pair(index_pair(index));
    match other {
        IndexPair::Bc => [own, pair(RegPair::Bc), None],
        IndexPair::De => [own, pair(RegPair::De), None],
        IndexPair::Own | IndexPair::Sp => [own, None, None],
    }
}

/// A and the operand. XOR A and SUB A use nothing: they leave 0.
fn at_arithmetic(kind: ArithmeticKind, operand: Operand) -> UsedRegisters {
    let other = match operand {
        Operand::Immediate(_) => None,
        Operand::Place(Place::Register(Register8::A)) => match kind {
            ArithmeticKind::Xor | ArithmeticKind::Sub => return NONE,
            _ => None,
        },
        Operand::Place(place) => at_place(place),
    };
    [A, other, None]
}

/// What an instruction uses.
pub fn used_by(instr: &Instr) -> UsedRegisters {
    match *instr {
        Instr::LoadRegister(_, from) => [at_place(from), None, None],
        Instr::LoadImmediate(Place::Memory(to), _) => [at_memory(to), None, None],
        Instr::Store(to, from) => [at_memory(to), register(from), None],
        Instr::LoadA(from) => [at_address(from), None, None],
        Instr::StoreA(Address::Direct(_)) => [A, None, None],
        Instr::StoreA(to) => [at_address(to), A, None],
        Instr::StorePairDirect(from, _) => [at_word(direct_word(from)), None, None],
        Instr::LoadSp(from) | Instr::JumpTo(from) | Instr::ExchangeStack(from) => {
            [at_pointer(from), None, None]
        }
        Instr::Push(from) => [at_stack_pair(from), None, None],
        Instr::ExchangeDeHl => [pair(RegPair::De), HL, None],
        Instr::ExchangeAf => [pair(RegPair::Af), pair(RegPair::AlternateAf), None],
        Instr::BlockLoad(_) => [pair(RegPair::Bc), pair(RegPair::De), HL],
        Instr::BlockCompare(_) => [A, HL, pair(RegPair::Bc)],
        Instr::RotateDigitsLeft | Instr::RotateDigitsRight => [A, HL, None],
        Instr::Arithmetic(kind, operand) => at_arithmetic(kind, operand),
        Instr::Increment(place)
        | Instr::Decrement(place)
        | Instr::Shift(_, place)
        | Instr::TestBit(_, place)
        | Instr::SetBit(_, place)
        | Instr::ResetBit(_, place) => [at_place(place), None, None],
        Instr::StoreASpecial(_)
        | Instr::RotateA(_)
        | Instr::DecimalAdjust
        | Instr::Complement
        | Instr::Negate => [A, None, None],
        Instr::AddHl(other) | Instr::AdcHl(other) | Instr::SbcHl(other) => at_hl_and(other),
        Instr::AddIndex(index, other) => at_index_and(index, other),
        Instr::IncrementPair(of) | Instr::DecrementPair(of) => [at_word(of), None, None],
        Instr::DecrementJump(_) => [register(Register8::B), None, None],
        _ => NONE,
    }
}

fn direct_word(direct: Direct) -> Register16 {
    match direct {
        Direct::ShortHl => Register16::Hl,
        Direct::Pair(of) => of,
    }
}
