// Operands of instructions: registers, pairs, places in memory.
ghost use Rattle.std.specs.Prelude.{◌≡◌};
ghost use Rattle.z80_decode.specs.Codes.{register_of, place_coded, register_of_code, stack_pair_of, operand_pair_of};

/// An 8-bit general register (UM0080, "Z80 Register Configuration").
#[derive(Clone, Copy)]
pub enum Register8 {
    B,
    C,
    D,
    E,
    H,
    L,
    A,
}

/// A 16-bit register that is loaded, stored, incremented or decremented: `dd` and `ss` in the manual, and the index
/// registers.
#[derive(Clone, Copy)]
pub enum Register16 {
    Bc,
    De,
    Hl,
    Sp,
    Ix,
    Iy,
}

/// A pair that is pushed and popped: `qq` in the manual, and the index registers.
#[derive(Clone, Copy)]
pub enum StackPair {
    Bc,
    De,
    Hl,
    Af,
    Ix,
    Iy,
}

/// The second operand of ADD HL,ss, ADC HL,ss and SBC HL,ss: `ss` in the manual.
#[derive(Clone, Copy)]
pub enum OperandPair {
    Bc,
    De,
    Hl,
    Sp,
}

/// The second operand of ADD IX,pp and ADD IY,rr: `pp` and `rr` in the manual. `Own` is the index register itself.
#[derive(Clone, Copy)]
pub enum IndexPair {
    Bc,
    De,
    Own,
    Sp,
}

/// The register of JP (HL), EX (SP),HL and LD SP,HL: HL or an index register.
#[derive(Clone, Copy)]
pub enum Pointer {
    Hl,
    Ix,
    Iy,
}

/// An index register.
#[derive(Clone, Copy)]
pub enum Index {
    Ix,
    Iy,
}

/// A byte in memory as an operand: (HL), (IX+d) or (IY+d). The displacement is the byte as it is spelled; from 128 on
/// it stands for 256 less.
#[derive(Clone, Copy)]
pub enum Memory {
    AtHl,
    At(Index, u8),
}

/// A register or a byte in memory: `r` and `m` in the manual.
#[derive(Clone, Copy)]
pub enum Place {
    Register(Register8),
    Memory(Memory),
}

/// The operand of 8-bit arithmetic and logic: `s` in the manual.
#[derive(Clone, Copy)]
pub enum Operand {
    Place(Place),
    Immediate(u8),
}

/// The address of LD A,(BC), LD A,(DE) and LD A,(nn), and of the stores of A.
#[derive(Clone, Copy)]
pub enum Address {
    Bc,
    De,
    Direct(u16),
}

/// The register of a load from (nn) or a store to it. HL has two spellings: `ShortHl` is the one without a prefix.
#[derive(Clone, Copy)]
pub enum Direct {
    ShortHl,
    Pair(Register16),
}

/// A special register that A is loaded from and stored to.
#[derive(Clone, Copy)]
pub enum Special {
    I,
    R,
}

impl Register8 {
    /// The register with this code, 0 to 7; None for 6, the code of memory.
    pub(crate) fn of(code: u8) -> Option<Register8>
        ensures { result ≡ register_of code }
    {
        match code {
            0 => Some(Register8::B),
            1 => Some(Register8::C),
            2 => Some(Register8::D),
            3 => Some(Register8::E),
            4 => Some(Register8::H),
            5 => Some(Register8::L),
            6 => None,
            _ => Some(Register8::A),
        }
    }
}

impl Place {
    /// The register with this code, 0 to 7, or (HL) for 6.
    pub(crate) fn of(code: u8) -> Place
        ensures { result ≡ place_coded code }
    {
        match Register8::of(code) {
            Some(register) => Place::Register(register),
            None => Place::Memory(Memory::AtHl),
        }
    }
}

impl Register16 {
    /// The register with this code, 0 to 3.
    pub(crate) fn of(code: u8) -> Register16
        ensures { result ≡ register_of_code code }
    {
        match code {
            0 => Register16::Bc,
            1 => Register16::De,
            2 => Register16::Hl,
            _ => Register16::Sp,
        }
    }
}

impl StackPair {
    /// The pair with this code, 0 to 3.
    pub(crate) fn of(code: u8) -> StackPair
        ensures { result ≡ stack_pair_of code }
    {
        match code {
            0 => StackPair::Bc,
            1 => StackPair::De,
            2 => StackPair::Hl,
            _ => StackPair::Af,
        }
    }
}

impl OperandPair {
    /// The pair with this code, 0 to 3.
    pub(crate) fn of(code: u8) -> OperandPair
        ensures { result ≡ operand_pair_of code }
    {
        match code {
            0 => OperandPair::Bc,
            1 => OperandPair::De,
            2 => OperandPair::Hl,
            _ => OperandPair::Sp,
        }
    }
}
