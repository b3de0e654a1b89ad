// Bytes as operands in a linear: a register or a number.
ghost use Rattle.std.specs.Prelude.{◌≡◌, ◌<◌};
ghost use Rattle.loop_bounds.specs.Variable.{rank_of};
ghost use Rattle.flag_conditions.specs.OperandTerm.{register_variable_of, variable_of_other, operand_term_of, term_of_register, term_of_memory};

use intervals::ByteRange;
use loop_bounds::Variable;
use z80_decode::{Operand, Place, Register8};

/// An operand of 8-bit arithmetic, as it stands in a linear.
#[derive(Clone, Copy)]
pub enum OperandTerm {
    A,
    Other(OtherRegister),
    Number(u8),
}

/// A register other than A.
#[derive(Clone, Copy)]
pub enum OtherRegister {
    B,
    C,
    D,
    E,
    H,
    L,
}

impl OtherRegister {
    /// The variable of the register, which comes after A.
    pub fn variable(self) -> Variable
        ensures value { result ≡ variable_of_other self }
        ensures after_a { 0 < rank_of result }
    {
        match self {
            OtherRegister::B => Variable::B,
            OtherRegister::C => Variable::C,
            OtherRegister::D => Variable::D,
            OtherRegister::E => Variable::E,
            OtherRegister::H => Variable::H,
            OtherRegister::L => Variable::L,
        }
    }
}

/// The variable of a register.
pub fn register_variable(register: Register8) -> Variable
    ensures { result ≡ register_variable_of register }
{
    match register {
        Register8::B => Variable::B,
        Register8::C => Variable::C,
        Register8::D => Variable::D,
        Register8::E => Variable::E,
        Register8::H => Variable::H,
        Register8::L => Variable::L,
        Register8::A => Variable::A,
    }
}

/// The operand of 8-bit arithmetic, if it is known. `byte` is the range of the byte in work: a byte in memory counts
/// only where that range has one value.
pub fn operand_term(operand: Operand, byte: ByteRange) -> Option<OperandTerm>
    ensures { result ≡ operand_term_of operand byte }
{
    match operand {
        Operand::Immediate(number) => Some(OperandTerm::Number(number)),
        Operand::Place(Place::Register(register)) => Some(register_term(register)),
        Operand::Place(Place::Memory(_)) => memory_term(byte),
    }
}

fn register_term(register: Register8) -> OperandTerm
    ensures { result ≡ term_of_register register }
{
    match register {
        Register8::B => OperandTerm::Other(OtherRegister::B),
        Register8::C => OperandTerm::Other(OtherRegister::C),
        Register8::D => OperandTerm::Other(OtherRegister::D),
        Register8::E => OperandTerm::Other(OtherRegister::E),
        Register8::H => OperandTerm::Other(OtherRegister::H),
        Register8::L => OperandTerm::Other(OtherRegister::L),
        Register8::A => OperandTerm::A,
    }
}

fn memory_term(byte: ByteRange) -> Option<OperandTerm>
    ensures { result ≡ term_of_memory byte }
{
    match byte.value() {
        Some(number) => Some(OperandTerm::Number(number)),
        None => None,
    }
}
