// The names of registers and variables in annotations.

use loop_bounds::{Part, Variable};
use std::alloc::{AllocError, Global};
use z80_decode::Register8;

/// The letter of a register.
pub fn register_name(register: Register8) -> &'static str {
    match register {
        Register8::A => "A",
        Register8::B => "B",
        Register8::C => "C",
        Register8::D => "D",
        Register8::E => "E",
        Register8::H => "H",
        Register8::L => "L",
    }
}

/// The name of a variable in annotations.
///
/// # Errors
///
/// Memory was refused.
pub fn variable_name(alloc: Global, variable: Variable) -> Result<String, AllocError> {
    let name = match variable {
        Variable::A => "A",
        Variable::B => "B",
        Variable::C => "C",
        Variable::D => "D",
        Variable::E => "E",
        Variable::H => "H",
        Variable::L => "L",
        Variable::Bc => "BC",
        Variable::De => "DE",
        Variable::Hl => "HL",
        Variable::Ix => "IX",
        Variable::Iy => "IY",
        Variable::Slot(number, part) => {
            let number = number.number();
            return match part {
                Part::Word => format!(in alloc; "s{number}"),
                Part::High => format!(in alloc; "s{number}h"),
                Part::Low => format!(in alloc; "s{number}l"),
            };
        }
    };
    String::from_str(alloc, name)
}
