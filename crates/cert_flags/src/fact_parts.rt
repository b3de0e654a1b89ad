// A flag fact told by flag parts.
ghost use Rattle.std.specs.Prelude.{◌≡◌, ◌≤◌, unsigned_abs};
ghost use Rattle.cert_flags.specs.FactParts.{part_of_variable, parts_of_fact, register_variable};

use abs_state::FlagFact;
use flag_letters::{FlagPart, FlagParts, Letter};
use loop_bounds::{Linear, Term, Variable};
use z80_decode::Register8;

/// The variable of a register.
fn register_variable(register: Register8) -> Variable
    ensures { result ≡ register_variable register }
{
    match register {
        Register8::B => Variable::B,
        Register8::C => Variable::C,
        Register8::D => Variable::D,
        Register8::E => Variable::E,
        Register8::H => Variable::H,
        Register8::L => Variable::L,
        Register8::A => Variable::A,
    }
}

/// The flag part of a letter and the sum of a constant and a variable.
fn part_of_variable(letter: Letter, constant: i32, variable: Variable) -> FlagPart
    requires { unsigned_abs constant ≤ 255 }
    ensures { result ≡ part_of_variable letter constant variable }
{
    let term = Term {
        coefficient: 1,
        variable,
    };
    let linear = Linear::of_constant(constant).unwrap();
    FlagPart {
        letter,
        linear: linear.with_term(term).unwrap(),
    }
}

/// The flag parts that say what a flag fact says (docs/CERTIFICATE.md, "To version 3").
pub fn parts_of_fact(fact: FlagFact) -> FlagParts
    ensures { result ≡ parts_of_fact fact }
{
    let mut parts = FlagParts::empty();
    match fact {
        FlagFact::Zero(register) => {
            parts.push(part_of_variable(Letter::Zero, 0, register_variable(register)));
        }
        FlagFact::Compared(byte) => {
            let constant = 0 - i32::from(byte);
            parts.push(part_of_variable(Letter::CarryIfBelow, constant, Variable::A));
            parts.push(part_of_variable(Letter::Zero, constant, Variable::A));
        }
    }
    parts
}
