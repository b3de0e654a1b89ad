// The parts of conditions.
ghost use Rattle.std.specs.Prelude.{◌≡◌};
ghost use Rattle.flag_conditions.specs.Linears.{left_of_127, only};
ghost use Rattle.flag_conditions.specs.NewConditions.{zero, zero_if_below, carry_if_below, sign_if_below, no_carry, of_byte, of_byte_and, of_hl};

use crate::linears::{left_of_127, no_terms, only};
use crate::new_parts::NewParts;
use flag_letters::{FlagPart, Letter};
use loop_bounds::{Linear, Variable};

pub(crate) fn zero(linear: Linear) -> FlagPart
    ensures { result ≡ zero linear }
{
    FlagPart {
        letter: Letter::Zero,
        linear,
    }
}

pub(crate) fn zero_if_below(linear: Linear) -> FlagPart
    ensures { result ≡ zero_if_below linear }
{
    FlagPart {
        letter: Letter::ZeroIfBelow,
        linear,
    }
}

pub(crate) fn carry_if_below(linear: Linear) -> FlagPart
    ensures { result ≡ carry_if_below linear }
{
    FlagPart {
        letter: Letter::CarryIfBelow,
        linear,
    }
}

pub(crate) fn sign_if_below(linear: Linear) -> FlagPart
    ensures { result ≡ sign_if_below linear }
{
    FlagPart {
        letter: Letter::SignIfBelow,
        linear,
    }
}

/// C is clear.
pub(crate) fn no_carry() -> FlagPart
    ensures { result ≡ no_carry }
{
    carry_if_below(no_terms(0))
}

/// Z and S of a byte in a register.
pub(crate) fn of_byte(variable: &Variable) -> NewParts
    ensures { result ≡ of_byte variable.now }
{
    NewParts::two(zero(only(*variable)), sign_if_below(left_of_127(*variable)))
}

/// Z and S of a byte in a register, and perhaps one more part.
pub(crate) fn of_byte_and(variable: &Variable, more: Option<FlagPart>) -> NewParts
    ensures { result ≡ of_byte_and variable.now more }
{
    match more {
        None => of_byte(variable),
        Some(part) => NewParts::three(
            zero(only(*variable)),
            sign_if_below(left_of_127(*variable)),
            part,
        ),
    }
}

/// Z and S of HL.
pub(crate) fn of_hl() -> NewParts
    ensures { result ≡ of_hl }
{
    NewParts::two(
        zero(only(Variable::Hl)),
        sign_if_below(left_of_127(Variable::H)),
    )
}
