// The linears of conditions.
ghost use Rattle.std.specs.Prelude.{◌≡◌, ◌<◌};
ghost use Rattle.loop_bounds.specs.Linear.{IsLinear};
ghost use Rattle.loop_bounds.specs.Variable.{rank_of};
ghost use Rattle.flag_conditions.specs.Linears.{no_terms, one_term, two_terms, only, left_of_127, above_128, byte_left, byte_excess, weighted, word_left, word_excess};

use crate::byte_operand::{OperandTerm, OtherRegister};
use crate::word_operand::OperandWord;
use loop_bounds::{Linear, Term, Variable};

/// The constant as a linear.
pub fn no_terms(constant: i32) -> Linear
    requires { IsLinear (no_terms constant) }
    ensures { result ≡ no_terms constant }
{
    Linear::of_constant(constant).unwrap()
}

/// c + k*v
pub fn one_term(constant: i32, coefficient: i32, variable: Variable) -> Linear
    requires { IsLinear (one_term constant coefficient variable) }
    ensures { result ≡ one_term constant coefficient variable }
{
    let term = Term {
        coefficient,
        variable,
    };
    no_terms(constant).with_term(term).unwrap()
}

/// c + k*v + j*w, where v comes before w in the order of variables.
pub fn two_terms(constant: i32, k: i32, first: Variable, j: i32, second: Variable) -> Linear
    requires { IsLinear (two_terms constant k first j second) }
    ensures { result ≡ two_terms constant k first j second }
{
    let term = Term {
        coefficient: j,
        variable: second,
    };
    one_term(constant, k, first).with_term(term).unwrap()
}

/// v
pub(crate) fn only(variable: Variable) -> Linear
    ensures { result ≡ only variable }
{
    one_term(0, 1, variable)
}

/// 127 - v
pub(crate) fn left_of_127(variable: Variable) -> Linear
    ensures { result ≡ left_of_127 variable }
{
    one_term(127, -1, variable)
}

/// v - 128
pub(crate) fn above_128(variable: Variable) -> Linear
    ensures { result ≡ above_128 variable }
{
    one_term(-128, 1, variable)
}

/// 255 - A - x - k
pub(crate) fn byte_left(carry: bool, operand: OperandTerm) -> Linear
    ensures { result ≡ byte_left carry operand }
{
    let constant = 255 - i32::from(carry);
    match operand {
        OperandTerm::A => one_term(constant, -2, Variable::A),
        OperandTerm::Other(r) => two_terms(constant, -1, Variable::A, -1, r.variable()),
        OperandTerm::Number(number) => one_term(constant - i32::from(number), -1, Variable::A),
    }
}

/// A - x - k
pub(crate) fn byte_excess(carry: bool, operand: OperandTerm) -> Linear
    ensures { result ≡ byte_excess carry operand }
{
    let constant = 0 - i32::from(carry);
    match operand {
        OperandTerm::A => no_terms(constant),
        OperandTerm::Other(r) => two_terms(constant, 1, Variable::A, -1, r.variable()),
        OperandTerm::Number(number) => one_term(constant - i32::from(number), 1, Variable::A),
    }
}

/// 256*A + r
pub(crate) fn a_first(register: OtherRegister) -> Linear
    ensures { result ≡ weighted 256 1 register }
{
    two_terms(0, 256, Variable::A, 1, register.variable())
}

/// A + 256*r
pub(crate) fn a_last(register: OtherRegister) -> Linear
    ensures { result ≡ weighted 1 256 register }
{
    two_terms(0, 1, Variable::A, 256, register.variable())
}

/// 65,535 - v - x - k, for a word whose variable comes after BC and DE.
pub(crate) fn word_left(carry: bool, variable: Variable, operand: OperandWord) -> Linear
    requires { 8 < rank_of variable }
    ensures { result ≡ word_left carry variable operand }
{
    let constant = 65_535 - i32::from(carry);
    match operand {
        OperandWord::Bc => two_terms(constant, -1, Variable::Bc, -1, variable),
        OperandWord::De => two_terms(constant, -1, Variable::De, -1, variable),
        OperandWord::Own => one_term(constant, -2, variable),
    }
}

/// v - x - k, for a word whose variable comes after BC and DE.
pub(crate) fn word_excess(carry: bool, variable: Variable, operand: OperandWord) -> Linear
    requires { 8 < rank_of variable }
    ensures { result ≡ word_excess carry variable operand }
{
    let constant = 0 - i32::from(carry);
    match operand {
        OperandWord::Bc => two_terms(constant, -1, Variable::Bc, 1, variable),
        OperandWord::De => two_terms(constant, -1, Variable::De, 1, variable),
        OperandWord::Own => no_terms(constant),
    }
}
