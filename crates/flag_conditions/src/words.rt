// Conditions of 16-bit arithmetic.
ghost use Rattle.std.specs.Prelude.{◌≡◌, ◌<◌};
ghost use Rattle.loop_bounds.specs.Variable.{rank_of};
ghost use Rattle.flag_conditions.specs.NewConditions.{word_sum_before, word_difference_before, word_sum_after};

use crate::linears::{word_excess, word_left};
use crate::new_parts::NewParts;
use crate::parts::{carry_if_below, zero};
use crate::word_operand::OperandWord;
use loop_bounds::Variable;

pub(crate) fn word_sum_before(
    variable: Variable,
    operand: Option<OperandWord>,
    carry: Option<bool>,
) -> NewParts
    requires { 8 < rank_of variable }
    ensures { result ≡ word_sum_before variable operand carry }
{
    match operand {
        None => NewParts::none(),
        Some(known) => match carry {
            None => NewParts::none(),
            Some(carry) => NewParts::one(carry_if_below(word_left(carry, variable, known))),
        },
    }
}

pub(crate) fn word_difference_before(
    variable: Variable,
    operand: Option<OperandWord>,
    carry: Option<bool>,
) -> NewParts
    requires { 8 < rank_of variable }
    ensures { result ≡ word_difference_before variable operand carry }
{
    match operand {
        None => NewParts::none(),
        Some(known) => match carry {
            None => NewParts::none(),
            Some(true) => NewParts::one(carry_if_below(word_excess(true, variable, known))),
            Some(false) => {
                let excess = word_excess(false, variable, known);
                NewParts::two(carry_if_below(excess), zero(excess))
            }
        },
    }
}

pub(crate) fn word_sum_after(variable: Variable, operand: Option<OperandWord>) -> NewParts
    requires { 8 < rank_of variable }
    ensures { result ≡ word_sum_after variable operand }
{
    match operand {
        None | Some(OperandWord::Own) => NewParts::none(),
        Some(known) => NewParts::one(carry_if_below(word_excess(false, variable, known))),
    }
}
