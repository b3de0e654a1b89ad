// A linear that is below 0 exactly where another is not.
ghost use Rattle.std.specs.Prelude.{◌≡◌, []};
ghost use Rattle.flag_conditions.specs.OtherSide.{other_side, with_negated};

use loop_bounds::{Linear, Term};

/// The terms of a linear with the other sign, behind a constant.
fn with_negated(constant: Linear, linear: &Linear) -> Linear
    requires { constant.terms ≡ [] }
    ensures { result ≡ with_negated constant.constant linear.now.terms }
{
    let _whole = constant.constant();
    let mut result = constant;
    for term in linear.terms() {
        let negated = Term {
            coefficient: -term.coefficient,
            variable: term.variable,
        };
        result = result.with_term(negated).unwrap();
    }
    result
}

/// -1 - L, which is below 0 exactly where L is not. None where its constant is above 1,000,000,000 in size.
pub(crate) fn other_side(linear: &Linear) -> Option<Linear>
    ensures { result ≡ other_side linear.now }
{
    match Linear::of_constant(-1 - linear.constant()) {
        Some(constant) => Some(with_negated(constant, linear)),
        None => None,
    }
}
