// Linears after a step as linears before it, and negations.
use crate::setting::{a_less, any_state, l_less_64, with_a};
use derived_parts::{linear_before, negated};
use flag_conditions::one_term;
use loop_bounds::{Effect, Variable};

/// With nothing changed A - L stays, and where A is 5 it is 5 - L. A negation turns each sign.
#[test]
fn linears_before_a_step(rt: HostRuntime) {
    let unchanged = Effect::unchanged();
    let found = linear_before(&a_less(Variable::L), &unchanged, &any_state());
    assert!(rt; found == Some(a_less(Variable::L)));
    let found = linear_before(&a_less(Variable::L), &unchanged, &with_a(5, 5));
    assert!(rt; found == Some(one_term(5, -1, Variable::L)));
    assert!(rt; negated(&l_less_64()) == Some(one_term(64, -1, Variable::L)));
}
