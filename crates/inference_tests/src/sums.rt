// What the tests expect: linears, and lists of them.

use affine::{Relations, Space};
use loop_bounds::{Effect, Linear, Term, Variable};

/// The space after some steps from one of which nothing is known, with no slots.
pub fn after_all(effects: &[Effect]) -> Space {
    run(&Space::full(), effects)
}

/// The space after some steps, with no slots.
pub fn run(from: &Space, effects: &[Effect]) -> Space {
    let mut space = *from;
    for effect in effects {
        space = space.after(effect, 0);
    }
    space
}

/// The constant and terms: each a coefficient and a variable.
pub fn linear(constant: i32, terms: &[(i32, Variable)]) -> Option<Linear> {
    let mut made = Linear::of_constant(constant)?;
    for (coefficient, variable) in terms {
        made = made.with_term(Term {
            coefficient: *coefficient,
            variable: *variable,
        })?;
    }
    Some(made)
}

/// Whether the relations are these, in this order.
pub fn are(found: &Relations, wanted: &[Option<Linear>]) -> bool {
    found.as_slice().len() == wanted.len()
        && found
            .as_slice()
            .iter()
            .zip(wanted)
            .all(|(linear, wanted)| Some(*linear) == *wanted)
}
