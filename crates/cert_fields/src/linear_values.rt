// What the type of a linear implies, and whether it names only slots of a shape.
ghost use Rattle.std.specs.Prelude.{◌≡◌, ◌≤◌, ◌↔◌, All, IsTrue, length};
ghost use Rattle.cert_fields.specs.Linear.{IsBelow, IsShort, IsSum, HasSlotsBelow};

use loop_bounds::{Linear, Variable};

/// A law: by its type, a variable is no slot with a number of 64 or more.
fn is_held(variable: Variable)
    ensures { IsBelow 64 variable }
{
    let _rank = variable.rank();
}

/// A law: by its type, a linear is in form in a row with 64 slots, and within the limits.
pub fn is_linear(linear: &Linear)
    ensures form { IsSum 64 linear.now }
    ensures short { IsShort linear.now }
{
    for term in linear.terms() {
        is_held(term.variable);
    }
}

/// Whether a variable is no slot, or a slot with a number below `slots` (docs/CERTIFICATE.md, "Rows").
pub fn is_below(variable: Variable, slots: usize) -> bool
    ensures { IsTrue result ↔ IsBelow slots variable }
{
    u128::from(variable.rank()) < 12 + 3 * slots as u128
}

/// Whether a linear names no slot beyond a shape with this many slots.
pub fn stays_within(linear: &Linear, slots: usize) -> bool
    ensures { IsTrue result ↔ HasSlotsBelow slots linear.now }
{
    linear
        .terms()
        .iter()
        .all(|term| is_below(term.variable, slots))
}
