// Linear bounds over the registers and the stack slots of a row (docs/CHECKER.md, "Linear bounds, effects and
// tightening").
#![tactic(auto)]

mod beside;
mod bounds;
mod effect;
mod form;
mod linear;
mod ranges;
mod rewritten;
mod tightening;
mod variable;

pub use beside::decreases_beside;
pub use bounds::{becomes, decreases, vanishes};
pub use effect::{Change, Effect, SlotChange};
pub use linear::{GREATEST_COEFFICIENT, GREATEST_CONSTANT, Linear, Term};
pub use ranges::{Ranges, Tightenable};
pub use tightening::tighten;
pub use variable::{Part, SlotNumber, Variable};
