// What comes with a step of a row: what the refined step adds to an arrival, the effect back from a call, and
// restarts (docs/CHECKER.md, "Successors, calls and exits" and "Restarts").
#![tactic(auto)]

mod restarts;
mod returned;
mod told;

pub use restarts::{restarted, restarts_by};
pub use returned::{effect_back, effect_of_call};
pub use told::refinement;
