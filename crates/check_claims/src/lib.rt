// Which facts and flag parts are known to hold after a step (docs/CHECKER.md, "Claims").
#![tactic(auto)]

mod equality;
mod facts;
mod laws;
mod parts;
mod rewritings;
mod source;
mod telling;
mod zeros;

pub use laws::{conditions_name_registers, seen_steps_are_true, slight_effects_stay};
pub use rewritings::{Rewriting, constants_first, variables_first};
pub use source::StepSource;
