// The refined step: the successors of a row with flag parts, with what its parts and the linear effect of its
// instruction say, and the conditions of the step (docs/CHECKER.md, "The refined step").
#![tactic(auto)]

mod conditionals;
mod refined;
mod sharpening;
mod told;

pub use conditionals::{opposite, tested_condition};
pub use refined::{RefinedStep, refined_step};
pub use told::StepTold;
