// The abstract step: the successors of a row at one instruction, and why a row is refused for itself (docs/CHECKER.md,
// "The abstract step").
#![tactic(auto)]

mod next;
mod outcome;
mod reason;
mod rules;
mod stepping;

pub use abs_draft::DataWrite;
pub use abs_state::Mode;
pub use next::{Next, NextKind, Nexts};
pub use outcome::outcome_next;
pub use reason::{Reason, Saved};
pub use stepping::{RowStep, data_writes, row_step, successors};
