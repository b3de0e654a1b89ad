// The T-states between the rows of a walk, and at its end (docs/CHECKER.md, "Walks").
#![tactic(auto)]

mod walks;

pub use walks::{compared, cost_between, cost_of_leaving, exit_cost};
