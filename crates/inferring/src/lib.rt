// Analyses that infer (docs/INFERENCE.md), from the entries or from the rows of another one, and what comes of them.
// They go on after refusals; what they find is judged by the checker.
#![tactic(auto)]

mod depths;
mod fixpoint;
mod found_flow;
mod lowering;
mod resuming;

pub use depths::stack_depth;
pub use fixpoint::{found_rows, found_rows_with};
pub use found_flow::flow_of;
pub use resuming::{SplitReach, loosened, resumed};
