// The analysis of a ROM: a worklist solver that finds the states that come to each address of each procedure
// (docs/ANALYSIS.md, "Rows").
#![tactic(auto)]

mod facts;
mod fault;
mod flow;
mod joining;
mod noted;
mod program_point;
mod reasons;
mod task;
mod ways;

pub use facts::facts_at;
pub use fault::FlowFault;
pub use flow::Flow;
pub use joining::{joined, widest};
pub use noted::Noted;
pub use program_point::{MAIN, NMI, ProgramPoint, sub_of};
pub use task::Task;
pub use ways::{JudgedRow, judged_row};
