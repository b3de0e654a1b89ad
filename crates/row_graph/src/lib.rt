// The control flow of an inferring analysis: addresses of a procedure, its loops, and runs from one state.
#![tactic(auto)]

mod flow_graph;
mod local_run;
mod natural_loop;
mod turns;

pub use flow_graph::FlowGraph;
pub use local_run::{LocalRow, LocalRun};
pub use natural_loop::{NaturalLoop, loops_of};
pub use turns::turns_of;
