// The worklist of an inferring analysis (docs/INFERENCE.md): the rows found so far, with their calls and exits, and
// what the visit of a row changes.
#![tactic(auto)]

mod judged_steps;
mod keeping;
mod setting;
mod waiting;
mod worklist;

pub use judged_steps::{
    bytes_of, parts_by, parts_told, space_after, state_at_exit, told_at, told_by,
};
pub use setting::{Setting, Watch};
pub use worklist::{Findings, RowEdge, Worklist};
