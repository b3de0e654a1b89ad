// The lines that explain refusals: where, what, whence, what is known there, and a remedy (docs/EXPLAIN.md).
#![tactic(auto)]

mod block;
mod habits;
mod known;
mod loops;
mod remedy;
mod whence;

pub use block::{add_block, add_head, add_what};
pub use loops::{add_recursion, add_time, add_unbounded};
pub use remedy::{add_habit, add_remedy};
