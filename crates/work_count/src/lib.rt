// How many comparisons judging a certificate takes at most, counted before any is made (docs/CHECKER.md, "How long
// judging takes").
#![tactic(auto)]

mod counting;
mod plain;
mod ways;

pub use counting::{Comparisons, DEFAULT_WORK, count_comparisons};
