// The first parts of a report: the verdict, where time goes, and the procedures.
#![tactic(auto)]

mod procedures;
mod times;
mod trees;
mod verdict;

pub use procedures::{add_keeps, add_procedures};
pub use times::add_times;
pub use verdict::{add_meaning, add_verdict};
