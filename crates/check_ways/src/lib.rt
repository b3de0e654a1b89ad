// Where a row leads to, and what it pays (docs/CHECKER.md, "Successors, calls and exits" and "Paying").
#![tactic(auto)]

mod exits;
mod going;
mod only_row;
mod paying;
mod restarting;
mod subject;
mod ways;

pub use exits::may_have_exit;
pub use going::{comes_back_at_once, goes_on};
pub use only_row::is_lone;
pub use paying::{constant_sum, cost_before, pays, pays_place, potential_of};
pub use subject::{Subject, SubjectStep};
pub use ways::Way;
