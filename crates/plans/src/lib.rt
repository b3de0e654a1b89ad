// Plans: notes that a search tries together, beside what is given (docs/INFERENCE.md, "The search").
#![tactic(auto)]

mod base;
mod deduced;
mod plan;

pub use base::Base;
pub use plan::{Family, Finding, Plan, copy_of_split, split_of};
