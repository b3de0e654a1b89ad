// Annotations with notes added or left out, and whether they take a refusal away (docs/EXPLAIN.md, "Remedies").
#![tactic(auto)]

mod merging;
mod trying;

pub use merging::{
    add_loop, added_of, clash, has_fact, merged, only_facts, only_loops, only_split, with_budget,
    with_region, with_split_instead, without_facts, without_splits,
};
pub use trying::{TrialGoal, answers_otherwise, clean_with, is_bounded, plain_setting};
