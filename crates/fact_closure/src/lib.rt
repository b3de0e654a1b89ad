// The facts and flag parts that a certificate needs (docs/INFERENCE.md, "Facts"): those wanted by refused rows, with
// all that they follow from.
#![tactic(auto)]

mod carrying;
mod closure;
mod needed;
mod needs;
mod parting;

pub use carrying::{LoopFact, carried_facts};
pub use needed::{FactSearch, NeededFacts, facts_and_rows, needed_facts};
