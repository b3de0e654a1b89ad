// What is known of refusals: the refused rows of an analysis that goes on after them, and where their values come from
// (docs/EXPLAIN.md).
#![tactic(auto)]

mod explored;
mod origins;
mod refusals;
mod situation;
mod unshown;

pub use explored::Explored;
pub use origins::{Origin, OriginKind, origins_of};
pub use refusals::{Refusal, refusals_of};
pub use situation::{Situation, all_follow, lost_pairs};
pub use unshown::{RowSteps, falling_with, unshown_after, unshown_rows};
