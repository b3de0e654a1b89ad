// The checker: which certificates it accepts for a ROM, and what that means for every run of the board
// (docs/CHECKER.md, docs/THEOREM.md).
#![tactic(auto)]

mod accepted;
mod checking;

pub use abs_step::{Reason, Saved};
pub use accepted::Accepted;
pub use certificate;
pub use check_rules::Refused;
pub use check_walks::{compared, exit_cost};
pub use checking::{CheckFault, check};
