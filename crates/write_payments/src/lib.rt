// The least potential with which one row of a timed procedure pays for what comes next, and the linears of potentials
// (docs/ANALYSIS.md, "Potentials").
#![tactic(auto)]

mod least;
mod sums;

pub use least::{Choice, Payer, Unpaid, least_of_constants};
pub use sums::{greatest_value, multiple_of, with_constant};
