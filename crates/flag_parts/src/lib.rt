// Flag parts: what a row says of the flags by linears, and what a condition then leaves of its ranges (docs/CHECKER.md,
// "Conditions of a step" and "Narrowing by parts").
#![tactic(auto)]

mod carry;
mod excluding;
mod narrowing;

pub use carry::known_carry;
pub use narrowing::narrow;
