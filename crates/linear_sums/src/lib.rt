// Sums of linears, rewritten by effects and compared in byte form with one-valued variables put in (docs/CHECKER.md,
// "Canon").
#![tactic(auto)]

mod bytes;
mod canon;
mod multiples;
mod rewriting;
mod sum;

pub use rewriting::{LinearChange, rewritten};
pub use sum::Sum;
