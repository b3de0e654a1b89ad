// The cuts that an inequality between a linear and 0 makes (docs/CHECKER.md, "Narrowing by parts").
#![tactic(auto)]

mod limiting;
mod products;
mod spans;

pub use limiting::{SideOfZero, limit};
pub use spans::{ValueSpan, extremes};
