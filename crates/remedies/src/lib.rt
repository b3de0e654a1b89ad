// Remedies against refusals: annotations that were tried (docs/EXPLAIN.md, "Remedies").
#![tactic(auto)]

mod case;
mod facts;
mod looking;
mod loops;
mod moves;
mod parts;

pub use case::Case;
pub use looking::{Remedies, Remedy};
pub use loops::for_loop;
