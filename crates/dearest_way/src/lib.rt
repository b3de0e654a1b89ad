// The dearest way through a procedure with loops, in T-states (docs/CHECKER.md, "Walks").
#![tactic(auto)]

mod arrivals;
mod counting;
mod entered;
mod fault;
mod links;
mod parts;
mod routes;
mod values;
mod ways;
mod worth;

pub use counting::comparisons;
pub use fault::WayFault;
pub use parts::{LoopTurns, WayPart};
pub use ways::{DearestWay, dearest};
