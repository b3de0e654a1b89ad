// The order of procedures by their calls, and the depth of stack that each needs (docs/CALLS.md).
#![tactic(auto)]

mod cycle;
mod depth;
mod edge;
mod fault;
mod ordering;
mod walk;

pub use depth::{Held, depths};
pub use edge::{Edge, ProcId};
pub use fault::GraphFault;
pub use ordering::order;
