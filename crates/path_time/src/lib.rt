// The longest walk of a procedure, in T-states (docs/CHECKER.md, "Walks"). It also has the potentials of
// `write_potentials`.
#![tactic(auto)]

mod ahead;
mod fault;
mod links;
mod walks;

pub use fault::TimeFault;
pub use walks::longest;
pub use write_potentials::{Nesting, PotentialFault, potentials};
