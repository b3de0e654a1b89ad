// Potentials for the rows of a timed procedure: an upper bound for the T-states that are left at each row
// (docs/ANALYSIS.md, "Potentials").
#![tactic(auto)]

mod fault;
mod heads;
mod procedure;
mod solving;

pub use fault::PotentialFault;
pub use procedure::potentials;
pub use solving::Nesting;
