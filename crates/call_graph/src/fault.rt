// Faults of the call graph.
use crate::edge::ProcId;
use thiserror::Error;

/// Why there is no order of the procedures.
#[derive(Debug, Drop, Error)]
pub enum GraphFault {
    /// A cycle: each procedure calls the next, and the last calls the first.
    #[error("procedures call one another in a cycle")]
    Cycle(Vec<ProcId>),
    /// Memory was refused.
    #[error("out of memory")]
    NoMemory,
}
