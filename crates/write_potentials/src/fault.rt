// Why there are no potentials.

use call_graph::GraphFault;
use std::alloc::{AllocError, AllocFailed};
use thiserror::Error;

/// Why the rows of a procedure have no potentials.
#[derive(Clone, Copy, Debug, Error, PartialEq, Eq)]
pub enum PotentialFault {
    /// The rows have a cycle that passes no loop's row. This is the lowest address of a row on such a cycle.
    #[error("no loop bounds the cycle of rows at {0:04X}")]
    Unbounded(u16),
    /// A potential is above 1,000,000,000 T-states, or a turn of a loop costs more than 1,000,000.
    #[error("a certificate has no room for a potential")]
    Limit,
    #[error("out of memory")]
    NoMemory,
}

impl From<AllocError> for PotentialFault {
    fn from(_error: AllocError) -> PotentialFault {
        PotentialFault::NoMemory
    }
}

impl<T: Drop> From<AllocFailed<T>> for PotentialFault {
    fn from(_failed: AllocFailed<T>) -> PotentialFault {
        PotentialFault::NoMemory
    }
}
