// Why an analysis ends early.

use std::alloc::{AllocError, AllocFailed};
use thiserror::Error;

/// Why an analysis ends early.
#[derive(Clone, Copy, Debug, Error, PartialEq, Eq)]
pub enum FlowFault {
    /// There are more rows or procedures than a certificate can have.
    #[error("a certificate has no room for it")]
    Limit,
    #[error("out of memory")]
    NoMemory,
}

impl From<AllocError> for FlowFault {
    fn from(_error: AllocError) -> FlowFault {
        FlowFault::NoMemory
    }
}

impl<T: Drop> From<AllocFailed<T>> for FlowFault {
    fn from(_failed: AllocFailed<T>) -> FlowFault {
        FlowFault::NoMemory
    }
}
