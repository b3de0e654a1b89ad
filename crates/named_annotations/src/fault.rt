// Why annotations and notes do not go together, and texts that name no address.

use std::alloc::{AllocError, AllocFailed};
use symbols::ResolveFault;
use thiserror::Error;

/// Why notes cannot be added to annotations (docs/NOTES.md, "What is refused"). Lines are those of the listing, from 1.
#[derive(Debug, Drop, Error, PartialEq)]
pub enum NamedFault {
    /// The annotations, or an earlier note, say another thing of the same.
    #[error("line {line}: {what} is said otherwise before")]
    Conflict { line: u32, what: &'static str },
    /// A cell is outside the first 400h bytes of the work RAM of both boards.
    #[error("line {line}: no cell of work RAM")]
    Cell { line: u32 },
    /// Memory was refused.
    #[error("out of memory")]
    NoMemory,
}

impl From<AllocError> for NamedFault {
    fn from(_error: AllocError) -> NamedFault {
        NamedFault::NoMemory
    }
}

impl<T: Drop> From<AllocFailed<T>> for NamedFault {
    fn from(_failed: AllocFailed<T>) -> NamedFault {
        NamedFault::NoMemory
    }
}

/// A text in annotations that names no address, and why. It stays in them, so that its key is bad.
#[derive(Debug, Drop, PartialEq)]
pub struct UnknownName {
    pub text: String,
    pub fault: ResolveFault,
}
