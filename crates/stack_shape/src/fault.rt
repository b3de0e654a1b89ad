// Faults of changes to a shape.
use thiserror::Error;

/// Why a change to a shape was refused. The shape is as it was.
#[derive(Clone, Copy, Debug, Error, PartialEq, Eq)]
pub enum ShapeFault {
    /// A push at 64 slots.
    #[error("the stack has 64 words already")]
    Full,
    /// A pop or an exchange at 0 slots.
    #[error("the stack has no word")]
    Empty,
}
