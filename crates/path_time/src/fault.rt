// Why a procedure has no longest walk.

use thiserror::Error;

/// Why a procedure has no longest walk.
#[derive(Clone, Copy, Debug, Error, PartialEq, Eq)]
pub enum TimeFault {
    /// Its rows have a cycle. This is the lowest address of a row on one.
    #[error("the rows of the procedure form a cycle at {0:04X}")]
    Cycle(u16),
    /// The procedure has no time.
    #[error("the procedure has no time")]
    Untimed,
    /// Memory was refused, for the answer or for what leads to it.
    #[error("out of memory")]
    NoMemory,
}
