// Why a play ended early.

use thiserror::Error;

/// Why a play ended before its summary.
#[derive(Clone, Copy, Debug, Error, PartialEq, Eq)]
pub enum PlayFault {
    /// A needed line of the input is out of form; lines count from 1.
    #[error("bad input line {0}")]
    Line(u64),
    /// The input failed.
    #[error("the input failed")]
    Read,
    /// The output failed.
    #[error("the output failed")]
    Write,
}
