// Faults of the decoder.
use thiserror::Error;

/// Why no instruction was decoded.
#[derive(Clone, Copy, Debug, PartialEq, Eq, Error)]
pub enum DecodeFault {
    /// The bytes, or none at all, are a proper beginning of a documented spelling.
    #[error("truncated")]
    Truncated,
    /// The bytes neither begin with a documented spelling nor are the beginning of one.
    #[error("undocumented")]
    Undocumented,
}
