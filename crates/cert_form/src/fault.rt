// Why bytes or parts are no certificate.

use thiserror::Error;

/// Why bytes or parts are no certificate.
#[derive(Clone, Copy, Debug, Error, PartialEq, Eq)]
pub enum CertFault {
    /// The number, counted from 1, of the first line with which the lines so far begin no certificate.
    #[error("bad certificate line {0}")]
    Line(u64),
    /// The lines before this one begin a certificate, and this one is out of form only because a count is above its
    /// limit.
    #[error("bad certificate limit")]
    Limit,
    /// Memory was refused for a part of the certificate.
    #[error("out of memory")]
    NoMemory,
}
