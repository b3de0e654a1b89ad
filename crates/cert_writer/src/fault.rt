// Why the writer gives no certificate.

use analysis::FlowFault;
use cert_checker::CheckFault;
use certificate::CertFault;
use check_rules::Refused;
use std::alloc::{AllocError, AllocFailed};
use thiserror::Error;

/// Why the writer gives no certificate for a ROM.
#[derive(Debug, Drop, Error)]
pub enum WriterFault {
    /// A reason applies; `Refused` has it and the address at which it is reported.
    #[error("refused at {:04X}: {}", .0.address, .0.reason)]
    Refused(Refused),
    /// Procedures call one another in a cycle; these are their entries along it.
    #[error("procedures call one another in a cycle")]
    Recursion(Vec<u16>),
    /// A timed procedure has a cycle of rows that passes no annotated loop; this is the lowest address of a row on such
    /// a cycle.
    #[error("no loop bounds the cycle of rows at {0:04X}")]
    LoopUnbounded(u16),
    /// A certificate has no room for the number of its lines, for a depth, for a time or for a potential.
    #[error("a certificate has no room for it")]
    Limit,
    #[error("out of memory")]
    NoMemory,
}

impl From<FlowFault> for WriterFault {
    fn from(fault: FlowFault) -> WriterFault {
        match fault {
            FlowFault::Limit => WriterFault::Limit,
            FlowFault::NoMemory => WriterFault::NoMemory,
        }
    }
}

impl From<CertFault> for WriterFault {
    fn from(fault: CertFault) -> WriterFault {
        match fault {
            CertFault::NoMemory => WriterFault::NoMemory,
            CertFault::Line(_) | CertFault::Limit => WriterFault::Limit,
        }
    }
}

impl From<CheckFault> for WriterFault {
    fn from(fault: CheckFault) -> WriterFault {
        match fault {
            CheckFault::Refused(refused) => WriterFault::Refused(refused),
            CheckFault::NoMemory => WriterFault::NoMemory,
        }
    }
}

impl From<AllocError> for WriterFault {
    fn from(_error: AllocError) -> WriterFault {
        WriterFault::NoMemory
    }
}

impl<T: Drop> From<AllocFailed<T>> for WriterFault {
    fn from(_failed: AllocFailed<T>) -> WriterFault {
        WriterFault::NoMemory
    }
}
