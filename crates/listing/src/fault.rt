// Why a listing was not written.

use std::alloc::{AllocError, AllocFailed};
use texts::DeviceFault;

/// Why a listing was not written to its end.
#[derive(Clone, Copy, PartialEq, Eq)]
pub enum ListFault {
    /// The sink failed.
    Device,
    /// Memory was refused.
    NoMemory,
}

impl From<AllocError> for ListFault {
    fn from(_error: AllocError) -> ListFault {
        ListFault::NoMemory
    }
}

impl<T: Drop> From<AllocFailed<T>> for ListFault {
    fn from(_failed: AllocFailed<T>) -> ListFault {
        ListFault::NoMemory
    }
}

impl From<DeviceFault> for ListFault {
    fn from(_fault: DeviceFault) -> ListFault {
        ListFault::Device
    }
}
