// Why a procedure has no dearest way.

ghost use Rattle.std.specs.Prelude.{◌≡◌};
ghost use Rattle.dearest_way.specs.declared.fault.WayFault.TheVariants.{NoMemory};

use std::alloc::{AllocError, AllocFailed};
use thiserror::Error;

/// Why a procedure has no dearest way.
#[derive(Clone, Copy, Debug, Error, PartialEq, Eq)]
pub enum WayFault {
    /// The procedure has no time.
    #[error("the procedure has no time")]
    Untimed,
    /// No way to an exit was found whose parts come to at most the procedure's time.
    #[error("no way is known")]
    NoWay,
    /// Memory was refused.
    #[error("out of memory")]
    NoMemory,
}

impl From<AllocError> for WayFault {
    ghost from_gives = { λ _ e. e ≡ NoMemory };

    fn from(_error: AllocError) -> WayFault {
        WayFault::NoMemory
    }
}

impl<T: Drop> From<AllocFailed<T>> for WayFault {
    ghost from_gives = { λ _ e. e ≡ NoMemory };

    fn from(_failed: AllocFailed<T>) -> WayFault {
        WayFault::NoMemory
    }
}
