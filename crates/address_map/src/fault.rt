// Faults of lists of zones.

use thiserror::Error;

/// Why a list of zones is no address map. Of the lowest gap and the lowest overlap the one at the lower address is
/// reported; then Work, then Rom.
#[derive(Clone, Copy, Debug, Error, PartialEq, Eq)]
pub enum MapFault {
    /// An address that lies in no zone.
    #[error("no zone at {0:04X}")]
    Gap(u16),
    /// An address that lies in two or more zones.
    #[error("two zones at {0:04X}")]
    Overlap(u16),
    /// The zones do not name work RAM exactly once. Or that zone is not work RAM for both reading and writing, does not
    /// begin at a multiple of 400h, or has fewer than 400h addresses. Or another zone names a RAM and is not the same
    /// RAM for both.
    #[error("no work RAM as it must be")]
    Work,
    /// The zones do not name the ROM exactly once. Or that zone is not ROM for both reading and writing, or does not
    /// extend from 0000 to the ROM's last byte.
    #[error("no ROM as it must be")]
    Rom,
}
