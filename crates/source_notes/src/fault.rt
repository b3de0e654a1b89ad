// Why a listing has no notes that can be read.

use source_lines::ListingFault;
use symbols::ResolveFault;
use thiserror::Error;

/// Why no notes are read from a listing (docs/NOTES.md, "What is refused"). Lines are those of the listing, from 1.
#[derive(Debug, Drop, Error, PartialEq)]
pub enum NoteFault {
    /// A note has another form than its kind.
    #[error("line {line}: expected {expected}")]
    Form { line: u32, expected: &'static str },
    /// A text in a note names no address.
    #[error("line {line}: {fault}")]
    Address { line: u32, fault: ResolveFault },
    /// What may be said once is said again.
    #[error("line {line}: {what} is said twice")]
    Twice { line: u32, what: &'static str },
    /// No line has the form of an assembler's listing.
    #[error("no listing of z80asm, sjasmplus, SDCC, GNU as or crasm")]
    NoListing,
    /// The listing has more than 4 MB, 4,194,304 bytes.
    #[error("more than 4 MB of listing")]
    TooLarge,
    /// Memory was refused.
    #[error("out of memory")]
    NoMemory,
}

impl From<ListingFault> for NoteFault {
    fn from(fault: ListingFault) -> NoteFault {
        match fault {
            ListingFault::NoListing => NoteFault::NoListing,
            ListingFault::TooLarge => NoteFault::TooLarge,
            ListingFault::NoMemory => NoteFault::NoMemory,
        }
    }
}
