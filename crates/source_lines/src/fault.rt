// Why a text is no listing.

use thiserror::Error;

/// Why a text is no listing (docs/NOTES.md, "What is refused").
#[derive(Debug, Drop, Error, PartialEq)]
pub enum ListingFault {
    /// No line has the form of an assembler's listing.
    #[error("no listing of z80asm, sjasmplus, SDCC, GNU as or crasm")]
    NoListing,
    /// The listing has more than 4 MB, 4,194,304 bytes.
    #[error("more than 4 MB of listing")]
    TooLarge,
    /// Memory was refused.
    #[error("out of memory")]
    NoMemory,
}
