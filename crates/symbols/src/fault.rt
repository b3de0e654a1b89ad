// Why a text has no symbols, and why a text names no address.

use crate::closest::Closest;
use thiserror::Error;

/// Why no symbols are read from a text (docs/SYMBOLS.md, "What is refused").
#[derive(Debug, Drop, Error, PartialEq)]
pub enum SymbolFault {
    /// A name has another value than in an earlier line. Lines count from 1.
    #[error("{name} has one value in line {first} and another in line {second}")]
    TwoValues {
        name: String,
        first: u32,
        second: u32,
    },
    /// The text has more than 4 MB, 4,194,304 bytes.
    #[error("more than 4 MB of symbols")]
    TooLarge,
    /// Memory was refused.
    #[error("out of memory")]
    NoMemory,
}

/// Why a text names no address.
#[derive(Debug, Drop, Error, PartialEq)]
pub enum ResolveFault {
    /// No symbol has this name. The closest ones come with it.
    #[error("no symbol {name}{closest}")]
    Unknown { name: String, closest: Closest },
    /// The text is no name and no number, or what follows its sign is no number.
    #[error("not a name or an address")]
    Form,
    /// The value is below 0000 or above FFFF.
    #[error("not in 0000 to FFFF")]
    Range,
    /// Memory was refused.
    #[error("out of memory")]
    NoMemory,
}
