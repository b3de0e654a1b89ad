// Why a text is no annotations.

use thiserror::Error;

/// Why a text is no annotations (docs/ANNOTATIONS.md, "What is refused").
#[derive(Debug, Drop, Error, PartialEq)]
pub enum AnnotationFault {
    /// The text is not UTF-8 or no TOML.
    #[error("bad annotation text")]
    Text,
    /// This key is missing, its value has a wrong form, or annotations have no such key.
    #[error("bad annotation {0}")]
    Key(String),
    /// Memory was refused.
    #[error("out of memory")]
    NoMemory,
}

/// Why a value does not suit its key.
pub(crate) enum Wrong {
    Form,
    NoMemory,
}
