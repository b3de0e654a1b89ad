// Annotations in which names stand for addresses, and notes in the source beside them, as a text with numbers alone
// (docs/SYMBOLS.md, "In annotations"; docs/NOTES.md).
#![tactic(auto)]

mod carrying;
mod entries;
mod fault;
mod merging;
mod numbered_text;
mod resolving;
mod spelled_names;

pub use fault::{NamedFault, UnknownName};
pub use numbered_text::{NamedText, named_text};
pub use spelled_names::{register_name, variable_name};
