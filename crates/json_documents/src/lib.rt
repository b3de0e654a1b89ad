// What a command says as one JSON document (docs/JSON.md).
#![tactic(auto)]

mod concluding;
mod document;
mod explained;
mod listings;
mod members;
mod runs;
mod verdicts;
mod walks;
mod words;

pub use concluding::{conclude, conclude_file};
pub use document::{Command, Told, write_document};
