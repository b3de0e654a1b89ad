// What a programmer says about a ROM in the comments of its source, read from the listing that the assembler writes
// (docs/NOTES.md).
#![tactic(auto)]

mod fact_text;
mod fault;
mod kind;
mod note_text;
mod notes;
mod reading;

pub use fault::NoteFault;
pub use kind::NoteKind;
pub use notes::{NmiNote, SaidOnce, SourceNote, SourceNotes};
