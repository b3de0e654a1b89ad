// Writes what was found as an annotation file, with the evidence as comments (docs/INFERENCE.md, "A file of what was
// found").
#![tactic(auto)]

mod comments;
mod entries;
mod evidence;
mod extending;
mod lines;
mod sums;
mod writing;

pub use writing::{Suggested, lines_of_notes, suggestion};
