// Where in a text annotations are at fault, and why: a second look, for standard error (docs/ANNOTATIONS.md, "What is
// refused").
#![tactic(auto)]

mod entries;
mod fault;
mod forms;
mod reading;

pub use fault::{AnnotationPlace, place_of_fault};
