// What a programmer says about a ROM, in TOML (docs/ANNOTATIONS.md).
#![tactic(auto)]

mod annotations;
mod fault;
mod given;
mod given_lists;
mod lists;
mod notes;
mod tables;
mod values;

pub use annotations::Annotations;
pub use fault::AnnotationFault;
pub use given::Given;
pub use notes::{FactNote, LoopNote, Notes, RangeNote, SplitNote, TurnNote};
