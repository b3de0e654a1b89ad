// The search for annotations (docs/INFERENCE.md, "The search"): moves that take refusals away, each tried by an
// analysis.
#![tactic(auto)]

mod inference;
mod judged;
mod plain;
mod search;

pub use inference::{Inference, inferred};
pub use judged::Judged;
pub use plain::{PlainRows, plain_annotations, without_fact};
pub use search::helping_at;
