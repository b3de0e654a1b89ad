// The commands that find annotations, over devices (docs/PROGRAM.md, docs/INFERENCE.md).
#![tactic(auto)]

mod finding;
mod inferring_run;
mod suggesting;

pub use explored_plans::Progress;
pub use finding::infer;
pub use inferring_run::infer_on;
pub use suggesting::{suggest, suggest_on};
