// Rows of an inferring analysis (docs/INFERENCE.md): their contexts, the linear relations beside their ranges, and how
// bounds are widened.
#![tactic(auto)]

mod bounds;
mod context_point;
mod growing;
mod guide;
mod held;
mod inferred;
mod operands;
mod thresholds;

pub use context_point::{CLASSES, CONTEXT_LIMIT, ContextPoint};
pub use guide::{Guide, Manner};
pub use inferred::{
    ArrivingParts, InferredRow, JoinOutcome, NO_ROW, Tightening, are_joined, speaks_of,
};
pub use operands::pointer_of;
pub use thresholds::Thresholds;
