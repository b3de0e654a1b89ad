// Moves about control flow: unrolled loops, first turns, bounds of loops, inline calls (docs/INFERENCE.md, "The
// search").
#![tactic(auto)]

mod counters;
mod inlines;
mod timing;
mod unrolling;

pub use inlines::{try_context, try_inline, try_inline_split};
pub use timing::{with_counters, with_other_bounds};
pub use unrolling::{try_first_turn, try_unroll};
