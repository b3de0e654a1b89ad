// Moves about values: splits of a register's range, and kept cells (docs/INFERENCE.md, "The search").
#![tactic(auto)]

mod cells;
mod parts;
mod splits;

pub use cells::try_cells;
pub use parts::try_parts;
pub use splits::{Splitting, singles, try_join, try_lookup, with_split};
