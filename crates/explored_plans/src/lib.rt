// What an analysis that explores a plan shows, and the state of a search (docs/INFERENCE.md, "The search").
#![tactic(auto)]

mod explored_plan;
mod progress;
mod reads;
mod search_context;
mod trials;
mod values;

pub use explored_plan::{ExploredPlan, OF_CONTEXTS, OF_RANGES, Refusals, exploring};
pub use plans::{Base, Family, Finding, Plan, copy_of_split, split_of};
pub use progress::Progress;
pub use reads::read_by;
pub use search_context::SearchContext;
pub use trials::{Attempt, Search, SetAside, entry_of};
pub use values::{ByteSet, PARTS, REGISTERS, code_of, cut, register_of, values_in, variable_of};
