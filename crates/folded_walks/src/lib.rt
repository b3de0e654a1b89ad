// Where the T-states of a procedure go: its dearest way, folded by calls and by turns (docs/LONGEST.md).
#![tactic(auto)]

mod folding;
mod items;
mod made;
mod names;
mod rows;
mod totals;
mod writing;

pub use folding::Segment;
pub use items::{Item, ItemKind, LoopItem, ProcWalk};
pub use names::{address_text, item_text, proc_named};
pub use totals::{Total, Walks};
pub use writing::WalkText;
