// Abstract states: what is known of the machine at an instruction of one procedure, how it changes, and when it holds
// (docs/CHECKER.md, "What a row knows").
#![tactic(auto)]

mod cell;
mod covering;
mod entries;
mod exchanges;
mod fact;
mod mode;
mod pairs;
mod registers;
mod restricting;
mod stack;
mod state;
mod variables;

pub use cell::KeptCell;
pub use covering::keeps_slots;
pub use fact::{FlagFact, covers_fact};
pub use mode::Mode;
pub use pairs::Pairs;
pub use state::AbsState;
