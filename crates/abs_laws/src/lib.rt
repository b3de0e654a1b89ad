// Soundness of the abstract draft (docs/CHECKER.md, "The abstract step"): for each kind of move, what is known after
// the abstract move describes the draft after the machine's move. Each law is the contract of a function with an empty
// body.
#![tactic(auto)]

mod data_writes;
mod moves;
mod outcomes;
mod rows;
mod stack;

pub use data_writes::{
    cells_hold_after_writes, clear_enables_stay, modes_hold_after_writes, writes_are_as_known,
};
pub use moves::{access_free_moves_fit, constants_are_in_range};
pub use outcomes::{
    instructions_are_short, lists_fit, lists_go_by_their_test, settled_effects_follow, tests_fit,
    ways_fit,
};
pub use rows::{first_known_fits, reads_fit};
pub use stack::{exchanges_fit, pops_fit, pushes_fit};
