// Drafts: what an event does to the registers, with its data writes and stack accesses, before any of it reaches the
// board (docs/BOARD.md, "Step"). Of the board a draft knows only what reads find.
#![tactic(auto)]

mod access;
mod bus;
mod draft;
mod ranges;

pub use access::{StackAccess, Write};
pub use bus::Bus;
pub use draft::{Draft, displace};
pub use ranges::{regs_are_in_range, set_is_in_range};
