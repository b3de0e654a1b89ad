// The abstract draft within an instruction, and the transfer functions of moves (docs/CHECKER.md, "The abstract step").
#![tactic(auto)]

mod data_write;
mod draft;
mod ground;
mod moving;
mod results;
mod testing;

pub use data_write::DataWrite;
pub use draft::AbsDraft;
pub use ground::Ground;
pub use testing::{Tested, settled};
