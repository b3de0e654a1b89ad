// Flag parts as values: a letter and a linear, and the parts of a row. What they say of the machine is in `flag_parts`.
#![tactic(auto)]

mod letter;
mod part;
mod parts;

pub use letter::Letter;
pub use part::FlagPart;
pub use parts::{FlagParts, MOST_PARTS};
