// What the rows at an address know, as short texts: ranges of registers, facts, and what the flags say.
#![tactic(auto)]

mod flags;
mod hulls;
mod linears;
mod parts;
mod ranges;
mod used;

pub use flags::{flag_text, shared_flag};
pub use hulls::pair_hull;
pub use linears::{fact_text, linear_text, variable_text};
pub use parts::part_text;
pub use ranges::{add_pair_texts, add_used_texts};
pub use used::{Used, UsedRegisters, used_by};
