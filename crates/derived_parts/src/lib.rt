// Flag parts that a search finds: those that hold after a step, what each follows from, and which of them narrow. No
// theorem rests on them: the checker judges each part that a certificate says.
#![tactic(auto)]

mod choosing;
mod combination;
mod derived;
mod found;
mod grounds;
mod images;
mod words;

pub use choosing::{carry_part, common_parts, narrowing_part};
pub use combination::negated;
pub use derived::{linear_before, parts_after};
pub use grounds::{PartGround, PartStep, fact_ground_of, ground_of};
