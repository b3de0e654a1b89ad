// Affine spaces: the linear equalities between the registers and the stack slots of a row.
#![tactic(auto)]

mod equalities;
mod joining;
mod linear_steps;
mod relations;
mod space;
mod spans;
mod steps;

pub use equalities::GREATEST_FACTOR;
pub use relations::{MOST_RELATIONS, Relations};
pub use space::{DIRECTIONS, GREATEST_COORDINATE, Space};
