// What is known of the words that an activation has on the stack (docs/SHAPES.md).
#![tactic(auto)]

mod fault;
mod shape;
mod slot;

pub use fault::ShapeFault;
pub use shape::{SLOTS, Shape};
pub use slot::Slot;
