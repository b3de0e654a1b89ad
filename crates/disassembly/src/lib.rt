// Instructions in the manual's spelling (UM0080), with the number that a label may stand for kept apart.
#![tactic(auto)]

mod instructions;
mod names;
mod numbers;
mod reference;
mod shared;
mod text;

pub use instructions::spelled;
pub use reference::{Reference, reference_of};
pub use shared::{DefinedBytes, defined_bytes, shares_text};
pub use text::InstrText;
