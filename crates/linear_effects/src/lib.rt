// Linear effects: the variable that an instruction makes a linear of the variables before it (docs/CHECKER.md, "Linear
// effects").
#![tactic(auto)]

mod bits;
mod byte_effects;
mod carried;
mod effects;
mod variable_effect;
mod windows;
mod word_effects;

pub use carried::carried_range;
pub use effects::linear_effect;
pub use variable_effect::LinearEffect;
