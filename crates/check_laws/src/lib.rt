// The proof from the rules to safety (docs/THEOREM.md): a ROM that the rules accept is safe. Each law is the contract
// of a function with an empty body.
#![tactic(auto)]

mod accepted;
mod bounded;
mod entries;
mod executing;
mod laid_out;
mod landing;
mod owing;
mod paying;
mod returns;

pub use accepted::accepted_is_safe;
pub use bounded::activations_keep_their_time;
pub use laid_out::runs_are_laid_out;
