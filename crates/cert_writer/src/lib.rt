// The writer: a certificate for a ROM, from what the analysis finds and what the annotations say (docs/ANALYSIS.md).
#![tactic(auto)]

mod analysing;
mod bounding;
mod calls;
mod fault;
mod layout;
mod parts;
mod times;

pub use analysing::{analyse, certify, certify_flow};
pub use fault::WriterFault;
