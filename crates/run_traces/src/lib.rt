// Runs that are watched event by event: their trace, where they end, and the RAM after them (docs/PROGRAM.md,
// "Traces").
#![tactic(auto)]

mod lines;
mod parts;
mod tracing;
mod watching;

pub use parts::{DumpNames, RamParts, dump_names};
pub use watching::{Watching, watch_on};
