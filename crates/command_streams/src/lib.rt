// The streams of a command: sinks, also in color or watched, and devices with a meter (docs/PROGRAM.md).
#![tactic(auto)]

mod captured;
mod colored;
mod metered;
mod printed;
mod watched;

pub use captured::Captured;
pub use colored::ColoredLines;
pub use metered::{Meter, MeteredSink, MeteredSource};
pub use printed::Printed;
pub use watched::Watched;
