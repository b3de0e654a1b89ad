// What the rows of a timed procedure have to pay for, which of them lead to one another, and what turns of loops cost
// (docs/ANALYSIS.md, "Potentials").
#![tactic(auto)]

mod cycles;
mod groups;
mod requests;
mod runs;
mod turns;

pub use cycles::rows_on_cycles;
pub use groups::{Placed, placed_rows};
pub use requests::{Request, Requests, requests_of};
pub use runs::{RowRuns, runs_of};
pub use turns::Turns;
