// Rows that were judged: kept for other analyses of the same ROM, and the states that they send to other rows.
#![tactic(auto)]

mod judged_rows;
mod sent;

pub use judged_rows::JudgedRows;
pub use sent::{Arriving, ArrivingKind, Sent, SentState};
