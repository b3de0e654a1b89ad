// Tables of a certificate that are made once, before its rows are judged: what the exits of each procedure leave, and
// the greatest potential at an address (docs/CHECKER.md, "How long judging takes").
#![tactic(auto)]

mod exits;
mod gathering;
mod left;
mod tables;
mod tops;
mod widening;

pub use exits::exit_of;
pub use gathering::ProcExits;
pub use left::Left;
pub use tables::Tables;
