// The lines of a verdict: the table of an accepted certificate, and the lines of refusals (docs/PROGRAM.md).
#![tactic(auto)]

mod escapes;
mod gathering;
mod refusals;
mod table;
mod writer_refusals;

pub use refusals::{bad_line, refused_line};
pub use table::write_table;
pub use writer_refusals::{unbounded_line, write_bad_key, write_recursion};
