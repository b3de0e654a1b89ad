// The lines of a run that report NMI routines (docs/PROGRAM.md, "A run's lines"), and which event has one.
#![tactic(auto)]

mod fields;
mod lines;
mod teller;

pub use fields::{add_decimal_field, add_hex4_field};
pub use lines::{acceptance_line, put_note, return_line};
pub use teller::{Moment, Note, Teller, has_returned};
