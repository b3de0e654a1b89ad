// What a certificate says about an address, and which rows cover an arriving state (docs/CHECKER.md, "Covering").
#![tactic(auto)]

mod alike;
mod arrival;
mod by_value;
mod claims;
mod covering;
mod index;
mod knowing;
mod program;
mod rows;
mod searching;
mod work;

pub use arrival::{Arrival, Refinement};
pub use claims::{are_same, have_same_claims};
pub use covering::Coverer;
pub use index::many_from;
pub use program::{Callee, callee_at, is_inline, split_at};
pub use work::{for_each_value, work_of_row};
