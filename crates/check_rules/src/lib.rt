// The rules of acceptance: the table of reasons, and the verdict on a certificate for a ROM (docs/CHECKER.md, "The
// table of reasons").
#![tactic(auto)]

mod examining;
mod instructions;
mod refused;
mod repeated;
mod rows;
mod saved;
mod stack;
mod whole;
mod writes;

pub use examining::{examine, same_verdict};
pub use refused::Refused;
pub use rows::check_row;
pub use whole::{main_depth, nmi_depth, nmi_of, region_fits};
