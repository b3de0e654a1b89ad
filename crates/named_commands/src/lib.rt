// `check` and `suggest` over devices, with names for addresses. They take names in annotations, and notes of the source
// (docs/PROGRAM.md, "Names for addresses").
#![tactic(auto)]

mod bytes_source;
mod checking_named;
mod suggesting_named;

pub use checking_named::{NamedCheck, check_named_on};
pub use suggesting_named::suggest_named_on;
