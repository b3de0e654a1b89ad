// The FLAG field of a row: a flag fact in versions 1 and 2, flag parts in version 3. How it is read from its text, and
// how it is spelled (docs/CERTIFICATE.md, "Rows" and "Flag parts").
#![tactic(auto)]

mod fact_parts;
mod flags;
mod form;
mod letter;
mod parts;
mod parts_values;
mod spelling;

pub use fact_parts::parts_of_fact;
pub use flags::{RowFlags, flags_are_in_form, flags_field};
pub use form::FlagForm;
pub use parts::parts_field;
pub use parts_values::{are_parts, parts_stay_within};
pub use spelling::{add_flags, add_parts};
