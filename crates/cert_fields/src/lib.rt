// The fields of a certificate's lines: how each is read from its text, and how it is spelled (docs/CERTIFICATE.md).
#![tactic(auto)]

mod counted;
mod facts;
mod flag;
mod linear;
mod linear_spelling;
mod linear_values;
mod list_spelling;
mod names;
mod pair;
mod pair_spelling;
mod row_values;
mod shape;
mod slot_number;
mod term;
mod variable;

pub use counted::Counted;
pub use facts::{Facts, facts_field};
pub use flag::flag_fact_field;
pub use linear::{linear_field, potential_field};
pub use linear_spelling::{add_linear, add_potential};
pub use linear_values::{is_below, is_linear, stays_within};
pub use list_spelling::{add_facts, add_flag_fact, add_mode, add_register, add_shape};
pub use names::{mode_field, register_field};
pub use pair::pair_field;
pub use pair_spelling::add_pair;
pub use row_values::{are_facts, facts_stay_within, is_pair, is_shape};
pub use shape::{ReadShape, shape_field};
pub use variable::variable_field;
