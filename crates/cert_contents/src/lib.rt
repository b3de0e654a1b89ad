// A certificate's value (docs/CERTIFICATE.md): its fields, how it is made of lines or of parts, the bounds that can be
// set, and migration to a later version.
#![tactic(auto)]

mod bounds;
mod fields;
mod migrating;
mod parts;
mod places;
mod reader;
mod taking;
mod value;

pub use migrating::{migrate, migrate_to};
pub use parts::Parts;
pub use reader::Reader;
pub use value::{Certificate, RowId};
