// A whole certificate of each version: what it says, the order of its lines, that its text determines it, and the
// list of its rows (docs/CERTIFICATE.md).
#![tactic(auto)]

mod fault;
mod following;
mod laws;
mod limits;
mod migrated;
mod rows;
mod shape_numbers;
mod shapes;
mod stage;
mod stored_parts;

pub use fault::CertFault;
pub use following::{
    cell_may_follow, inline_may_follow, is_cell, place_may_follow, proc_may_follow,
    split_may_follow,
};
pub use laws::{lines_read_begin_a_certificate, other_lines_begin_none, texts_tell_certificates};
pub use limits::{
    CELL_LIMIT, INLINE_LIMIT, PROC_LIMIT, ROW_LIMIT, SPLIT_LIMIT, limits_of_a_certificate,
};
pub use migrated::migrated_version;
pub use rows::{NumberedRow, Rows, place_number};
pub use shape_numbers::ShapeNumbers;
pub use stage::Stage;
