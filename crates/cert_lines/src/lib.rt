// The lines of a certificate: what each says, how it is read from its text, and how it is spelled
// (docs/CERTIFICATE.md).
#![tactic(auto)]

mod line;
mod proc;
mod reading;
mod row;
mod row_reading;
mod spelling;
mod split;
mod version;

pub use line::Line;
pub use proc::{GREATEST_TIME, Proc, ProcKind};
pub use reading::ReadLine;
pub use row::{Row, RowPlace, RowRef};
pub use spelling::{
    board_line, budget_line, cell_line, end_line, header_line, inline_line, proc_line, rom_line,
    row_line, split_line, stack_line,
};
pub use split::Split;
pub use version::{BoardMap, Version, WORK_LEN};
