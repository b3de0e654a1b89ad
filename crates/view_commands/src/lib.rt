// The commands that show accepted programs, over devices (docs/PROGRAM.md): `list`, `longest`, `report` and `diff`.
#![tactic(auto)]

mod changes;
mod diffing;
mod documents;
mod showing;
mod viewing;

pub use changes::EntryNames;
pub use diffing::diff_on;
pub use report::FileNames;
pub use viewing::{list_on, longest_on, report_on};
