// The report on an accepted program, a page of HTML (docs/REPORT.md).
#![tactic(auto)]

mod frame;
mod listed;
mod report;
mod states;

pub use report::Report;
pub use report_parts::FileNames;
