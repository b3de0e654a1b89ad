// The commands that make, judge, run and migrate certificates, over devices (docs/PROGRAM.md).
#![tactic(auto)]

mod annotating;
mod checking;
mod making;
mod migrating;
mod running;
mod steps;
mod verifying;

pub use annotating::read_annotations;
pub use checking::check_on;
pub use making::make;
pub use migrating::migrate_on;
pub use running::run_on;
pub use steps::steps_of;
pub use verifying::verify_on;
