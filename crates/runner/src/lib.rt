// The runner: a machine that runs accepted ROMs without a test for a trap, and plays of an input (docs/PROGRAM.md).
#![tactic(auto)]

mod fault;
mod input;
mod machine;
mod output;
mod player;
mod playing;

pub use cert_checker;
pub use fault::PlayFault;
pub use input::{EnvLine, ResetLine};
pub use machine::{Machine, Summary};
pub use output::summary_lines;
pub use playing::play;
