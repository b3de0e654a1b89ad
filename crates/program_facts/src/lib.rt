// What an accepted certificate says of its program as a whole: which code runs in main and in the NMI routine, what
// each instruction stores and reads, which side uses which byte of RAM, and the deepest calls.
#![tactic(auto)]

mod accesses;
mod chains;
mod covered;
mod ram;
mod runs;
mod sides;

pub use accesses::{Access, Accesses, WIDE};
pub use chains::{ChainLink, Chains};
pub use ram::{RAMS, RamUse};
pub use runs::{RamRun, RamRuns};
pub use sides::{Side, Sides};
