// The T-states of each instruction of the Z80 (Zilog UM0080) and of a frame of the board, and which instructions use a
// port.
#![tactic(auto)]

mod costs;
mod frame;
mod io;

pub use costs::{cost, cost_range};
pub use frame::{FRAME, IDLE_COST, MAX_BUDGET, NMI_COST, fixed_numbers};
pub use io::is_io;
