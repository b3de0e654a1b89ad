// Splits.

use call_graph::ProcId;
use z80_decode::Register8;

/// A split: at this address of a procedure, states are distinguished by the value of a register.
#[derive(Clone, Copy)]
pub struct Split {
    /// The number of the procedure, from 0.
    pub proc: ProcId,
    pub address: u16,
    pub register: Register8,
}
