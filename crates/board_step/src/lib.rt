// The machine of docs/BOARD.md, one event at a time. The specs define an event, a run and safety.
#![tactic(auto)]

mod board;
mod context;
mod env;
mod event;
mod profile;
mod step;
mod trap;

pub use board::{Board, Reset};
pub use env::{Env, Inputs};
pub use event::{Event, Kind};
pub use profile::{Profile, Trap};
pub use z80_actions::{Costs, Known, may_return};
pub use z80_draft::{StackAccess, Write, displace, regs_are_in_range, set_is_in_range};
pub use z80_moves::{
    ByteRegister, Move, Moves, Test, WordRegister, moves_for, moves_of_acceptance,
};
