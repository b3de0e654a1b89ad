// Each instruction as a short list of moves (micro-operations) of few kinds (docs/INSTRUCTIONS.md, "Moves"). The
// machine executes these lists, and the abstract step follows them.
#![tactic(auto)]

mod arithmetic_moves;
mod block_moves;
mod flow_moves;
mod load_moves;
mod moves;
mod operands;
mod registers;
mod table;

pub use moves::{Move, Moves, Test};
pub use operands::{byte_register, index_register, word_register};
pub use registers::{ByteRegister, WordRegister};
pub use table::{NMI_ADDRESS, moves_for, moves_of_acceptance};
