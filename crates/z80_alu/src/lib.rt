// The registers, the arithmetic and the flags of the Z80 (Zilog UM0080).
//
// Every operation is total. `f` is the byte F before the operation. `noise` is any byte: bit k of it is bit k of F
// wherever the manual leaves that flag undefined (docs/INSTRUCTIONS.md, "Flags").
#![tactic(auto)]

mod add;
mod bits;
mod block;
mod digits;
mod flags;
mod load;
mod logic;
mod regs;
mod rotate;
mod shift;
mod word;
mod words;

pub use add::{add8, dec8, inc8, sub8};
pub use bits::{reset_bit, set_bit, test_bit};
pub use block::{block_compare_flags, block_load_flags};
pub use digits::{daa, rld, rrd};
pub use flags::Flags;
pub use load::load_a_flags;
pub use logic::{and8, ccf, cpl, or8, scf, xor8};
pub use regs::{RegisterSet, Regs};
pub use rotate::{rla, rlca, rra, rrca, shift8};
pub use shift::Shift;
pub use word::Word;
pub use words::{adc16, add16, dec16, inc16, sbc16};
