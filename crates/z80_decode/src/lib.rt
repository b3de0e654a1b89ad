// The documented instructions of the Z80 (Zilog UM0080), their spellings, and the decoder.
#![tactic(auto)]

mod cb_page;
mod decoding;
mod ed_page;
mod fault;
mod fields;
mod index_page;
mod instr;
mod kinds;
mod operands;
mod spelling;
mod unprefixed_page;

pub use decoding::decode;
pub use fault::DecodeFault;
pub use instr::Instr;
pub use kinds::{
    AccumulatorRotate, ArithmeticKind, Bit, BlockKind, Condition, MaskableMode, RestartAddress,
    ShiftKind, ShortCondition,
};
pub use operands::{
    Address, Direct, Index, IndexPair, Memory, Operand, OperandPair, Place, Pointer, Register8,
    Register16, Special, StackPair,
};
pub use spelling::one_spelling;
