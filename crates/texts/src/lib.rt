// Texts: devices for reading and writing, fields of a line, numbers, and lines that are read or made.
#![tactic(auto)]

mod device;
mod fields;
mod incoming;
mod made;
mod numbers;

pub use device::{DeviceFault, Sink, Source, put};
pub use fields::{Fields, split_once};
pub use incoming::{Incoming, LineEnd, LineFault};
pub use made::MadeLine;
pub use numbers::{
    decimal_between, decimal_field, flag_field, hex2_field, hex4_field, spell_hex2, spell_hex4,
};
