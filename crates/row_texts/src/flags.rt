// What the flags say.

use abs_state::{FlagFact, covers_fact};
use std::alloc::{AllocError, Global};
use z80_decode::Register8;

/// The text of a flag fact: `Z: A=0` or `A compared with 05`.
pub fn flag_text(alloc: Global, fact: FlagFact) -> Result<String, AllocError> {
    match fact {
        FlagFact::Zero(register) => format!(in alloc; "Z: {}=0", register_letter(register)),
        FlagFact::Compared(byte) => format!(in alloc; "A compared with {byte:02X}"),
    }
}

fn register_letter(register: Register8) -> &'static str {
    match register {
        Register8::A => "A",
        Register8::B => "B",
        Register8::C => "C",
        Register8::D => "D",
        Register8::E => "E",
        Register8::H => "H",
        Register8::L => "L",
    }
}

/// The flag fact of two rows: theirs if it is the same, else none.
pub fn shared_flag(one: Option<FlagFact>, other: Option<FlagFact>) -> Option<FlagFact> {
    if covers_fact(one, other) { one } else { None }
}
