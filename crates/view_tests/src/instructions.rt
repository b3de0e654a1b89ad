// Lines of tables: the bytes of an instruction, and what is expected of it.

use z80_decode::{Instr, decode};

/// The instruction of a line, which has its bytes as pairs of digits, a colon, and a text; and the text.
pub(crate) fn instr_of(line: &str) -> Option<(Instr, &str)> {
    let (digits, text) = line.split_once(": ")?;
    let mut bytes = [0; 4];
    let mut len = 0usize;
    for pair in digits.split(' ') {
        let value = u8::from_str_radix(pair, 16).ok()?;
        let byte = bytes.get_mut(len)?;
        *byte = value;
        len = len.saturating_add(1);
    }
    match decode(&bytes) {
        Ok((instr, count)) if usize::from(count) == len => Some((instr, text)),
        _ => None,
    }
}
