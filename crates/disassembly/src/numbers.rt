// Numbers in the manual's spelling: hexadecimal digits and `h`, with a 0 before a letter.

use std::fmt;

/// A byte as `0Ah` or `0FFh`.
#[derive(Clone, Copy)]
pub(crate) struct ByteNumber(pub(crate) u8);

/// A word as `4100h` or `0FFE0h`.
#[derive(Clone, Copy)]
pub(crate) struct WordNumber(pub(crate) u16);

impl fmt::Display for ByteNumber {
    fn fmt<W: fmt::Write>(&self, f: &mut fmt::Formatter<W>) -> fmt::Result {
        let byte = self.0;
        let zero = if byte >= 0xA0 { "0" } else { "" };
        write!(f, "{zero}{byte:02X}h")
    }
}

impl fmt::Display for WordNumber {
    fn fmt<W: fmt::Write>(&self, f: &mut fmt::Formatter<W>) -> fmt::Result {
        let word = self.0;
        let zero = if word >= 0xA000 { "0" } else { "" };
        write!(f, "{zero}{word:04X}h")
    }
}
