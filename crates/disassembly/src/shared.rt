// The two codes whose text assembles to another code.

use crate::numbers::ByteNumber;
use std::fmt;
use z80_decode::{Direct, Instr, Register16};

/// Whether the text of an instruction is also that of a shorter code, to which assemblers assemble it: ED 63 nn has the
/// text of 22 nn, and ED 6B nn that of 2A nn.
pub fn shares_text(instr: &Instr) -> bool {
    matches!(
        instr,
        Instr::LoadPairDirect(Direct::Pair(Register16::Hl), _)
            | Instr::StorePairDirect(Direct::Pair(Register16::Hl), _)
    )
}

/// Bytes as a directive of assemblers: `DEFB 0EDh,63h,10h,40h`.
#[derive(Clone, Copy)]
pub struct DefinedBytes<'a> {
    bytes: &'a [u8],
}

/// These bytes as a directive.
pub fn defined_bytes(bytes: &[u8]) -> DefinedBytes<'_> {
    DefinedBytes { bytes }
}

impl fmt::Display for DefinedBytes<'_> {
    fn fmt<W: fmt::Write>(&self, f: &mut fmt::Formatter<W>) -> fmt::Result {
        let mut before = "DEFB ";
        for byte in self.bytes {
            write!(f, "{before}{}", ByteNumber(*byte))?;
            before = ",";
        }
        Ok(())
    }
}
