// The data reads of instructions.

use crate::instructions::instr_of;
use abs_state::Pairs;
use data_reads::data_reads;
use intervals::{Pair, WordRange};
use std::test::Fail;

/// The bytes of an instruction, and its data reads where BC is 4000 to 400F, DE 4100, HL 4200 to 42FF, IX 4300 and IY
/// 0010. The last ones are stores, registers, the stack and ports.
const READS: &str = "\
    7E: 4200-42FF\n\
    0A: 4000-400F\n\
    1A: 4100-4100\n\
    3A 34 12: 1234-1234\n\
    2A 34 12: 1234-1234 1235-1235\n\
    ED 4B FF FF: FFFF-FFFF 0000-0000\n\
    DD 7E 05: 4305-4305\n\
    DD 7E FE: 42FE-42FE\n\
    FD 7E E0: FFF0-FFF0\n\
    86: 4200-42FF\n\
    34: 4200-42FF\n\
    DD 35 01: 4301-4301\n\
    CB 06: 4200-42FF\n\
    CB 46: 4200-42FF\n\
    CB 86: 4200-42FF\n\
    CB C6: 4200-42FF\n\
    ED B0: 4200-42FF\n\
    ED B1: 4200-42FF\n\
    ED 67: 4200-42FF\n\
    77: none\n\
    36 01: none\n\
    32 34 12: none\n\
    22 34 12: none\n\
    78: none\n\
    80: none\n\
    3C: none\n\
    CB 40: none\n\
    E1: none\n\
    E3: none\n\
    C9: none\n\
    DB 12: none\n\
    ED A2: none\n";

/// What is known of the pairs.
fn known() -> Option<Pairs> {
    let mut pairs = Pairs::full();
    pairs.bc = Pair::of_word(WordRange::new(0x4000, 0x400F)?);
    pairs.de = Pair::of_word(WordRange::single(0x4100));
    pairs.hl = Pair::of_word(WordRange::new(0x4200, 0x42FF)?);
    pairs.ix = Pair::of_word(WordRange::single(0x4300));
    pairs.iy = Pair::of_word(WordRange::single(0x0010));
    Some(pairs)
}

#[test]
fn reads(rt: HostRuntime) -> Result<(), Fail> {
    let Some(pairs) = known() else {
        return Err(Fail::new("an empty range"));
    };
    for row in READS.lines() {
        let Some((instr, expected)) = instr_of(row) else {
            return Err(Fail::new("no instruction"));
        };
        let text = match data_reads(&instr, &pairs) {
            [None, _] => String::from_str(rt.alloc(), "none")?,
            [Some(one), None] => { format!(in rt.alloc(); "{:04X}-{:04X}", one.low(), one.high())? }
            [Some(one), Some(other)] => {
                let first = format!(in rt.alloc(); "{:04X}-{:04X}", one.low(), one.high())?;
                format!(in rt.alloc(); "{first} {:04X}-{:04X}", other.low(), other.high())?
            }
        };
        assert!(rt; text.as_str() == expected, "{text} for {row}");
    }
    Ok(())
}
