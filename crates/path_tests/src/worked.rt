// Worked rows: a called procedure, a loop, main, and an NMI routine.

use crate::cases::{Bytes, Wanted, is_told, rom_of, told};
use path_time::TimeFault;
use std::test::Fail;

/// PUSH BC, LD B,3, POP BC and RET at 0008.
pub const CALLED: [u8; 13] = [
    0x31, 0x00, 0x44, 0xCD, 0x08, 0x00, 0x18, 0xFE, 0xC5, 0x06, 0x03, 0xC1, 0xC9,
];

pub const CALLED_TEXT: &str = "galcert 1\n\
    rom 13\n\
    stack 4380 4400\n\
    budget -\n\
    proc main 0000 1 4 -\n\
    proc sub 0008 0 4 38\n\
    row 0 0000 u * * * * * * * * * * - - - -\n\
    row 0 0003 s * * * * * * * * * * - - - -\n\
    row 0 0006 s * * * * * * * * * * - - - -\n\
    row 1 0008 s *@AF *@BC *@DE *@HL *@IX *@IY *@AF' *@BC' *@DE' *@HL' - - - 38\n\
    row 1 0009 s *@AF *@BC *@DE *@HL *@IX *@IY *@AF' *@BC' *@DE' *@HL' - - *@BC 27\n\
    row 1 000B s *@AF 0300-03FF:03-03:00-FF *@DE *@HL *@IX *@IY *@AF' *@BC' *@DE' *@HL' - - *@BC 20\n\
    row 1 000C s *@AF *@BC *@DE *@HL *@IX *@IY *@AF' *@BC' *@DE' *@HL' - - - 10\n\
    end\n";

/// LD B,8, DJNZ to itself and RET at 0008.
pub const LOOP: [u8; 13] = [
    0x31, 0x00, 0x44, 0xCD, 0x08, 0x00, 0x18, 0xFE, 0x06, 0x08, 0x10, 0xFE, 0xC9,
];

pub const LOOP_TEXT: &str = "galcert 1\n\
    rom 13\n\
    stack 4380 4400\n\
    budget -\n\
    proc main 0000 1 2 -\n\
    proc sub 0008 0 2 116\n\
    row 0 0000 u * * * * * * * * * * - - - -\n\
    row 0 0003 s * * * * * * * * * * - - - -\n\
    row 0 0006 s * * * * * * * * * * - - - -\n\
    row 1 0008 s *@AF *@BC *@DE *@HL *@IX *@IY *@AF' *@BC' *@DE' *@HL' - - - 116\n\
    row 1 000A s *@AF 0100-08FF:01-08:00-FF *@DE *@HL *@IX *@IY *@AF' *@BC' *@DE' *@HL' - - - 5+13*B\n\
    row 1 000C s *@AF 0000-00FF:00-00:00-FF *@DE *@HL *@IX *@IY *@AF' *@BC' *@DE' *@HL' - - - 10\n\
    end\n";

/// Main code that enables NMIs, and an NMI routine at 0066 that disables and enables them.
pub const ROUTINE_TEXT: &str = "galcert 1\n\
    rom 114\n\
    stack 4380 4400\n\
    budget 50665\n\
    proc main 0000 0 0 -\n\
    proc nmi 0066 0 4 80\n\
    row 0 0000 u * * * * * * * * * * - - - -\n\
    row 0 0003 s * * * * * * * * * * - - - -\n\
    row 0 0005 s 0100-01FF:01-01:00-FF * * * * * * * * * - - - -\n\
    row 0 0008 n 0100-01FF:01-01:00-FF * * * * * * * * * - - - -\n\
    row 1 0066 n *@AF *@BC *@DE *@HL *@IX *@IY *@AF' *@BC' *@DE' *@HL' - - - 69\n\
    row 1 0067 n *@AF *@BC *@DE *@HL *@IX *@IY *@AF' *@BC' *@DE' *@HL' - - *@AF 58\n\
    row 1 0068 n 0000-00FF:00-00:00-FF *@BC *@DE *@HL *@IX *@IY *@AF' *@BC' *@DE' *@HL' zA - *@AF 54\n\
    row 1 006B n 0000-00FF:00-00:00-FF *@BC *@DE *@HL *@IX *@IY *@AF' *@BC' *@DE' *@HL' zA - *@AF 41\n\
    row 1 006C n 0100-01FF:01-01:00-FF *@BC *@DE *@HL *@IX *@IY *@AF' *@BC' *@DE' *@HL' zA - *@AF 37\n\
    row 1 006F n 0100-01FF:01-01:00-FF *@BC *@DE *@HL *@IX *@IY *@AF' *@BC' *@DE' *@HL' zA - *@AF 24\n\
    row 1 0070 n *@AF *@BC *@DE *@HL *@IX *@IY *@AF' *@BC' *@DE' *@HL' - - - 14\n\
    end\n";

/// PUSH AF, XOR A, LD (7001),A, INC A, LD (7001),A, POP AF and RETN.
pub const ROUTINE: [u8; 12] = [
    0xF5, 0xAF, 0x32, 0x01, 0x70, 0x3C, 0x32, 0x01, 0x70, 0xF1, 0xED, 0x45,
];

/// A ROM, its certificate's text, a procedure, and its longest walk or the fault.
const WALKS: &[(Bytes, &str, u16, Wanted)] = &[
    (
        Bytes::Whole(&CALLED),
        CALLED_TEXT,
        1,
        Ok((38, &[3, 4, 5, 6])),
    ),
    (
        Bytes::Whole(&LOOP),
        LOOP_TEXT,
        1,
        Err(TimeFault::Cycle(0x000A)),
    ),
    (
        Bytes::Routine(&ROUTINE),
        ROUTINE_TEXT,
        1,
        Ok((80, &[4, 5, 6, 7, 8, 9, 10])),
    ),
    // Main has no time
    (
        Bytes::Whole(&CALLED),
        CALLED_TEXT,
        0,
        Err(TimeFault::Untimed),
    ),
    (Bytes::Whole(&LOOP), LOOP_TEXT, 0, Err(TimeFault::Untimed)),
];

#[test]
fn walks(rt: HostRuntime) -> Result<(), Fail> {
    for (rom, text, proc, wanted) in WALKS {
        let rom = rom_of(rt.alloc(), *rom)?;
        let found = told(rt.alloc(), rom.as_slice(), text, *proc)?;
        assert!(rt; is_told(&found, wanted), "procedure {proc} of {text}");
    }
    Ok(())
}
