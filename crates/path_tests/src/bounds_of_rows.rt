// Potentials, compared with those worked out by hand.

use crate::cases::{Bytes, rom_of};
use crate::worked::{CALLED, CALLED_TEXT, LOOP, LOOP_TEXT, ROUTINE, ROUTINE_TEXT};
use address_map::Rom;
use annotations::LoopNote;
use certificate::{Certificate, read};
use loop_bounds::{Linear, Term, Variable};
use path_time::{Nesting, PotentialFault, potentials};
use std::alloc::{AllocError, Global};
use std::test::Fail;

/// LD B,0, DJNZ to itself and RET at 0008, with a split that separates B = 0.
const SPLIT: [u8; 13] = [
    0x31, 0x00, 0x44, 0xCD, 0x08, 0x00, 0x18, 0xFE, 0x06, 0x00, 0x10, 0xFE, 0xC9,
];

const SPLIT_TEXT: &str = "galcert 1\n\
    rom 13\n\
    stack 4380 4400\n\
    budget -\n\
    proc main 0000 1 2 -\n\
    proc sub 0008 0 2 3340\n\
    split 1 000A B\n\
    row 0 0000 u * * * * * * * * * * - - - -\n\
    row 0 0003 s * * * * * * * * * * - - - -\n\
    row 0 0006 s * * * * * * * * * * - - - -\n\
    row 1 0008 s *@AF *@BC *@DE *@HL *@IX *@IY *@AF' *@BC' *@DE' *@HL' - - - -\n\
    row 1 000A s *@AF 0000-00FF:00-00:00-FF *@DE *@HL *@IX *@IY *@AF' *@BC' *@DE' *@HL' - - - -\n\
    row 1 000A s *@AF 0100-FFFF:01-FF:00-FF *@DE *@HL *@IX *@IY *@AF' *@BC' *@DE' *@HL' - - - -\n\
    row 1 000C s *@AF 0000-00FF:00-00:00-FF *@DE *@HL *@IX *@IY *@AF' *@BC' *@DE' *@HL' - - - -\n\
    end\n";

/// PUSH BC, LD B,10, two NOPs, DJNZ to the first of them, POP BC and RET.
const NOPS: [u8; 9] = [0xC5, 0x06, 0x0A, 0x00, 0x00, 0x10, 0xFC, 0xC1, 0xC9];

const NOPS_TEXT: &str = "galcert 1\n\
    rom 111\n\
    stack 4380 4400\n\
    budget 50665\n\
    proc main 0000 0 0 -\n\
    proc nmi 0066 0 4 254\n\
    row 0 0000 u * * * * * * * * * * - - - -\n\
    row 0 0003 s * * * * * * * * * * - - - -\n\
    row 0 0005 s 0100-01FF:01-01:00-FF * * * * * * * * * - - - -\n\
    row 0 0008 n 0100-01FF:01-01:00-FF * * * * * * * * * - - - -\n\
    row 1 0066 n *@AF *@BC *@DE *@HL *@IX *@IY *@AF' *@BC' *@DE' *@HL' - - - -\n\
    row 1 0067 n *@AF *@BC *@DE *@HL *@IX *@IY *@AF' *@BC' *@DE' *@HL' - - *@BC -\n\
    row 1 0069 n *@AF 0100-0AFF:01-0A:00-FF *@DE *@HL *@IX *@IY *@AF' *@BC' *@DE' *@HL' - - *@BC -\n\
    row 1 006A n *@AF 0100-0AFF:01-0A:00-FF *@DE *@HL *@IX *@IY *@AF' *@BC' *@DE' *@HL' - - *@BC -\n\
    row 1 006B n *@AF 0100-0AFF:01-0A:00-FF *@DE *@HL *@IX *@IY *@AF' *@BC' *@DE' *@HL' - - *@BC -\n\
    row 1 006D n *@AF 0000-00FF:00-00:00-FF *@DE *@HL *@IX *@IY *@AF' *@BC' *@DE' *@HL' - - *@BC -\n\
    row 1 006E n *@AF *@BC *@DE *@HL *@IX *@IY *@AF' *@BC' *@DE' *@HL' - - - -\n\
    end\n";

/// PUSH AF; PUSH BC; B = (6000h) AND 7, plus 1; JR C to a NOP, ADD A,B and DJNZ back to the NOP; otherwise DJNZ to
/// itself and JR on; then POP BC, POP AF, RET.
const BRANCHES: [u8; 22] = [
    0xF5, 0xC5, 0x3A, 0x00, 0x60, 0xE6, 0x07, 0x3C, 0x47, 0x38, 0x04, 0x10, 0xFE, 0x18, 0x04, 0x00,
    0x80, 0x10, 0xFD, 0xC1, 0xF1, 0xC9,
];

/// The rows from the JR C on.
const BRANCHES_TEXT: &str = "galcert 1\n\
    rom 124\n\
    stack 4380 4400\n\
    budget 50665\n\
    proc main 0000 0 0 -\n\
    proc nmi 0066 0 6 238\n\
    row 1 006F n 0100-08FF:01-08:00-FF 0100-08FF:01-08:00-FF *@DE *@HL *@IX *@IY *@AF' *@BC' *@DE' *@HL' zA - *@AF,*@BC -\n\
    row 1 0071 n 0100-08FF:01-08:00-FF 0100-08FF:01-08:00-FF *@DE *@HL *@IX *@IY *@AF' *@BC' *@DE' *@HL' zA - *@AF,*@BC -\n\
    row 1 0073 n 0100-08FF:01-08:00-FF 0000-00FF:00-00:00-FF *@DE *@HL *@IX *@IY *@AF' *@BC' *@DE' *@HL' zA - *@AF,*@BC -\n\
    row 1 0075 n 0100-08FF:01-08:00-FF 0100-08FF:01-08:00-FF *@DE *@HL *@IX *@IY *@AF' *@BC' *@DE' *@HL' zA - *@AF,*@BC -\n\
    row 1 0076 n * 0100-08FF:01-08:00-FF *@DE *@HL *@IX *@IY *@AF' *@BC' *@DE' *@HL' zA - *@AF,*@BC -\n\
    row 1 0077 n * 0100-08FF:01-08:00-FF *@DE *@HL *@IX *@IY *@AF' *@BC' *@DE' *@HL' zA - *@AF,*@BC -\n\
    row 1 0079 n * 0000-00FF:00-00:00-FF *@DE *@HL *@IX *@IY *@AF' *@BC' *@DE' *@HL' zA - *@AF,*@BC -\n\
    row 1 007A n * *@BC *@DE *@HL *@IX *@IY *@AF' *@BC' *@DE' *@HL' zA - *@AF -\n\
    row 1 007B n *@AF *@BC *@DE *@HL *@IX *@IY *@AF' *@BC' *@DE' *@HL' - - - -\n\
    end\n";

/// PUSH AF, PUSH BC, LD C,7, DEC C, JR NZ back to it, POP BC, POP AF and RET.
const COUNTED: [u8; 10] = [0xF5, 0xC5, 0x0E, 0x07, 0x0D, 0x20, 0xFD, 0xC1, 0xF1, 0xC9];

const COUNTED_TEXT: &str = "galcert 1\n\
    rom 112\n\
    stack 4380 4400\n\
    budget 50665\n\
    proc main 0000 0 0 -\n\
    proc nmi 0066 0 6 177\n\
    row 0 0000 u * * * * * * * * * * - - - -\n\
    row 0 0003 s * * * * * * * * * * - - - -\n\
    row 0 0005 s 0100-01FF:01-01:00-FF * * * * * * * * * - - - -\n\
    row 0 0008 n 0100-01FF:01-01:00-FF * * * * * * * * * - - - -\n\
    row 1 0066 n *@AF *@BC *@DE *@HL *@IX *@IY *@AF' *@BC' *@DE' *@HL' - - - -\n\
    row 1 0067 n *@AF *@BC *@DE *@HL *@IX *@IY *@AF' *@BC' *@DE' *@HL' - - *@AF -\n\
    row 1 0068 n *@AF *@BC *@DE *@HL *@IX *@IY *@AF' *@BC' *@DE' *@HL' - - *@AF,*@BC -\n\
    row 1 006A n * 0001-FF07:00-FF:01-07 *@DE *@HL *@IX *@IY *@AF' *@BC' *@DE' *@HL' - - *@AF,*@BC -\n\
    row 1 006B n * 0000-FF06:00-FF:00-06 *@DE *@HL *@IX *@IY *@AF' *@BC' *@DE' *@HL' zC - *@AF,*@BC -\n\
    row 1 006D n * 0000-FF00:00-FF:00-00 *@DE *@HL *@IX *@IY *@AF' *@BC' *@DE' *@HL' zC - *@AF,*@BC -\n\
    row 1 006E n * *@BC *@DE *@HL *@IX *@IY *@AF' *@BC' *@DE' *@HL' - - *@AF -\n\
    row 1 006F n *@AF *@BC *@DE *@HL *@IX *@IY *@AF' *@BC' *@DE' *@HL' - - - -\n\
    end\n";

/// The counter of a loop.
#[derive(Clone, Copy)]
enum Counter {
    B,
    C,
}

impl Counter {
    fn variable(self) -> Variable {
        match self {
            Counter::B => Variable::B,
            Counter::C => Variable::C,
        }
    }
}

/// The expected answer: for each row the constant, and the coefficient of the counter.
type Wanted = Result<&'static [(i32, i32)], PotentialFault>;

/// A ROM, its certificate's text, the addresses of loops, their counter, and the potentials of procedure 1 or the
/// fault.
const POTENTIALS: &[(Bytes, &str, &[u16], Counter, Wanted)] = &[
    // Without loops
    (
        Bytes::Whole(&CALLED),
        CALLED_TEXT,
        &[],
        Counter::B,
        Ok(&[(38, 0), (27, 0), (20, 0), (10, 0)]),
    ),
    (
        Bytes::Routine(&ROUTINE),
        ROUTINE_TEXT,
        &[],
        Counter::B,
        Ok(&[
            (69, 0),
            (58, 0),
            (54, 0),
            (41, 0),
            (37, 0),
            (24, 0),
            (14, 0),
        ]),
    ),
    // A loop of one row
    (
        Bytes::Whole(&LOOP),
        LOOP_TEXT,
        &[0x000A],
        Counter::B,
        Ok(&[(116, 0), (5, 13), (10, 0)]),
    ),
    (
        Bytes::Whole(&LOOP),
        LOOP_TEXT,
        &[],
        Counter::B,
        Err(PotentialFault::Unbounded(0x000A)),
    ),
    // A loop with a split
    (
        Bytes::Whole(&SPLIT),
        SPLIT_TEXT,
        &[0x000A],
        Counter::B,
        Ok(&[(3340, 0), (3333, 0), (5, 13), (10, 0)]),
    ),
    // A loop of three rows
    (
        Bytes::Routine(&NOPS),
        NOPS_TEXT,
        &[0x0069],
        Counter::B,
        Ok(&[
            (243, 0),
            (232, 0),
            (15, 21),
            (11, 21),
            (7, 21),
            (20, 0),
            (10, 0),
        ]),
    ),
    (
        Bytes::Routine(&NOPS),
        NOPS_TEXT,
        &[0x006B],
        Counter::B,
        Ok(&[
            (243, 0),
            (232, 0),
            (15, 21),
            (11, 21),
            (7, 21),
            (20, 0),
            (10, 0),
        ]),
    ),
    // At the JR C 177, 73 + 13 * B and 41 + 17 * B pay, each with the greatest value 177; the last has the least least
    // value
    (
        Bytes::Routine(&BRANCHES),
        BRANCHES_TEXT,
        &[0x0071, 0x0077],
        Counter::B,
        Ok(&[
            (41, 17),
            (37, 13),
            (42, 0),
            (29, 17),
            (25, 17),
            (21, 17),
            (30, 0),
            (20, 0),
            (10, 0),
        ]),
    ),
    // A loop whose counter falls before its end
    (
        Bytes::Routine(&COUNTED),
        COUNTED_TEXT,
        &[0x006A],
        Counter::C,
        Ok(&[
            (166, 0),
            (155, 0),
            (144, 0),
            (25, 16),
            (37, 16),
            (30, 0),
            (20, 0),
            (10, 0),
        ]),
    ),
];

/// Whether these are the expected potentials: for each a constant, and the coefficient of the counter.
pub fn are(found: &[Linear], counter: Variable, wanted: &[(i32, i32)]) -> bool {
    found.len() == wanted.len()
        && found.iter().zip(wanted).all(|(linear, (constant, coefficient))| {
            linear.constant() == *constant && counts(linear, counter, *coefficient)
        })
}

/// Whether a linear has just this multiple of a variable, or no terms if that is 0.
fn counts(linear: &Linear, variable: Variable, coefficient: i32) -> bool {
    match linear.terms() {
        [] => coefficient == 0,
        [term] => {
            *term
                == Term {
                    coefficient,
                    variable,
                }
        }
        _ => false,
    }
}

/// Whether the answer is the expected one.
fn is_wanted(
    told: &Result<Vec<Linear>, PotentialFault>,
    counter: Counter,
    wanted: &Wanted,
) -> bool {
    match (told, wanted) {
        (Ok(found), Ok(potentials)) => are(found, counter.variable(), potentials),
        (Err(found), Err(fault)) => *found == *fault,
        _ => false,
    }
}

/// Notes of loops at these addresses.
fn notes_of(alloc: Global, loops: &[u16], counter: Counter) -> Result<Vec<LoopNote>, AllocError> {
    let mut notes = Vec::new(alloc);
    for at in loops {
        notes.push(LoopNote {
            at: *at,
            counter: counter.variable(),
            rises: false,
        })?;
    }
    Ok(notes)
}

/// The times of a certificate's procedures.
fn times_of(alloc: Global, certificate: &Certificate) -> Result<Vec<u32>, AllocError> {
    let mut times = Vec::new(alloc);
    for proc in certificate.procs() {
        times.push(proc.time.unwrap_or(0))?;
    }
    Ok(times)
}

/// The potentials of procedure 1 by a certificate's text for a ROM, with the certificate's times, or the fault.
fn told(
    alloc: Global,
    rom: &[u8],
    text: &str,
    loops: &[LoopNote],
) -> Result<Result<Vec<Linear>, PotentialFault>, Fail> {
    let certificate = read(alloc, text.as_bytes())?;
    let times = times_of(alloc, &certificate)?;
    match Rom::of(rom) {
        Some(rom) if certificate.rom_len() == rom.len() => {
            Ok(potentials(alloc, &rom, &certificate, 1, &times, loops, Nesting::Apart))
        }
        _ => Err(Fail::new("a certificate of another ROM")),
    }
}

#[test]
fn of_procedures(rt: HostRuntime) -> Result<(), Fail> {
    for (rom, text, loops, counter, wanted) in POTENTIALS {
        let rom = rom_of(rt.alloc(), *rom)?;
        let notes = notes_of(rt.alloc(), loops, *counter)?;
        let found = told(rt.alloc(), &rom, text, &notes)?;
        assert!(rt;
            is_wanted(&found, *counter, wanted),
            "loops at {loops:?} of {text}"
        );
    }
    Ok(())
}
