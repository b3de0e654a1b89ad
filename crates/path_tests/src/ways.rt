// Walks of a procedure at 0008, worked out by hand: several ways, calls, several entries or none, and cycles of rows.

use crate::cases::{Told, Wanted, is_told, told};
use path_time::TimeFault;
use std::alloc::Global;
use std::test::Fail;

/// The beginning of each ROM: main, which calls 0008.
const MAIN: [u8; 8] = [0x31, 0x00, 0x44, 0xCD, 0x08, 0x00, 0x18, 0xFE];

/// Rows with nothing known, each by its procedure, address and mode.
macro_rules! rows {
    ($($row:literal),*) => {
        concat!($("row ", $row, " * * * * * * * * * * - - - -\n"),*)
    };
}

/// The rows of main, with the numbers 0, 1 and 2.
const MAIN_ROWS: &str = rows!("0 0000 u", "0 0003 s", "0 0006 s");

const TIMED: &str = "proc sub 0008 1 4 100\n";

/// CALL 000C and RET at 0008, RET at 000C.
const CALL: [u8; 5] = [0xCD, 0x0C, 0x00, 0xC9, 0xC9];

const CALL_ROWS: &str = rows!("1 0008 s", "1 000B s", "2 000C s");

/// DJNZ over one byte: 13 T-states to RET if B is not 1, else 8 to that byte.
const ENTRIES: &str = "row 1 0008 s * 0100-01FF:01-01:00-FF * * * * * * * * - - - -\n\
    row 1 0008 s * 0200-FFFF:02-FF:00-FF * * * * * * * * - - - -\n\
    row 1 000A s * * * * * * * * * * - - - -\n\
    row 1 000B s * * * * * * * * * * - - - -\n";

/// Five calls of 0018 and RET.
const CALLS: [u8; 17] = [
    0xCD, 0x18, 0x00, 0xCD, 0x18, 0x00, 0xCD, 0x18, 0x00, 0xCD, 0x18, 0x00, 0xCD, 0x18, 0x00, 0xC9,
    0xC9,
];

/// NOP at 0008; 0009 and 000B jump to each other, and 000D jumps to itself.
const ROUND: [u8; 7] = [0x00, 0x18, 0x00, 0x18, 0xFC, 0x18, 0xFE];

/// What a case shows, the code from 0008 on, the lines of procedures, and those of rows after main's, from number 3 on;
/// then the longest walk of procedure 1, with its T-states and rows, or the fault.
const WALKS: &[(&str, &[u8], &str, &str, Wanted)] = &[
    // JR NZ to the next address, 12 or 7; RET, 10
    (
        "two ways to one row",
        &[0x20, 0x00, 0xC9],
        TIMED,
        rows!("1 0008 s", "1 000A s"),
        Ok((22, &[3, 4])),
    ),
    // JR Z over two NOPs: 12 and 10, or 7, 4, 4 and 10
    (
        "the longer of two ways",
        &[0x28, 0x02, 0x00, 0x00, 0xC9],
        TIMED,
        rows!("1 0008 s", "1 000A s", "1 000B s", "1 000C s"),
        Ok((25, &[3, 4, 5, 6])),
    ),
    // JR Z over one NOP: 12 and 10, or 7, 4 and 10
    (
        "the jump is longer",
        &[0x28, 0x01, 0x00, 0xC9],
        TIMED,
        rows!("1 0008 s", "1 000A s", "1 000B s"),
        Ok((22, &[3, 5])),
    ),
    // RET Z leaves with 11, or goes on with 5 to RET, 10
    (
        "an exit on the way",
        &[0xC8, 0xC9],
        TIMED,
        rows!("1 0008 s", "1 0009 s"),
        Ok((15, &[3, 4])),
    ),
    // After it HALT and no row
    (
        "HALT behind an exit",
        &[0xC8, 0x76],
        TIMED,
        rows!("1 0008 s", "1 0009 s"),
        Ok((11, &[3])),
    ),
    // 17 and the callee's time, 33; RET, 10
    (
        "through a call",
        &CALL,
        "proc sub 0008 1 4 100\nproc sub 000C 0 2 33\n",
        CALL_ROWS,
        Ok((60, &[3, 4])),
    ),
    (
        "a callee without a time",
        &CALL,
        "proc sub 0008 1 4 100\nproc sub 000C 0 2 -\n",
        CALL_ROWS,
        Ok((0, &[])),
    ),
    (
        "a callee without an exit",
        &[0xCD, 0x0C, 0x00, 0xC9, 0x76],
        "proc sub 0008 1 4 100\nproc sub 000C 0 2 33\n",
        CALL_ROWS,
        Ok((0, &[])),
    ),
    // LD A,5; NOP; RET: 7, 4 and 10. The row at 000A has another value of A than the state that arrives.
    (
        "the only row at an address comes next, whatever its ranges are",
        &[0x3E, 0x05, 0x00, 0xC9],
        "proc sub 0008 0 2 100\n",
        "row 1 0008 s * * * * * * * * * * - - - 100\n\
        row 1 000A s 0700-07FF:07-07:00-FF * * * * * * * * * - - - 80\n\
        row 1 000B s * * * * * * * * * * - - - 70\n",
        Ok((21, &[3, 4, 5])),
    ),
    // JR Z,000EH; LD A,I; JR 0011H; 000E: NOP; JR 0011H; 0011: RET: 7, 9, 12 and 10, or 12, 4, 12 and 10
    (
        "of two ways with the same sum the one with the lower next row",
        &[0x28, 0x04, 0xED, 0x57, 0x18, 0x03, 0x00, 0x18, 0x00, 0xC9],
        "proc sub 0008 0 2 100\n",
        "row 1 0008 s * * * * * * * * * * - - - 100\n\
        row 1 000A s * * * * * * * * * * - - - 80\n\
        row 1 000C s * * * * * * * * * * - - - 60\n\
        row 1 000E s * * * * * * * * * * - - - 80\n\
        row 1 000F s * * * * * * * * * * - - - 60\n\
        row 1 0011 s * * * * * * * * * * - - - 40\n",
        Ok((38, &[3, 4, 5, 8])),
    ),
    // NOP, 4
    (
        "the longer of two entries",
        &[0x10, 0x01, 0x00, 0xC9],
        TIMED,
        ENTRIES,
        Ok((23, &[4, 6])),
    ),
    // INC BC, 6
    (
        "the other entry is longer",
        &[0x10, 0x01, 0x03, 0xC9],
        TIMED,
        ENTRIES,
        Ok((24, &[3, 5, 6])),
    ),
    (
        "no row at the entry",
        &[0xC9, 0xC9],
        TIMED,
        rows!("1 0009 s"),
        Ok((0, &[])),
    ),
    // A return in mode `u` is refused
    (
        "a return without SP",
        &[0xC9, 0xC9],
        TIMED,
        rows!("1 0008 u"),
        Ok((0, &[])),
    ),
    ("no row at all", &[0xC9], TIMED, "", Ok((0, &[]))),
    (
        "a sum beyond 32 bits",
        &CALLS,
        "proc sub 0008 1 4 100\nproc sub 0018 0 2 1000000000\n",
        rows!(
            "1 0008 s", "1 000B s", "1 000E s", "1 0011 s", "1 0014 s", "1 0017 s", "2 0018 s"
        ),
        Ok((4_294_967_295, &[3, 4, 5, 6, 7, 8])),
    ),
    // From 000B on
    (
        "one call less",
        &CALLS,
        "proc sub 000B 1 4 100\nproc sub 0018 0 2 1000000000\n",
        rows!(
            "1 000B s", "1 000E s", "1 0011 s", "1 0014 s", "1 0017 s", "2 0018 s"
        ),
        Ok((4_000_000_078, &[3, 4, 5, 6, 7])),
    ),
    // RET, and after it a jump to itself
    (
        "round where the entry does not lead",
        &[0xC9, 0x18, 0xFE],
        TIMED,
        rows!("1 0008 s", "1 0009 s"),
        Err(TimeFault::Cycle(0x0009)),
    ),
    (
        "round at the lowest address",
        &ROUND,
        TIMED,
        rows!("1 0008 s", "1 0009 s", "1 000B s", "1 000D s"),
        Err(TimeFault::Cycle(0x0009)),
    ),
    // Without the row at 000B only the last row is on a cycle
    (
        "round at the last address",
        &ROUND,
        TIMED,
        rows!("1 0008 s", "1 0009 s", "1 000D s"),
        Err(TimeFault::Cycle(0x000D)),
    ),
    // CALL 000D and a jump back to it; RET at 000D
    (
        "round through a call",
        &[0xCD, 0x0D, 0x00, 0x18, 0xFB, 0xC9],
        "proc sub 0008 1 4 100\nproc sub 000D 0 2 33\n",
        rows!("1 0008 s", "1 000B s", "2 000D s"),
        Err(TimeFault::Cycle(0x0008)),
    ),
];

/// The longest walk of procedure 1 at 0008, which begins with this code; the lines of procedures and rows come after
/// main's.
fn told_of(alloc: Global, code: &[u8], procs: &str, rows: &str) -> Result<Told, Fail> {
    let mut rom = Vec::from_slice(alloc, &MAIN)?;
    rom.extend_from_slice(code)?;
    let text = format!(in alloc;
        "galcert 1\nrom {}\nstack 4380 4400\nbudget -\nproc main 0000 2 4 -\n{procs}{MAIN_ROWS}{rows}end\n",
        rom.len()
    )?;
    told(alloc, rom.as_slice(), text.as_str(), 1)
}

#[test]
fn walks(rt: HostRuntime) -> Result<(), Fail> {
    for (name, code, procs, rows, wanted) in WALKS {
        let found = told_of(rt.alloc(), code, procs, rows)?;
        assert!(rt; is_told(&found, wanted), "{name}");
    }
    Ok(())
}
