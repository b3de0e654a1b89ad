// Memory is refused once, at each growth in turn (`tools/memory.sh path_tests`). The call then answers `NoMemory`, a
// line reports it, and the next call gives the right answer.

use crate::bounds_of_rows::are;
use crate::cases::{Wanted, is_told};
use crate::worked::{CALLED, CALLED_TEXT, LOOP, LOOP_TEXT};
use address_map::Rom;
use annotations::LoopNote;
use certificate::read;
use loop_bounds::{Linear, Variable};
use path_time::{Nesting, PotentialFault, TimeFault, longest, potentials};
use std::alloc::Global;
use std::test::Fail;

/// The report of a call that gives the expected answer.
const ANSWERED: &str = "answered";

/// The longest walk of the called procedure.
const WALK: Wanted = Ok((38, &[3, 4, 5, 6]));

/// The report of the longest walk of the called procedure. A refused call is repeated.
fn told_of_longest(alloc: Global) -> &'static str {
    let Ok(certificate) = read(alloc, CALLED_TEXT.as_bytes()) else {
        return "refused before longest";
    };
    match Rom::of(&CALLED) {
        Some(rom) if certificate.rom_len() == rom.len() && certificate.procs().len() == 2 => {
            let first = longest(alloc, &rom, &certificate, 1);
            if is_told(&first, &WALK) {
                ANSWERED
            } else if is_told(&first, &Err(TimeFault::NoMemory))
                && is_told(&longest(alloc, &rom, &certificate, 1), &WALK)
            {
                "refused in longest"
            } else {
                "not answered by longest"
            }
        }
        _ => "a certificate of another ROM",
    }
}

#[test]
fn longest_again(rt: HostRuntime) -> Result<(), Fail> {
    let told = told_of_longest(rt.alloc());
    if told != ANSWERED {
        println!(rt; "{told}")?;
        assert!(rt; told.starts_with("refused"), "{told}");
    }
    Ok(())
}

/// The loop at 000A, with the counter B.
const LOOPS: [LoopNote; 1] = [LoopNote {
    at: 0x000A,
    counter: Variable::B,
    rises: false,
}];

/// Whether these are the potentials of the loop.
fn are_bounds(found: &Result<Vec<Linear>, PotentialFault>) -> bool {
    match found {
        Ok(found) => are(found, Variable::B, &[(116, 0), (5, 13), (10, 0)]),
        Err(_) => false,
    }
}

/// The report of the loop's potentials. A refused call is repeated.
fn told_of_potentials(alloc: Global) -> &'static str {
    let Ok(certificate) = read(alloc, LOOP_TEXT.as_bytes()) else {
        return "refused before potentials";
    };
    match Rom::of(&LOOP) {
        Some(rom) if certificate.rom_len() == rom.len() => {
            let first = potentials(
                alloc,
                &rom,
                &certificate,
                1,
                &[0, 116],
                &LOOPS,
                Nesting::Apart,
            );
            if are_bounds(&first) {
                ANSWERED
            } else if matches!(first, Err(PotentialFault::NoMemory))
                && are_bounds(&potentials(
                    alloc,
                    &rom,
                    &certificate,
                    1,
                    &[0, 116],
                    &LOOPS,
                    Nesting::Apart,
                ))
            {
                "refused in potentials"
            } else {
                "not answered by potentials"
            }
        }
        _ => "a certificate of another ROM",
    }
}

#[test]
fn potentials_again(rt: HostRuntime) -> Result<(), Fail> {
    let told = told_of_potentials(rt.alloc());
    if told != ANSWERED {
        println!(rt; "{told}")?;
        assert!(rt; told.starts_with("refused"), "{told}");
    }
    Ok(())
}
