// The program that bench/ times and compares. Its arguments are, in this order:
// - EVENTS of a mixed loop on the checked step,
// - ORDERS of calls without a cycle, and CYCLES with one,
// - CALLS of `successors`,
// - TWINS, events of a ROM on the runner and on the checked step side by side,
// - CHECKED and KNOWN, events of that ROM on the checked step and on the known step,
// - WALKS and POTENTIALS of a procedure of 20,000 rows,
// - BRANCHES, 0 if that procedure is straight code,
// - a SEED, and the files of the ROM and of its certificate.
//
// Each count of 0 skips its part. Each line of standard input describes a step (vectors.rt).
#![tactic(auto)]

mod call_order;
mod mixed_loop;
mod numbers;
mod paths;
mod roms;
mod rules;
mod steps;
mod twins;
mod vectors;

use crate::paths::{BRANCHES, STRAIGHT};
use crate::twins::Twins;
use address_map::Rom;
use runner::{Summary, summary_lines};
use std::io::Write;
use std::{env, fs, io};

/// The first eleven arguments. A missing one is 0.
fn counts(rt: &HostRuntime) -> [u64; 11] {
    let mut counts = [0; 11];
    let Ok(words) = env::args(rt) else {
        return counts;
    };
    let mut words = words.skip(1);
    for count in &mut counts {
        if let Some(word) = words.next() {
            *count = word.as_str().parse().unwrap_or(0);
        }
    }
    counts
}

fn main(rt: HostRuntime) -> io::Result<()> {
    let [
        events,
        orders,
        cycles,
        calls,
        twins,
        checked,
        known,
        walks,
        potentials,
        branches,
        seed,
    ] = counts(&rt);
    if events > 0 {
        print_loop(&rt, events)?;
    }
    if orders > 0 {
        print_order(&rt, orders)?;
    }
    if cycles > 0 {
        print_cycle(&rt, cycles)?;
    }
    if calls > 0 {
        print_rules(&rt, calls)?;
    }
    if twins > 0 || checked > 0 || known > 0 {
        print_events(&rt, [twins, checked, known], seed)?;
    }
    if walks > 0 || potentials > 0 {
        print_paths(&rt, walks, potentials, branches > 0)?;
    }
    compare_steps(&rt)
}

fn print_loop(rt: &HostRuntime, events: u64) -> io::Result<()> {
    match mixed_loop::played(events) {
        Some((a, b)) => println!(rt; "A {a}, B {b}"),
        None => println!(rt; "a trap"),
    }
}

fn print_order(rt: &HostRuntime, times: u64) -> io::Result<()> {
    let Ok(calls) = call_order::calls_down(rt.alloc(), call_order::CALLS) else {
        return println!(rt; "out of memory");
    };
    let (procs, first, last) = call_order::answer(rt.alloc(), &calls, times);
    println!(rt;
        "{} calls: {procs} procedures from {first} to {last}",
        calls.len()
    )
}

fn print_cycle(rt: &HostRuntime, times: u64) -> io::Result<()> {
    let Ok(calls) = call_order::calls_with_cycle(rt.alloc()) else {
        return println!(rt; "out of memory");
    };
    let (procs, first, last) = call_order::answer(rt.alloc(), &calls, times);
    println!(rt;
        "{} calls: a cycle of {procs} from {first} to {last}",
        calls.len()
    )
}

fn print_rules(rt: &HostRuntime, calls: u64) -> io::Result<()> {
    match rules::counted(rt.alloc(), calls) {
        Ok((ways, refused)) => println!(rt; "{calls} rows: {ways} ways on, {refused} refused"),
        Err(_) => println!(rt; "out of memory"),
    }
}

/// Runs a ROM in each of three ways: on the runner and the checked step side by side, on the checked step, and on the
/// known step.
fn print_events(rt: &HostRuntime, counts: [u64; 3], seed: u64) -> io::Result<()> {
    let words = env::args(rt)?.collect::<Vec<String>>(rt.alloc())?;
    let (Some(rom), Some(certificate)) = (words.get(12), words.get(13)) else {
        return println!(rt; "no files");
    };
    let rom = fs::read(rt, rom.as_str())?;
    let certificate = fs::read(rt, certificate.as_str())?;
    let [twins, checked, known] = counts;
    if twins > 0 {
        print_twins(rt, &rom, &certificate, twins, seed)?;
    }
    if checked > 0 {
        print_summary(rt, roms::checked(&rom, checked))?;
    }
    if known > 0 {
        print_summary(rt, roms::known(rt.alloc(), &rom, &certificate, known))?;
    }
    Ok(())
}

fn print_twins(
    rt: &HostRuntime,
    rom: &[u8],
    certificate: &[u8],
    events: u64,
    seed: u64,
) -> io::Result<()> {
    match twins::compared(rt.alloc(), rom, certificate, events, seed) {
        Twins::Refused => println!(rt; "not accepted"),
        Twins::Differ(at) => println!(rt; "event {at} differs"),
        Twins::Agree(accepts) => println!(rt;
            "{events} events agree, {accepts} of them acceptances"
        ),
    }
}

/// Prints the lines at the end of a run.
fn print_summary(rt: &HostRuntime, summary: Option<Summary>) -> io::Result<()> {
    match summary {
        Some(summary) => rt.stdout().write_all(summary_lines(&summary).bytes()),
        None => println!(rt; "a trap, or no accepted ROM"),
    }
}

/// Finds the longest walk and the potentials this many times, and prints them.
fn print_paths(rt: &HostRuntime, walks: u64, potentials: u64, branches: bool) -> io::Result<()> {
    let shape = if branches { BRANCHES } else { STRAIGHT };
    let Ok(bytes) = shape.rom(rt.alloc()) else {
        return println!(rt; "out of memory");
    };
    let Some(rom) = Rom::of(&bytes) else {
        return println!(rt; "no ROM");
    };
    let Some(certificate) = paths::certificate_of(rt.alloc(), &shape, bytes.len()) else {
        return println!(rt; "no certificate");
    };
    if certificate.rom_len() != rom.len() {
        return println!(rt; "a ROM of another length");
    }
    let (sum, rows) = paths::walked(rt.alloc(), &rom, &certificate, walks);
    let (first, count) = paths::paid(rt.alloc(), &rom, &certificate, potentials);
    println!(rt; "a walk of {sum} T-states over {rows} rows; {count} potentials, the first {first}")
}

fn compare_steps(rt: &HostRuntime) -> io::Result<()> {
    let mut right: u32 = 0;
    for line in rt.lines(rt.alloc()) {
        let line = line?;
        match vectors::row_of(line.as_str()) {
            (Some(row), _) if vectors::agrees(&row) => right = right.wrapping_add(1),
            (_, name) => println!(rt; "not as it should be: {name}")?,
        }
    }
    println!(rt; "{right} steps as they should be")
}
