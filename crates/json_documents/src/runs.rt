// The lines of a run (docs/PROGRAM.md, "A run's lines", "Traces").

use crate::members::{Items, Members};
use crate::verdicts::add_refusal;
use crate::words::Words;
use std::alloc::Global;

/// The registers of a trace, in their order.
const REGISTERS: [&str; 7] = ["AF", "BC", "DE", "HL", "IX", "IY", "SP"];

/// The room of the registers at the end of a line of a trace.
const REGISTERS_LEN: usize = 35;

/// Adds what the lines of a run say: its events, and what it came to, or the refusal.
pub(crate) fn add_run(members: &mut Members, text: &str) {
    let alloc = members.alloc();
    let mut events = Items::new(alloc);
    for line in text.lines() {
        let mut words = Words::of(line);
        match words.word() {
            "nmi" => events.object(acceptance_of(alloc, &mut words)),
            "end" => events.object(return_of(alloc, &mut words)),
            "done" => add_done(members, &mut words),
            "regs" => add_registers(members, &mut words),
            "sum" => add_sums(members, &mut words),
            number => match number.parse() {
                Ok(number) => events.object(traced_of(alloc, number, &mut words)),
                Err(_) => add_refusal(members, line),
            },
        }
    }
    members.array("events", events);
}

/// The acceptance of an NMI.
fn acceptance_of(alloc: Global, words: &mut Words) -> Members {
    let mut event = Members::new(alloc);
    event.text("kind", "nmi");
    event.number("event", words.decimal());
    event.number("address", words.address());
    event
}

/// The end of an NMI routine.
fn return_of(alloc: Global, words: &mut Words) -> Members {
    let mut event = Members::new(alloc);
    event.text("kind", "end");
    event.number("event", words.decimal());
    event.number("spent", words.decimal());
    event
}

/// An event of a trace.
fn traced_of(alloc: Global, number: u64, words: &mut Words) -> Members {
    let mut event = Members::new(alloc);
    event.text("kind", "trace");
    event.number("event", Some(number));
    event.number("time", words.decimal());
    event.number("address", words.address());
    let rest = words.rest();
    let at = rest.len().saturating_sub(REGISTERS_LEN);
    let (instruction, registers) = match (rest.get(..at), rest.get(at..)) {
        (Some(before), Some(after)) => (before, after),
        _ => (rest, ""),
    };
    event.text("instruction", instruction.trim());
    let mut words = Words::of(registers);
    let mut pairs = Members::new(alloc);
    for name in REGISTERS {
        pairs.number(name, words.address());
    }
    event.object("registers", pairs);
    event
}

/// Adds how long the run was, and where it ended.
fn add_done(members: &mut Members, words: &mut Words) {
    members.text("verdict", "accepted");
    let mut done = Members::new(members.alloc());
    done.number("events", words.decimal());
    done.number("time", words.decimal());
    done.number("pc", words.address());
    done.number("sp", words.address());
    members.object("done", done);
}

/// Adds the register pairs.
fn add_registers(members: &mut Members, words: &mut Words) {
    let mut pairs = Members::new(members.alloc());
    for name in REGISTERS {
        if name != "SP" {
            pairs.number(name, words.address());
        }
    }
    members.object("registers", pairs);
}

/// Adds the sums of the bytes of each RAM.
fn add_sums(members: &mut Members, words: &mut Words) {
    let mut sums = Members::new(members.alloc());
    sums.number("work", words.decimal());
    sums.number("video", words.decimal());
    sums.number("object", words.decimal());
    members.object("sums", sums);
}
