// The lines of a listing (docs/LISTING.md).

use crate::members::{Items, Members};
use crate::words::{Words, address, columns};
use std::alloc::Global;

/// Where the columns of an instruction's line begin.
const BYTES: usize = 6;

const INSTRUCTION: usize = 19;

const COSTS: usize = 43;

/// Adds the lines of a listing: of each instruction its columns, and the texts that stand between the instructions.
pub(crate) fn add_listing(members: &mut Members, text: &str) {
    let alloc = members.alloc();
    members.text("verdict", "accepted");
    let mut lines = Items::new(alloc);
    // The first line names the columns.
    for line in text.lines().skip(1) {
        if line.is_empty() {
            continue;
        }
        match address(columns(line, 0, BYTES)) {
            Some(at) => lines.object(instruction_of(alloc, at, line)),
            None => add_more(&mut lines, alloc, line),
        }
    }
    members.array("lines", lines);
}

/// The line of an instruction, or of bytes that are never reached.
fn instruction_of(alloc: Global, at: u64, line: &str) -> Members {
    let mut columns_of = Members::new(alloc);
    columns_of.number("address", Some(at));
    if !is_instruction(line) {
        columns_of.text("text", columns(line, BYTES, usize::MAX));
        return columns_of;
    }
    columns_of.text("bytes", columns(line, BYTES, INSTRUCTION));
    columns_of.text("instruction", columns(line, INSTRUCTION, COSTS));
    let mut words = Words::of(columns(line, COSTS, usize::MAX));
    let (taken, other) = costs_of(words.word());
    columns_of.number("taken", taken);
    columns_of.number("not_taken", other);
    columns_of.number("left", words.decimal());
    columns_of.text("stack", words.word());
    columns_of.text("known", words.rest());
    columns_of
}

/// Whether a line is of an instruction: its bytes end before its text begins, and they are no comment. A line of bytes
/// that are never reached has a fifth byte there, or nothing.
fn is_instruction(line: &str) -> bool {
    let bytes = columns(line, BYTES, INSTRUCTION);
    let is_comment = bytes.starts_with(';') || bytes.starts_with("DEFB");
    let has_fifth = !columns(line, INSTRUCTION - 1, INSTRUCTION).is_empty();
    !is_comment && !has_fifth && !columns(line, INSTRUCTION, INSTRUCTION + 1).is_empty()
}

/// The T-states of an instruction, if it is taken or repeats and if not: `12/7`, or one number for both.
fn costs_of(text: &str) -> (Option<u64>, Option<u64>) {
    match text.split_once('/') {
        Some((taken, other)) => (taken.parse().ok(), other.parse().ok()),
        None => (text.parse().ok(), text.parse().ok()),
    }
}

/// Adds a line that begins with no address: a text of its own.
fn add_more(lines: &mut Items, alloc: Global, line: &str) {
    let mut more = Members::new(alloc);
    let name = if line.starts_with(' ') {
        "more"
    } else {
        "text"
    };
    more.text(name, line.trim());
    lines.object(more);
}
