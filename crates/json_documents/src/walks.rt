// Where the T-states of a procedure go (docs/LONGEST.md).

use crate::members::{Items, Members};
use crate::words::{Words, decimal};
use std::alloc::Global;

/// Adds the lines of `longest`: the procedure, the items of its way, and the totals.
pub(crate) fn add_walk(members: &mut Members, text: &str) {
    let alloc = members.alloc();
    members.text("verdict", "accepted");
    let mut lines = text.lines();
    let heading = lines.next().unwrap_or("");
    members.object("procedure", procedure_of(alloc, heading));
    let mut items = Items::new(alloc);
    let mut totals = Items::new(alloc);
    let (mut in_rows, mut in_totals) = (false, false);
    for line in lines {
        if line.trim_start().starts_with("times ") {
            in_totals = true;
        } else if line.starts_with("addr") {
            in_rows = true;
        } else if in_totals {
            totals.object(total_of(alloc, line));
        } else if in_rows {
            items.object(row_of(alloc, line));
        } else if !line.is_empty() {
            items.object(item_of(alloc, line));
        }
    }
    members.array("items", items);
    members.array("procedures", totals);
}

/// The procedure of the first line: `sub 03AB moveactors: 3068 T-states`, `untimed 0000`, or `nmi none`.
fn procedure_of(alloc: Global, line: &str) -> Members {
    let mut procedure = Members::new(alloc);
    let mut words = Words::of(line);
    let kind = words.word();
    procedure.text("kind", kind);
    procedure.number("entry", words.address());
    if let Some((name, times)) = words.rest().rsplit_once(": ") {
        procedure.text("name", name);
        let mut words = Words::of(times);
        procedure.number("time", words.decimal());
        if words.word() == "of" {
            procedure.number("budget", words.decimal());
        }
    }
    procedure
}

/// An item of the way: its T-states, if it has its own, and its text. The items of a fold follow it and have none.
fn item_of(alloc: Global, line: &str) -> Members {
    let mut item = Members::new(alloc);
    let mut words = Words::of(line);
    match decimal(words.word()) {
        Some(time) if line.starts_with(' ') && !line.starts_with("         ") => {
            item.number("time", Some(time));
            item.text("text", words.rest());
        }
        _ => item.text("text", line.trim()),
    }
    item
}

/// A row of the way, or a loop, with `--rows`: its address, if it has one, its T-states, the sum so far, and its text.
fn row_of(alloc: Global, line: &str) -> Members {
    let mut row = Members::new(alloc);
    let mut words = Words::of(line);
    if !line.starts_with(' ') {
        row.number("address", words.address());
    }
    row.number("time", words.decimal());
    row.number("sum", words.decimal());
    row.text("text", words.rest());
    row
}

/// The T-states of a procedure in the whole way.
fn total_of(alloc: Global, line: &str) -> Members {
    let mut total = Members::new(alloc);
    let mut words = Words::of(line);
    total.number("times", words.decimal());
    total.number("own", words.decimal());
    total.number("loops", words.decimal());
    total.number("each", words.decimal());
    total.number("entry", words.address());
    total.text("name", words.rest());
    total
}
