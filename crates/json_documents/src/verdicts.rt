// The lines of a verdict (docs/PROGRAM.md, "Accepted", "Refused").

use crate::members::{Items, Members};
use crate::words::Words;
use std::alloc::Global;

/// Adds what the lines of `check` or `verify` say: the table, or the refusal.
pub(crate) fn add_verdict(members: &mut Members, text: &str) {
    let line = text.lines().next().unwrap_or("");
    if line == "accepted" {
        members.text("verdict", "accepted");
        members.object("table", table_of(members.alloc(), text));
    } else {
        add_refusal(members, line);
    }
}

/// Adds what a line of refusal says. For another line nothing is added.
pub(crate) fn add_refusal(members: &mut Members, line: &str) {
    let mut words = Words::of(line);
    match words.word() {
        "refused" => {
            members.text("verdict", "refused");
            members.number("address", words.address());
            add_reason(members, &mut words);
        }
        "recursion" => {
            members.text("verdict", "recursion");
            add_entries(members, &mut words);
        }
        "unbounded" => {
            members.text("verdict", "unbounded");
            members.number("address", words.address());
        }
        "too" => members.text("verdict", "too large"),
        "bad" => add_bad(members, &mut words),
        _ => {}
    }
}

/// Adds the number and the name of a reason, and what follows them.
pub(crate) fn add_reason(members: &mut Members, words: &mut Words) {
    let mut reason = Members::new(members.alloc());
    reason.number("number", words.decimal());
    reason.text("name", words.word());
    if !words.rest().is_empty() {
        reason.text("detail", words.rest());
    }
    members.object("reason", reason);
}

/// Adds the entries of procedures that call one another, if the line names them.
fn add_entries(members: &mut Members, words: &mut Words) {
    if words.rest().is_empty() {
        return;
    }
    let mut entries = Items::new(members.alloc());
    for word in words.rest().split(' ') {
        entries.number(crate::words::address(word));
    }
    members.array("entries", entries);
}

/// Adds which text is bad, and where.
fn add_bad(members: &mut Members, words: &mut Words) {
    match words.word() {
        "annotation" => {
            members.text("verdict", "bad annotation");
            members.text("key", words.rest());
        }
        "certificate" => {
            members.text("verdict", "bad certificate");
            add_line(members, words);
        }
        "input" => {
            members.text("verdict", "bad input");
            add_line(members, words);
        }
        "note" => {
            members.text("verdict", "bad note");
            add_line(members, words);
        }
        _ => {}
    }
}

/// Adds the number of a line; null where a count is too large.
fn add_line(members: &mut Members, words: &mut Words) {
    let _line = words.word();
    members.number("line", words.decimal());
}

/// The table of an accepted certificate.
fn table_of(alloc: Global, text: &str) -> Members {
    let mut table = Members::new(alloc);
    let mut procedures = Items::new(alloc);
    for line in text.lines().skip(1) {
        let mut words = Words::of(line);
        let kind = words.word();
        let second = words.word();
        match (kind, words.word()) {
            (_, "depth") => {
                procedures.object(procedure_of(alloc, kind, second, &mut words));
            }
            ("stack", _) => {
                let stack = share_of(alloc, "used", second, "size", &mut words);
                table.object("stack", stack);
            }
            ("nmi", "of") => {
                let nmi = share_of(alloc, "time", second, "budget", &mut words);
                table.object("nmi", nmi);
            }
            _ => table.number("nmi", None),
        }
    }
    table.array("procedures", procedures);
    table
}

/// The line of a procedure, after its word `depth`.
fn procedure_of(alloc: Global, kind: &str, entry: &str, words: &mut Words) -> Members {
    let mut procedure = Members::new(alloc);
    procedure.text("kind", kind);
    procedure.number("entry", crate::words::address(entry));
    procedure.number("depth", words.decimal());
    let _time = words.word();
    procedure.number("time", words.decimal());
    procedure
}

/// How much is used of how much.
fn share_of(alloc: Global, part: &str, used: &str, whole: &str, words: &mut Words) -> Members {
    let mut share = Members::new(alloc);
    share.number(part, crate::words::decimal(used));
    share.number(whole, words.decimal());
    share
}
