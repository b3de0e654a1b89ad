// The text of an explanation (docs/EXPLAIN.md).

use crate::members::{Items, Members};
use crate::verdicts::{add_reason, add_refusal};
use crate::words::Words;
use std::alloc::Global;

/// The blanks before a line about a refusal, and before a line of a remedy.
const ABOUT: &str = "  ";

const REMEDY: &str = "    ";

/// Adds the text of `explain`: for each refusal where it is, its reason, and the lines about it.
pub(crate) fn add_explanation(members: &mut Members, text: &str) {
    if text == "accepted\n" {
        members.text("verdict", "accepted");
        return;
    }
    let alloc = members.alloc();
    members.text("verdict", "refused");
    let mut refusals = Items::new(alloc);
    let mut refusal = Members::new(alloc);
    let mut details = Items::new(alloc);
    let mut is_first = true;
    for line in text.lines() {
        if line.starts_with(ABOUT) {
            details.object(detail_of(alloc, line));
            continue;
        }
        if !is_first {
            refusal.array("details", details);
            refusals.object(refusal);
        }
        is_first = false;
        refusal = refusal_of(alloc, line);
        details = Items::new(alloc);
    }
    refusal.array("details", details);
    refusals.object(refusal);
    members.array("refusals", refusals);
}

/// A first line: the place, the instruction and the reason; or another line of refusal.
fn refusal_of(alloc: Global, line: &str) -> Members {
    let mut refusal = Members::new(alloc);
    refusal.text("text", line);
    add_refusal(&mut refusal, line);
    if let Some(place) = line.strip_suffix("  unbounded") {
        add_place(&mut refusal, place);
        refusal.text("verdict", "unbounded");
        return refusal;
    }
    let Some((head, reason)) = line.rsplit_once("  [") else {
        return refusal;
    };
    match head.rsplit_once("  ") {
        Some((place, instruction)) => {
            add_place(&mut refusal, place);
            refusal.text("instruction", instruction);
        }
        None => add_place(&mut refusal, head),
    }
    let reason = reason.strip_suffix("]").unwrap_or(reason);
    add_reason(&mut refusal, &mut Words::of(reason));
    refusal
}

/// Adds a place and its address, which stands after the file and its line, if there are any: `game.asm:3: 0003 start`.
fn add_place(refusal: &mut Members, place: &str) {
    refusal.text("place", place);
    let own = match place.rsplit_once(": ") {
        Some((_, own)) => own,
        None => place,
    };
    refusal.number("address", Words::of(own).address());
}

/// A line about a refusal: its topic, if it names one, and its text.
fn detail_of(alloc: Global, line: &str) -> Members {
    let mut detail = Members::new(alloc);
    if line.starts_with(REMEDY) {
        detail.text("topic", "remedy");
        detail.text("text", line.strip_prefix(REMEDY).unwrap_or(line));
        return detail;
    }
    let text = line.trim_start();
    match text.split_once(": ") {
        Some((topic, text)) if is_topic(topic) => {
            detail.text("topic", topic);
            detail.text("text", text);
        }
        _ => detail.text("text", text),
    }
    detail
}

/// Whether the words before a colon say what a line is about.
fn is_topic(words: &str) -> bool {
    matches!(
        words,
        "whence" | "known" | "annotations in reach" | "try" | "see"
    )
}
