// The texts of items.

use crate::items::{Item, ItemKind, LoopItem, ProcWalk};
use crate::made::COMPARISONS;
use call_graph::ProcId;
use disassembly::spelled;
use listing::View;
use loop_bounds::Linear;
use row_texts::{linear_text, variable_text};
use std::alloc::{AllocError, Global};

/// The addresses of an item: one, or the first and the last; empty for the acceptance.
pub fn address_text(alloc: Global, item: &Item, walk: &ProcWalk) -> Result<String, AllocError> {
    let (first, last) = match item.kind {
        ItemKind::Accepted => return Ok(String::new(alloc)),
        ItemKind::Run(last, _) => (item.address, last),
        ItemKind::Call(_, _, _) => (item.address, item.address),
        ItemKind::Loop(number) | ItemKind::Whole(number) => ends_of(
            walk.loops.get(number),
            item.address,
        ),
    };
    if first == last {
        format!(in alloc; "{first:04X}")
    } else {
        format!(in alloc; "{first:04X}-{last:04X}")
    }
}

/// The first and the last address of a loop.
fn ends_of(found: Option<&LoopItem>, address: u16) -> (u16, u16) {
    match found {
        Some(found) => (
            found.addresses.first().copied().unwrap_or(address),
            found.addresses.last().copied().unwrap_or(address),
        ),
        None => (address, address),
    }
}

/// What an item is: `3 instructions`, `CALL 03C2 moveone (17 and 306)`, `loop, at most 128 turns of 21 by BC`.
pub fn item_text(
    alloc: Global,
    view: &View,
    item: &Item,
    walk: &ProcWalk,
) -> Result<String, AllocError> {
    match item.kind {
        ItemKind::Accepted => String::from_str(alloc, "the NMI is accepted"),
        ItemKind::Run(_, 1) => String::from_str(alloc, "1 instruction"),
        ItemKind::Run(_, count) => format!(in alloc; "{count} instructions"),
        ItemKind::Call(callee, own, time) => {
            let word = call_word(alloc, view, item.address)?;
            let named = named_proc(alloc, view, callee)?;
            format!(in alloc; "{word} {named} ({own} and {time})")
        }
        ItemKind::Loop(number) => match walk.loops.get(number) {
            Some(found) => loop_text(alloc, view, found),
            None => String::from_str(alloc, "loop"),
        },
        ItemKind::Whole(number) => whole_text(alloc, view, walk.loops.get(number)),
    }
}

/// The word of the instruction at an address: CALL or RST.
fn call_word(alloc: Global, view: &View, address: u16) -> Result<String, AllocError> {
    let Some(instr) = view.accepted().code().instr_at(address) else {
        return String::from_str(alloc, "CALL");
    };
    let text = spelled(&instr, address);
    let whole = format!(in alloc; "{text}")?;
    String::from_str(alloc, whole.as_str().split(' ').next().unwrap_or("CALL"))
}

/// The entry and the name of a procedure.
fn named_proc(alloc: Global, view: &View, proc: ProcId) -> Result<String, AllocError> {
    let Some(procedure) = view.accepted().certificate().proc(proc) else {
        return Ok(String::new(alloc));
    };
    let name = view.proc_name(&procedure)?;
    format!(in alloc; "{:04X} {name}", procedure.entry)
}

/// The text of a loop: its turns, or the potential that bounds it, and the procedures that it calls.
fn loop_text(alloc: Global, view: &View, found: &LoopItem) -> Result<String, AllocError> {
    let text = match found.turns {
        Some(turns) => {
            let counter = counter_text(alloc, view, found)?;
            format!(in alloc;
                "loop, at most {} turns of {} by {counter}",
                turns.count, turns.cost
            )?
        }
        None => {
            let bound = bound_text(alloc, view, found)?;
            format!(in alloc; "loop, bounded by {bound}")?
        }
    };
    with_callees(view, text, found)
}

/// The text of a whole procedure: why its way is not shown, and the procedures that it calls.
fn whole_text(alloc: Global, view: &View, found: Option<&LoopItem>) -> Result<String, AllocError> {
    let most = COMPARISONS;
    let text = format!(in alloc; "as a whole: its way takes over {most} comparisons")?;
    match found {
        Some(found) => with_callees(view, text, found),
        None => Ok(text),
    }
}

/// The text, followed by the names of the procedures that a loop calls.
fn with_callees(view: &View, text: String, found: &LoopItem) -> Result<String, AllocError> {
    let mut text = text;
    let mut is_first = true;
    for callee in &found.callees {
        if let Some(procedure) = view.accepted().certificate().proc(*callee) {
            if is_first {
                text.push_str(", calls ")?;
            } else {
                text.push_str(" ")?;
            }
            text.push_str(view.proc_name(&procedure)?.as_str())?;
            is_first = false;
        }
    }
    Ok(text)
}

/// The name of the counter of a loop's turns: the first variable of its potential.
fn counter_text(alloc: Global, view: &View, found: &LoopItem) -> Result<String, AllocError> {
    let potential = potential_of(view, found);
    match potential.terms().first() {
        Some(term) => variable_text(alloc, term.variable),
        None => Ok(String::new(alloc)),
    }
}

/// The text of the potential of a loop.
fn bound_text(alloc: Global, view: &View, found: &LoopItem) -> Result<String, AllocError> {
    linear_text(alloc, &potential_of(view, found))
}

/// The potential of the row at which a loop is entered.
fn potential_of(view: &View, found: &LoopItem) -> Linear {
    match view.accepted().certificate().row(found.row) {
        Some(row) => row.potential.unwrap_or(Linear::zero()),
        None => Linear::zero(),
    }
}

/// The procedure that a word names: by its name, by a symbol at its entry, or by the four hexadecimal digits of its
/// entry; the first of several.
pub fn proc_named(view: &View, word: &str) -> Result<Option<ProcId>, AllocError> {
    let mut number: ProcId = 0;
    let entry = match view.symbols().address_of(word) {
        Some(entry) => Some(entry),
        None => hex_word(word),
    };
    for proc in view.accepted().certificate().procs() {
        if entry == Some(proc.entry) || view.proc_name(proc)?.as_str() == word {
            return Ok(Some(number));
        }
        number = number.saturating_add(1);
    }
    Ok(None)
}

/// The number that four hexadecimal digits spell.
fn hex_word(word: &str) -> Option<u16> {
    if word.len() == 4 && word.bytes().all(|byte| byte.is_ascii_hexdigit()) {
        u16::from_str_radix(word, 16).ok()
    } else {
        None
    }
}
