// What is known at a refused row, and which annotations are near.

use analysis::{FlowFault, facts_at};
use explanations::{Explored, Situation};
use inferred_rows::ContextPoint;
use intervals::RegPair;
use named_annotations::{register_name, variable_name};
use refusal_texts::{Wording, add_line};
use row_texts::{add_pair_texts, add_used_texts, fact_text, flag_text, part_text, used_by};

/// The most annotations that are listed.
const NEAR: usize = 6;

/// Adds what is known of the registers that matter: those of the instruction, the counter B, and facts.
pub(crate) fn add_known(
    text: &mut String,
    with: &Wording,
    situation: &Situation,
) -> Result<(), FlowFault> {
    let alloc = with.alloc;
    let state = &situation.state;
    let address = situation.place.address;
    let mut parts: Vec<String> = Vec::new(alloc);
    let mut has_bc = false;
    if let Ok((instr, _)) = board_fetch::fetch(with.rom, address) {
        for used in used_by(&instr) {
            if let Some(used) = used {
                has_bc = has_bc || used.pair() == RegPair::Bc;
                add_used_texts(alloc, used, state.pairs.pair(used.pair()), &mut parts)?;
            }
        }
    }
    if !has_bc {
        add_pair_texts(
            alloc,
            RegPair::Bc,
            state.pairs.pair(RegPair::Bc),
            &mut parts,
        )?;
    }
    if let Some(flag) = state.flag {
        parts.push(flag_text(alloc, flag)?)?;
    }
    for part in situation.parts.parts() {
        parts.push(part_text(alloc, part)?)?;
    }
    for note in facts_at(situation.task.said().facts(), address) {
        parts.push(fact_text(alloc, &note.fact)?)?;
    }
    let mut line = String::from_str(alloc, "known: ")?;
    if parts.is_empty() {
        line.push_str("nothing of the registers that matter")?;
    }
    for (place, part) in parts.iter().enumerate() {
        if place > 0 {
            line.push_str(", ")?;
        }
        add_dotted(&mut line, part.as_str())?;
    }
    add_line(text, line.as_str())
}

/// Adds a text of a row, with two dots between the ends of ranges. A sign of a fact has a blank before it, and stays.
fn add_dotted(line: &mut String, part: &str) -> Result<(), FlowFault> {
    let mut is_digit = false;
    for character in part.chars() {
        match character {
            '-' if is_digit => line.push_str("..")?,
            _ => line.push(character)?,
        }
        is_digit = character.is_ascii_hexdigit();
    }
    Ok(())
}

/// Adds the annotations of the procedure of a row.
pub(crate) fn add_near(
    text: &mut String,
    with: &Wording,
    explored: &Explored,
    row: u64,
) -> Result<(), FlowFault> {
    let alloc = with.alloc;
    let proc = ContextPoint::of(row).proc;
    let said = explored.task.said();
    let mut parts: Vec<String> = Vec::new(alloc);
    for split in said.splits() {
        if is_near(with, explored, proc, split.at)? {
            let (at, register) = (with.place(split.at), register_name(split.register));
            parts.push(format!(in alloc; "split at {at} by {register}")?)?;
        }
    }
    for note in said.facts() {
        if is_near(with, explored, proc, note.at)? {
            let (at, fact) = (with.place(note.at), fact_text(alloc, &note.fact)?);
            parts.push(format!(in alloc; "fact at {at}: {fact}")?)?;
        }
    }
    for note in said.loops() {
        if is_near(with, explored, proc, note.at)? {
            let (at, counter) = (with.place(note.at), variable_name(alloc, note.counter)?);
            parts.push(format!(in alloc; "loop at {at} by {counter}")?)?;
        }
    }
    for at in said.inlines() {
        if is_near(with, explored, proc, *at)? {
            let at = with.place(*at);
            parts.push(format!(in alloc; "inline at {at}")?)?;
        }
    }
    let mut line = String::from_str(alloc, "annotations in reach: ")?;
    if parts.is_empty() {
        line.push_str("none")?;
    }
    for (place, part) in parts.iter().enumerate() {
        if place >= NEAR {
            line.push_str(" ..")?;
            break;
        }
        if place > 0 {
            line.push_str(", ")?;
        }
        line.push_str(part.as_str())?;
    }
    add_line(text, line.as_str())
}

/// Whether a procedure has rows at an address.
fn is_near(
    with: &Wording,
    explored: &Explored,
    proc: u32,
    address: u16,
) -> Result<bool, FlowFault> {
    Ok(!explored.rows_at(with.alloc, proc, address)?.is_empty())
}
