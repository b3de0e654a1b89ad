// Rows of the refined step of a called procedure. The columns are the name of an instruction, the bytes of the ROM, the
// state and the flag parts before it, what the step tells, and its successors. A row without a column of
// successors does not compare them.
//
// What it tells is written as words. `before:` and `after:` give the conditions before and after the instruction, in
// their order. A=10+1*A is the linear effect, and `none` says that there is none.
use crate::claims::are_successors;
use crate::reading::{code_of, columns_of, linear_of, parts_of, state_of};
use abs_draft::Ground;
use abs_state::AbsState;
use address_map::{Map, Rom};
use board_fetch::fetch;
use cert_fields::variable_field;
use flag_letters::{FlagPart, FlagParts};
use refined_step::{RefinedStep, StepTold, refined_step};
use std::alloc::Global;
use texts::split_once;

/// The refined step from address 0000, without kept cells and inline calls.
fn refined(alloc: Global, code: &[u8], state: &AbsState, parts: &FlagParts) -> Option<RefinedStep> {
    let rom = Rom::of(code)?;
    let map = Map::galaxian(rom.len());
    let ground = Ground::of(&rom, &map, &[]);
    match fetch(&rom, 0) {
        Ok((instr, len)) => Some(refined_step(
            alloc, &ground, 0, false, false, &instr, len, state, parts,
        )),
        Err(_) => None,
    }
}

/// Whether these are the parts, in their order.
pub fn are_parts(found: &[FlagPart], text: &[u8]) -> bool {
    match parts_of(text) {
        Some(parts) => parts.parts() == found,
        None => false,
    }
}

/// Whether the step makes this variable this linear.
fn makes(told: &StepTold, name: &[u8], linear: &[u8]) -> bool {
    match (&told.linear, variable_field(name), linear_of(linear)) {
        (Some(effect), Some(variable), Some(linear)) => {
            effect.variable == variable && effect.linear == linear
        }
        _ => false,
    }
}

/// Whether the step tells what a word says.
fn tells(told: &StepTold, word: &[u8]) -> bool {
    if word == b"none".as_slice() {
        return told.linear.is_none();
    }
    if let Some((name, linear)) = split_once(word, b'=') {
        return makes(told, name, linear);
    }
    match split_once(word, b':') {
        Some((b"before", parts)) => are_parts(told.conditions.before(), parts),
        Some((b"after", parts)) => are_parts(told.conditions.after(), parts),
        _ => false,
    }
}

/// Whether the step tells what these words say.
fn tells_all(told: &StepTold, text: &str) -> bool {
    for word in text.split_whitespace() {
        if !tells(told, word.as_bytes()) {
            return false;
        }
    }
    true
}

/// Whether the step is what the row says.
fn is_right(alloc: Global, row: &str) -> bool {
    let columns = columns_of(row);
    let [_, code, before, parts, told, after @ ..] = columns.as_slice() else {
        return false;
    };
    let (Some(code), Some(state), Some(parts)) = (
        code_of(code),
        state_of(before),
        parts_of(parts.as_bytes()),
    ) else {
        return false;
    };
    let Some(step) = refined(alloc, code.as_slice(), &state, &parts) else {
        return false;
    };
    let is_told = tells_all(&step.told, told);
    if after.is_empty() {
        return is_told && !told.is_empty();
    }
    is_told && are_successors(&step.answer, after, &state)
}

/// The first row that is not right, if there is one.
pub fn first_wrong<'a>(alloc: Global, tables: &[&'a str]) -> Option<&'a str> {
    for table in tables {
        for row in table.lines() {
            if !is_right(alloc, row) {
                return Some(row);
            }
        }
    }
    None
}
