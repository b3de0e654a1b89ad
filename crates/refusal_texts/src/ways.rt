// Where a refused row leads, and what is not covered there: reason 12.

use crate::rows::TargetRow;
use crate::wording::{RangeText, Wording, add_line, pair_name};
use abs_state::AbsState;
use abs_step::{Next, NextKind};
use analysis::FlowFault;
use cert_fields::stays_within;
use explanations::{Explored, Situation, all_follow};
use inferred_rows::ContextPoint;
use intervals::{Domain, Pair, RegPair};
use loop_bounds::Linear;
use named_annotations::register_name;
use row_texts::fact_text;
use source_lines::NamedAddress;
use z80_decode::{Instr, Pointer};

const PAIRS: [RegPair; 10] = [
    RegPair::Af,
    RegPair::Bc,
    RegPair::De,
    RegPair::Hl,
    RegPair::Ix,
    RegPair::Iy,
    RegPair::AlternateAf,
    RegPair::AlternateBc,
    RegPair::AlternateDe,
    RegPair::AlternateHl,
];

/// The pair through which an instruction jumps.
pub fn jump_pair(instr: &Instr) -> Option<RegPair> {
    match instr {
        Instr::JumpTo(Pointer::Hl) => Some(RegPair::Hl),
        Instr::JumpTo(Pointer::Ix) => Some(RegPair::Ix),
        Instr::JumpTo(Pointer::Iy) => Some(RegPair::Iy),
        _ => None,
    }
}

/// Adds that a jump goes to several addresses.
///
/// # Errors
///
/// `NoMemory` where memory was refused.
pub fn add_computed(
    text: &mut String,
    with: &Wording,
    situation: &Situation,
    pair: RegPair,
) -> Result<(), FlowFault> {
    let instr = with.instr(situation.place.address);
    let name = pair_name(pair);
    let is = RangeText::words(situation.state.pairs.pair(pair).word);
    add_line(
        text,
        format_args!("{instr} goes to {name}, which is {is}: not one address"),
    )
}

/// Adds the parts that a split lacks.
///
/// # Errors
///
/// `NoMemory` where memory was refused.
pub fn add_lacking(
    text: &mut String,
    with: &Wording,
    explored: &Explored,
    row: u64,
) -> Result<bool, FlowFault> {
    let alloc = with.alloc;
    let mut is_some = false;
    for (at, range) in explored.lacking(alloc, row)? {
        let register = match explored.task.split_at(at) {
            Some(split) => register_name(split.register),
            None => "",
        };
        let (place, values) = (with.place(at), RangeText::bytes(range));
        add_line(
            text,
            format_args!(
                "goes to {place}, where {register} may be {values}, and the split there has no part for some of these"
            ),
        )?;
        is_some = true;
    }
    Ok(is_some)
}

/// Adds what is not covered at the target of a successor: the shape, a pair, or a fact, with both values.
///
/// # Errors
///
/// `NoMemory` where memory was refused.
pub fn add_uncovered(
    text: &mut String,
    with: &Wording,
    situation: &Situation,
    facts: &[Linear],
    next: &Next,
    rows: &[TargetRow],
) -> Result<bool, FlowFault> {
    let to = with.place(next.address);
    let arriving = match next.kind {
        NextKind::Call => next.state.callee(),
        NextKind::Jump | NextKind::Exit => next.state.copied(),
    };
    let Some(row) = rows.first() else {
        add_line(text, format_args!("goes to {to}, where there is no row"))?;
        return Ok(true);
    };
    if rows.iter().any(|row| {
        row.state
            .covers(&tightened(&arriving, row.facts.as_slice()))
            && all_follow(facts, &situation.state, &next.effect, row.facts.as_slice())
    }) {
        return Ok(false);
    }
    let (here, there) = (arriving.shape.len(), row.state.shape.len());
    let arriving = tightened(&arriving, row.facts.as_slice());
    if here != there {
        add_line(
            text,
            format_args!(
                "goes to {to} with {here} words on the stack; the rows there have {there}"
            ),
        )?;
        return Ok(true);
    }
    if !row.state.mode.covers(arriving.mode) {
        add_line(
            text,
            format_args!(
                "goes to {to}, where NMIs come by another way and not by this one, or SP is set by one only"
            ),
        )?;
        return Ok(true);
    }
    for fact in row.facts.as_slice() {
        if !all_follow(facts, &situation.state, &next.effect, [*fact].as_slice()) {
            add_fact(text, with, to, fact, &situation.state, facts)?;
            return Ok(true);
        }
    }
    for pair in PAIRS {
        let (is, wanted) = (arriving.pairs.pair(pair), row.state.pairs.pair(pair));
        if !wanted.covers(&is) {
            add_pair(text, to, pair, is, wanted)?;
            return Ok(true);
        }
    }
    add_line(
        text,
        format_args!("goes to {to}, where no row covers the state"),
    )?;
    Ok(true)
}

/// A state tightened by facts; those that leave nothing are passed over.
fn tightened(state: &AbsState, facts: &[Linear]) -> AbsState {
    let mut left = state.copied();
    for fact in facts {
        let mut cut = left.copied();
        if cut.tighten(fact) {
            left = cut;
        }
    }
    left
}

/// Adds a pair that a target does not cover.
fn add_pair(
    text: &mut String,
    to: NamedAddress,
    pair: RegPair,
    is: Pair,
    wanted: Pair,
) -> Result<(), FlowFault> {
    let name = pair_name(pair);
    if wanted.origin.is_some() && wanted.origin != is.origin {
        return add_line(
            text,
            format_args!(
                "goes to {to}, where {name} is what a pair was at the entry; here it need not be"
            ),
        );
    }
    if !wanted.word.covers(&is.word) {
        let (is, wanted) = (RangeText::words(is.word), RangeText::words(wanted.word));
        return add_line(
            text,
            format_args!("goes to {to} with {name} {is}; the row there has {wanted}"),
        );
    }
    let (half, is, wanted) = if !wanted.high.covers(&is.high) {
        (
            "high",
            RangeText::bytes(is.high),
            RangeText::bytes(wanted.high),
        )
    } else {
        (
            "low",
            RangeText::bytes(is.low),
            RangeText::bytes(wanted.low),
        )
    };
    add_line(
        text,
        format_args!(
            "goes to {to} with {is} as the {half} byte of {name}; the row there has {wanted}"
        ),
    )
}

/// Adds a fact of a target that does not follow.
fn add_fact(
    text: &mut String,
    with: &Wording,
    to: NamedAddress,
    fact: &Linear,
    before: &AbsState,
    facts: &[Linear],
) -> Result<(), FlowFault> {
    let alloc = with.alloc;
    let equation = fact_text(alloc, fact)?;
    let mut given = String::new(alloc);
    for own in facts {
        given.push_str(if given.is_empty() { "" } else { ", " })?;
        given.push_str(fact_text(alloc, own)?.as_str())?;
    }
    if given.is_empty() {
        given.push_str("no fact")?;
    }
    let mut values = String::new(alloc);
    for term in fact.terms() {
        let range = loop_bounds::Ranges::range(before, term.variable);
        let name = named_annotations::variable_name(alloc, term.variable)?;
        let is = RangeText::of(&term.variable, range);
        values.push_str(if values.is_empty() { "" } else { ", " })?;
        write!(values, "{name} {is}")?;
    }
    add_line(
        text,
        format_args!(
            "goes to {to}, whose fact {equation} does not follow: before the step {given}; {values}"
        ),
    )
}

/// The rows at the target of a successor, with the annotated facts there.
///
/// # Errors
///
/// `NoMemory` where memory was refused.
pub fn rows_at(
    with: &Wording,
    explored: &Explored,
    proc: u32,
    address: u16,
) -> Result<Vec<TargetRow>, FlowFault> {
    let mut rows = Vec::new(with.alloc);
    for number in explored.rows_at(with.alloc, proc, address)? {
        if let Some(state) = explored.state(number) {
            let facts = facts_of(with, explored, address, state.shape.len())?;
            rows.push(TargetRow { state, facts })?;
        }
    }
    Ok(rows)
}

/// The annotated facts of an address, for a row with this many slots.
///
/// # Errors
///
/// `NoMemory` where memory was refused.
pub fn facts_of(
    with: &Wording,
    explored: &Explored,
    address: u16,
    slots: usize,
) -> Result<Vec<Linear>, FlowFault> {
    let mut facts = Vec::new(with.alloc);
    for note in analysis::facts_at(explored.task.said().facts(), address) {
        if stays_within(&note.fact, slots) {
            facts.push(note.fact)?;
        }
    }
    Ok(facts)
}

/// The procedure to which a successor leads.
pub fn proc_of_next(row: u64, next: &Next) -> u32 {
    match next.kind {
        NextKind::Call => analysis::sub_of(next.address),
        NextKind::Jump | NextKind::Exit => ContextPoint::of(row).proc,
    }
}
