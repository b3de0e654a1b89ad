// Steps to annotated facts that do not follow there.

use crate::situation::all_follow;
use analysis::{FlowFault, facts_at};
use annotations::FactNote;
use cert_fields::stays_within;
use inferred_rows::ContextPoint;
use loop_bounds::Linear;
use row_worklist::{RowEdge, Worklist};
use std::alloc::Global;

/// The rows of an analysis, and the steps between them.
#[derive(Clone, Copy)]
pub struct RowSteps<'s> {
    pub list: &'s Worklist,
    pub edges: &'s [RowEdge],
}

/// The rows from which a step leads to one of the wanted facts that does not follow there from the given ones, rising.
/// Both lists are sorted by address.
///
/// # Errors
///
/// `NoMemory` where memory was refused.
pub fn unshown_rows(
    alloc: Global,
    steps: RowSteps,
    given: &[FactNote],
    wanted: &[FactNote],
) -> Result<Vec<u64>, FlowFault> {
    let mut rows = Vec::new(alloc);
    if wanted.is_empty() {
        return Ok(rows);
    }
    for edge in steps.edges {
        if !is_shown(alloc, steps, edge, given, wanted)? {
            rows.push(edge.from)?;
        }
    }
    rows.sort_unstable();
    rows.dedup();
    Ok(rows)
}

/// The addresses to which a row leads and whose given facts do not follow there, rising.
///
/// # Errors
///
/// `NoMemory` where memory was refused.
pub fn unshown_after(
    alloc: Global,
    steps: RowSteps,
    given: &[FactNote],
    row: u64,
) -> Result<Vec<u16>, FlowFault> {
    let mut found = Vec::new(alloc);
    for edge in steps.edges {
        if edge.from == row && !is_shown(alloc, steps, edge, given, given)? {
            found.push(ContextPoint::of(edge.to).address)?;
        }
    }
    found.sort_unstable();
    found.dedup();
    Ok(found)
}

/// The addresses whose facts do not follow any more without the facts at an address, rising, with that address.
///
/// # Errors
///
/// `NoMemory` where memory was refused.
pub fn falling_with(
    alloc: Global,
    steps: RowSteps,
    given: &[FactNote],
    first: u16,
) -> Result<Vec<u16>, FlowFault> {
    let mut gone = Vec::new(alloc);
    gone.push(first)?;
    for _ in 0..given.len() {
        let before = gone.len();
        add_falling(alloc, steps, given, &mut gone)?;
        if gone.len() == before {
            break;
        }
    }
    gone.sort_unstable();
    Ok(gone)
}

/// Adds the addresses whose facts do not follow at a step from an address whose facts are gone.
fn add_falling(
    alloc: Global,
    steps: RowSteps,
    given: &[FactNote],
    gone: &mut Vec<u16>,
) -> Result<(), FlowFault> {
    for edge in steps.edges {
        let (from, to) = (ContextPoint::of(edge.from), ContextPoint::of(edge.to));
        let may_fall = gone.contains(&from.address) && !gone.contains(&to.address);
        if may_fall && !is_shown(alloc, steps, edge, &[], given)? {
            gone.push(to.address)?;
        }
    }
    Ok(())
}

/// Whether each wanted fact of the address to which a step leads follows from the given ones before the step.
fn is_shown(
    alloc: Global,
    steps: RowSteps,
    edge: &RowEdge,
    given: &[FactNote],
    wanted: &[FactNote],
) -> Result<bool, FlowFault> {
    let (from, to) = (ContextPoint::of(edge.from), ContextPoint::of(edge.to));
    let asked = facts_at(wanted, to.address);
    if asked.is_empty() {
        return Ok(true);
    }
    let (Some(before), Some(after)) = (steps.list.row(edge.from), steps.list.row(edge.to)) else {
        return Ok(true);
    };
    let asked = facts_for(alloc, asked, after.state.shape.len())?;
    let known = facts_for(
        alloc,
        facts_at(given, from.address),
        before.state.shape.len(),
    )?;
    Ok(all_follow(&known, &before.state, &edge.effect, &asked))
}

/// The facts that a row with this many slots can have.
fn facts_for(alloc: Global, notes: &[FactNote], slots: usize) -> Result<Vec<Linear>, FlowFault> {
    let mut facts = Vec::new(alloc);
    for note in notes {
        if stays_within(&note.fact, slots) {
            facts.push(note.fact)?;
        }
    }
    Ok(facts)
}
