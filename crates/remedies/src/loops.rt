// Remedies for the time of loops.

use crate::case::Case;
use crate::looking::{Remedy, has_plain_form};
use analysis::FlowFault;
use annotations::Annotations;
use explored_plans::{ExploredPlan, Family, Search};
use plan_flow::{with_counters, with_other_bounds};
use tried_notes::{add_loop, added_of, is_bounded, merged, only_loops};

/// The counters of loops, that of a loop which is unbounded at an address among them.
///
/// # Errors
///
/// `NoMemory` where memory was refused.
pub fn for_loop(case: &Case, search: &mut Search, at: u16) -> Result<Remedy, FlowFault> {
    let mut is_found = false;
    for plan in with_counters(search)? {
        let Some(other) = search.try_plan(plan)? else {
            continue;
        };
        let remedy = counted(case, &other, at)?;
        if !matches!(&remedy, Remedy::Unknown) {
            return Ok(remedy);
        }
        is_found = true;
    }
    match for_time(case, search, at)? {
        Remedy::Unknown if is_found => Ok(Remedy::Unknown),
        remedy => Ok(remedy),
    }
}

/// The counters that a plan has, as a remedy: all that go down, those of the loops around an address, or all notes of
/// the plan.
fn counted(case: &Case, other: &ExploredPlan, at: u16) -> Result<Remedy, FlowFault> {
    let all = falling_loops(case, other, None)?;
    if is_bounded_with(case, &all, at)? {
        return Ok(Remedy::Notes(all));
    }
    let own = falling_loops(case, other, Some(at))?;
    if is_bounded_with(case, &own, at)? {
        return Ok(Remedy::Notes(own));
    }
    let added = added_of(case.alloc, case.said, &other.said)?;
    if has_plain_form(other) && is_bounded_with(case, &added, at)? {
        return Ok(Remedy::Notes(added));
    }
    Ok(Remedy::Unknown)
}

/// Whether the loop at an address is bounded with further notes.
fn is_bounded_with(case: &Case, notes: &Annotations, at: u16) -> Result<bool, FlowFault> {
    let said = merged(case.alloc, case.said, notes)?;
    is_bounded(case.alloc, case.bytes, &said, at)
}

/// The counters of a plan that go down: those of all loops, or of the loops around an address.
fn falling_loops(
    case: &Case,
    other: &ExploredPlan,
    around: Option<u16>,
) -> Result<Annotations, FlowFault> {
    let mut own = Vec::new(case.alloc);
    for finding in other.plan.findings.as_slice() {
        if let Family::Loop(note) = &finding.family {
            let is_asked = match around {
                Some(at) => case.is_around(note.at, at)?,
                None => true,
            };
            if is_asked && !note.rises {
                add_loop(&mut own, note)?;
            }
        }
    }
    Ok(only_loops(case.alloc, case.said, own))
}

/// Another bound of a loop around an address, for its time.
pub(crate) fn for_time(
    case: &Case,
    search: &mut Search,
    address: u16,
) -> Result<Remedy, FlowFault> {
    for plan in with_other_bounds(search, address)? {
        let Some(other) = search.try_plan(plan)? else {
            continue;
        };
        let added = added_of(case.alloc, case.said, &other.said)?;
        let said = merged(case.alloc, case.said, &added)?;
        let is_plain = has_plain_form(&other);
        if is_plain && is_bounded(case.alloc, case.bytes, &said, address)? {
            return Ok(Remedy::Notes(added));
        }
    }
    Ok(Remedy::Unknown)
}
