// An analysis that goes on from the rows of another one: something that a plan distinguishes is added or dropped, and
// only what it distinguishes is computed again.

use crate::lowering::{first_class, lowered_at};
use analysis::{FlowFault, MAIN, NMI};
use inferred_rows::ContextPoint;
use judged_rows::ArrivingKind;
use row_worklist::{RowEdge, Setting, Watch, Worklist};
use std::alloc::Global;
use std::collections::BTreeSet;

/// Where a split begins and ends, or where an inline call is. If the two are the same, it has no end.
#[derive(Clone, Copy)]
pub struct SplitReach {
    pub at: u16,
    pub until: u16,
    /// Whether a split has further parts, after those that it had. Then all rows stay, and those that dropped a state
    /// lead on.
    pub is_longer: bool,
}

/// What comes of the rows of another analysis, with these steps between them, if what a plan says of these reaches
/// changes. The rows at the address of a reach, and those to which they lead within their procedures up to its end,
/// are computed again, and so are the procedures that only they call. The others stay, though less might come to
/// them now. In at most `visits` visits of rows. A watched row that is refused ends the analysis.
///
/// # Errors
///
/// `Limit` if there are more than 65,535 rows or 1,024 procedures, the visits do not suffice, or a watched row is
/// refused; `NoMemory` where memory was refused.
pub fn resumed(
    alloc: Global,
    setting: Setting,
    visits: u32,
    before: &Worklist,
    edges: &[RowEdge],
    reaches: &[SplitReach],
    watched: Watch,
) -> Result<Box<Worklist>, FlowFault> {
    let lost = lost_rows(alloc, before, edges, reaches)?;
    let mut list = without_rows(alloc, setting, before, edges, &lost)?;
    list.watch(watched);
    if reaches.iter().any(|reach| reach.is_longer) {
        wake_dropping(&mut list, before)?;
    }
    for _ in 0..visits {
        match list.take_waiting() {
            Some(number) => list.visit(alloc, setting, number)?,
            None => return lowered_anew(alloc, setting, list, before, &lost),
        }
    }
    Err(FlowFault::Limit)
}

/// What comes of the rows of another analysis, with these steps between them, where a fact of the rows at an address
/// is missing. These rows are computed again, and all that change with them: without the fact no row has less. In at
/// most `visits` visits of rows. A row that is refused ends the analysis. What was widened is not lowered.
///
/// # Errors
///
/// As for `resumed`.
pub fn loosened(
    alloc: Global,
    setting: Setting,
    visits: u32,
    before: &Worklist,
    edges: &[RowEdge],
    at: u16,
) -> Result<Box<Worklist>, FlowFault> {
    let mut lost = BTreeSet::new(alloc);
    for (number, _) in before.rows().iter() {
        if ContextPoint::of(*number).address == at {
            lost.insert(*number)?;
        }
    }
    let mut list = without_rows(alloc, setting, before, edges, &lost)?;
    list.watch(Watch::Everything);
    for _ in 0..visits {
        match list.take_first() {
            Some(number) => list.visit(alloc, setting, number)?,
            None => return Ok(list),
        }
    }
    Err(FlowFault::Limit)
}

/// The rows of another analysis without those that are lost. The rows that lead to lost ones wait.
fn without_rows(
    alloc: Global,
    setting: Setting,
    before: &Worklist,
    edges: &[RowEdge],
    lost: &BTreeSet<u64>,
) -> Result<Box<Worklist>, FlowFault> {
    let judged = before.judged_rows().shared(setting.task)?;
    let mut list = Worklist::empty(alloc, setting, judged)?;
    list.keep_rows(setting, before, lost)?;
    list.begin_entries(alloc, setting)?;
    for edge in edges {
        if lost.contains(&edge.to) && !lost.contains(&edge.from) {
            list.wake(edge.from)?;
        }
    }
    Ok(list)
}

/// Lets the rows wait that dropped a state in another analysis.
fn wake_dropping(list: &mut Worklist, before: &Worklist) -> Result<(), FlowFault> {
    for (number, row) in before.rows().iter() {
        if row.drops && list.rows().contains_key(number) {
            list.wake(*number)?;
        }
    }
    Ok(())
}

/// What two rounds without widening leave of the rows that were computed again, if a bound of one of them was
/// widened.
fn lowered_anew(
    alloc: Global,
    setting: Setting,
    list: Box<Worklist>,
    before: &Worklist,
    lost: &BTreeSet<u64>,
) -> Result<Box<Worklist>, FlowFault> {
    let mut places = BTreeSet::new(alloc);
    let mut is_widened = false;
    for (number, row) in list.rows().iter() {
        if lost.contains(number) || !before.rows().contains_key(number) {
            places.insert(first_class(*number))?;
            is_widened = is_widened || row.is_widened();
        }
    }
    if is_widened {
        lowered_at(alloc, setting, list, Some(&places))
    } else {
        Ok(list)
    }
}

/// The rows at the addresses of reaches, those to which they lead within their procedures up to their ends, and the
/// rows of procedures that are called from the addresses of reaches alone.
fn lost_rows(
    alloc: Global,
    before: &Worklist,
    edges: &[RowEdge],
    reaches: &[SplitReach],
) -> Result<BTreeSet<u64>, FlowFault> {
    let mut lost = BTreeSet::new(alloc);
    for reach in reaches {
        if !reach.is_longer {
            lose_reach(alloc, before, edges, *reach, &mut lost)?;
        }
    }
    let procs = called_elsewhere(alloc, before, reaches)?;
    for (number, _) in before.rows().iter() {
        if !procs.contains(&ContextPoint::of(*number).proc) {
            lost.insert(*number)?;
        }
    }
    Ok(lost)
}

/// Adds the rows at the address of a reach, and those to which they lead within their procedures up to its end.
fn lose_reach(
    alloc: Global,
    before: &Worklist,
    edges: &[RowEdge],
    reach: SplitReach,
    lost: &mut BTreeSet<u64>,
) -> Result<(), FlowFault> {
    let mut todo = Vec::new(alloc);
    for (number, _) in before.rows().iter() {
        if ContextPoint::of(*number).address == reach.at && lost.insert(*number)? {
            todo.push(*number)?;
        }
    }
    for _ in 0..before.rows().len() {
        let Some(number) = todo.pop() else {
            break;
        };
        for edge in edges_from(edges, number) {
            let is_end = reach.until != reach.at
                && ContextPoint::of(edge.to).address == reach.until;
            if edge.kind != ArrivingKind::Call && !is_end && lost.insert(edge.to)? {
                todo.push(edge.to)?;
            }
        }
    }
    Ok(())
}

/// Main, the NMI routine, and the procedures that they call, by way of others too, but not from the addresses of
/// reaches.
fn called_elsewhere(
    alloc: Global,
    before: &Worklist,
    reaches: &[SplitReach],
) -> Result<BTreeSet<u32>, FlowFault> {
    let mut procs = BTreeSet::new(alloc);
    procs.insert(MAIN)?;
    procs.insert(NMI)?;
    let calls = before.calls(alloc)?;
    for _ in 0..calls.len() {
        let mut is_more = false;
        for (callee, number) in calls.as_slice() {
            let caller = ContextPoint::of(*number);
            let is_at_reach = reaches
                .iter()
                .any(|reach| reach.at == caller.address && !reach.is_longer);
            if !is_at_reach && procs.contains(&caller.proc) && procs.insert(*callee)? {
                is_more = true;
            }
        }
        if !is_more {
            break;
        }
    }
    Ok(procs)
}

/// The steps from a row, of steps that are sorted by the rows that they leave.
fn edges_from(edges: &[RowEdge], number: u64) -> &[RowEdge] {
    let first = edges.partition_point(|edge| edge.from < number);
    let after = edges.partition_point(|edge| edge.from <= number);
    match edges.get(first..after) {
        Some(edges) => edges,
        None => &[],
    }
}
