// Rounds without widening, after the fixpoint: they lower what a widening raised too far.

use analysis::FlowFault;
use inferred_rows::ContextPoint;
use row_worklist::{
    Findings, Setting, Worklist, bytes_of, parts_told, space_after, state_at_exit, told_by,
};
use std::alloc::Global;
use std::collections::BTreeSet;
use std::rc::Rc;

/// A place to which a row sends a state, and the row.
type Sending = (u64, u64);

/// Which rows a round computes again: those at some places, from the rows that send something there. None stands for
/// all rows.
#[derive(Clone, Copy)]
struct Scope<'r> {
    places: Option<&'r BTreeSet<u64>>,
    senders: Option<&'r BTreeSet<u64>>,
}

/// Whether a set has a number; no set stands for that of all numbers.
fn is_among(numbers: Option<&BTreeSet<u64>>, number: u64) -> bool {
    match numbers {
        Some(numbers) => numbers.contains(&number),
        None => true,
    }
}

/// The number of the first row at the place of a row.
pub(crate) fn first_class(number: u64) -> u64 {
    ContextPoint {
        class: 0,
        ..ContextPoint::of(number)
    }
    .number()
}

/// What two rounds without widening leave, if some bound was widened.
pub(crate) fn lowered_if_widened(
    alloc: Global,
    setting: Setting,
    list: Box<Worklist>,
) -> Result<Box<Worklist>, FlowFault> {
    if !list.rows().iter().any(|(_, row)| row.is_widened()) {
        return Ok(list);
    }
    lowered_at(alloc, setting, list, None)
}

/// What two rounds without widening leave of the rows at some places, or of all rows.
pub(crate) fn lowered_at(
    alloc: Global,
    setting: Setting,
    list: Box<Worklist>,
    places: Option<&BTreeSet<u64>>,
) -> Result<Box<Worklist>, FlowFault> {
    let mut sendings = Vec::new(alloc);
    let scope = Scope {
        places,
        senders: None,
    };
    let once = lowered(alloc, setting, &list, scope, &mut sendings)?;
    let mut twice = lowered_again(alloc, setting, once, &list, places, &sendings)?;
    judge(alloc, setting, &mut twice, &list)?;
    Ok(twice)
}

/// The second round. Only rows to which a row sends that the first round changed are computed again.
fn lowered_again(
    alloc: Global,
    setting: Setting,
    once: Box<Worklist>,
    before: &Worklist,
    places: Option<&BTreeSet<u64>>,
    sendings: &[Sending],
) -> Result<Box<Worklist>, FlowFault> {
    let changed = changed_rows(alloc, &once, before)?;
    let mut again = BTreeSet::new(alloc);
    for (to, from) in sendings {
        if changed.contains(from) && is_among(places, *to) {
            again.insert(*to)?;
        }
    }
    if again.is_empty() {
        return Ok(once);
    }
    let mut senders = BTreeSet::new(alloc);
    for (to, from) in sendings {
        if again.contains(to) {
            senders.insert(*from)?;
        }
    }
    let scope = Scope {
        places: Some(&again),
        senders: Some(&senders),
    };
    let mut rest = Vec::new(alloc);
    lowered(alloc, setting, &once, scope, &mut rest)
}

/// The rows of an analysis before that differ from those of another one.
fn changed_rows(
    alloc: Global,
    list: &Worklist,
    before: &Worklist,
) -> Result<BTreeSet<u64>, FlowFault> {
    let mut changed = BTreeSet::new(alloc);
    for (number, row) in before.rows().iter() {
        let is_same = match list.rows().get(number) {
            Some(own) => Rc::ptr_eq(own, row) || own.is_like(row),
            None => false,
        };
        if !is_same {
            changed.insert(*number)?;
        }
    }
    Ok(changed)
}

/// One round from the rows found, without widening. What is sent is added to `sendings`.
fn lowered(
    alloc: Global,
    setting: Setting,
    list: &Worklist,
    scope: Scope,
    sendings: &mut Vec<Sending>,
) -> Result<Box<Worklist>, FlowFault> {
    let judged = list.judged_rows().shared(setting.task)?;
    let mut fresh = Worklist::empty(alloc, setting, judged)?;
    keep_outside(&mut fresh, list, scope)?;
    fresh.begin_entries(alloc, setting)?;
    fresh.keep_timed(list)?;
    for (number, row) in list.rows().iter() {
        if !is_among(scope.senders, *number) {
            continue;
        }
        let point = ContextPoint::of(*number);
        let judged = list.judged_row_at(alloc, setting.task, *number, row.as_ref())?;
        fresh.note_calls(alloc, setting, point, judged.as_ref())?;
        let sent = list.sent_by(alloc, setting, point, judged.as_ref())?;
        let step = told_by(setting, *number, row.as_ref(), judged.as_ref());
        for arriving in sent.states.as_slice() {
            let to = first_class(arriving.to.number());
            sendings.push((to, *number))?;
            if is_among(scope.places, to) {
                let space = space_after(setting.manner, &row.space, &step, arriving);
                let told = parts_told(*number, row.as_ref(), &step, arriving);
                let _taken = fresh.take(alloc, setting, arriving, &space, &told, false)?;
            }
        }
    }
    fresh.keep_exits(list)?;
    fresh.rest(alloc);
    Ok(fresh)
}

/// Takes over the rows of another analysis that a round does not compute again, and the calls of those that send
/// nothing in it.
fn keep_outside(list: &mut Worklist, before: &Worklist, scope: Scope) -> Result<(), FlowFault> {
    if let Some(places) = scope.places {
        for (number, row) in before.rows().iter() {
            if !places.contains(&first_class(*number)) {
                list.keep_row(*number, row)?;
            }
        }
    }
    match scope.senders {
        Some(senders) => list.keep_calls(before, senders),
        None => Ok(()),
    }
}

/// Judges each row again that differs from that of an analysis before, and notes what it drops.
fn judge(
    alloc: Global,
    setting: Setting,
    list: &mut Worklist,
    before: &Worklist,
) -> Result<(), FlowFault> {
    let changed = changed_rows(alloc, list, before)?;
    let mut numbers = Vec::new(alloc);
    for (number, _) in list.rows().iter() {
        numbers.push(*number)?;
    }
    for number in numbers.as_slice() {
        match before.row(*number) {
            Some(row) if !changed.contains(number) => {
                let found = Findings {
                    reason: row.reason,
                    bytes: row.bytes,
                    drops: row.drops,
                };
                list.note(alloc, *number, found)?;
            }
            _ => judge_row(alloc, setting, list, *number)?,
        }
    }
    for number in numbers.as_slice() {
        let is_changed = changed.contains(number) || !before.rows().contains_key(number);
        if is_changed || drops_now(list, *number) {
            note_drops(alloc, setting, list, *number)?;
        }
    }
    Ok(())
}

/// Judges a row again, and notes what was found of it but for what it drops.
fn judge_row(
    alloc: Global,
    setting: Setting,
    list: &mut Worklist,
    number: u64,
) -> Result<(), FlowFault> {
    let Some(row) = list.rows().get(&number) else {
        return Ok(());
    };
    let judged = list.judged_row_at(alloc, setting.task, number, row.as_ref())?;
    let found = Findings {
        reason: judged.reason,
        bytes: bytes_of(setting.manner, row.as_ref(), judged.as_ref()),
        drops: row.drops,
    };
    list.note(alloc, number, found)?;
    let _changed = list.leave(number, state_at_exit(setting.manner, judged.as_ref()))?;
    Ok(())
}

/// Whether a row is noted as one that drops a state.
fn drops_now(list: &Worklist, number: u64) -> bool {
    match list.row(number) {
        Some(row) => row.drops,
        None => false,
    }
}

/// Notes whether a state to which a row leads is in no part of a split, or in no row.
fn note_drops(
    alloc: Global,
    setting: Setting,
    list: &mut Worklist,
    number: u64,
) -> Result<(), FlowFault> {
    let Some(row) = list.rows().get(&number) else {
        return Ok(());
    };
    let (reason, bytes) = (row.reason, row.bytes);
    let point = ContextPoint::of(number);
    let judged = list.judged_row_at(alloc, setting.task, number, row.as_ref())?;
    let sent = list.sent_by(alloc, setting, point, judged.as_ref())?;
    let mut drops = !sent.lacking.is_empty();
    for arriving in sent.states.as_slice() {
        if list.number_of(setting.task, arriving).is_none() {
            drops = true;
        }
    }
    let found = Findings {
        reason,
        bytes,
        drops,
    };
    list.note(alloc, number, found)
}
