// What an inferring analysis found, for the writer of certificates.

use abs_state::AbsState;
use analysis::{Flow, FlowFault, Noted, ProgramPoint, facts_at};
use annotations::FactNote;
use cert_fields::{Facts, stays_within};
use inferred_rows::{ContextPoint, InferredRow, speaks_of};
use loop_bounds::Linear;
use row_worklist::{Setting, Worklist};
use std::alloc::Global;
use std::collections::BTreeMap;

/// What an analysis found, for the writer of certificates. Rows at one address of a procedure count as its parts.
///
/// # Errors
///
/// `Limit` if there are more than 65,535 rows at an address; `NoMemory` where memory was refused.
pub fn flow_of(alloc: Global, setting: Setting, list: Box<Worklist>) -> Result<Flow, FlowFault> {
    let mut numbers = BTreeMap::new(alloc);
    let mut rows = BTreeMap::new(alloc);
    let mut facts = BTreeMap::new(alloc);
    let mut last = None;
    let mut part = 0u16;
    for (number, row) in list.rows().iter() {
        let point = ContextPoint::of(*number);
        let here = Some((point.proc, point.address));
        part = if here == last {
            part.checked_add(1).ok_or(FlowFault::Limit)?
        } else {
            0
        };
        last = here;
        let place = ProgramPoint {
            part,
            ..point.plain()
        }
        .number();
        numbers.insert(*number, place)?;
        rows.insert(place, noted_of(row, list.exit_at(*number)))?;
        let said = facts_at(setting.task.said().facts(), point.address);
        let own = setting.guide.facts_of(*number);
        if !(said.is_empty() && own.is_empty()) {
            let all = all_facts(said, point.part, own, row.state.shape.len());
            facts.insert(place, all)?;
        }
    }
    let mut calls = Vec::new(alloc);
    for (callee, number) in list.calls(alloc)? {
        if let Some(place) = numbers.get(&number) {
            calls.push((callee, *place))?;
        }
    }
    let (entries, timed) = Box::into_inner(list).into_procedures();
    Flow::of(alloc, rows, facts, entries, &calls, timed)
}

/// The annotated facts of a row of a part, with this many slots, and those found for it, four at most.
fn all_facts(said: &[FactNote], part: u16, own: &[Linear], slots: usize) -> Facts {
    let mut facts = Facts::none();
    for note in said {
        if speaks_of(note, part) && stays_within(&note.fact, slots) {
            let _room = facts.push(note.fact);
        }
    }
    for fact in own {
        let _room = facts.push(*fact);
    }
    facts
}

/// A row for the writer of certificates, and the state in which it leaves its procedure, if it does.
fn noted_of(row: &InferredRow, exit: Option<&AbsState>) -> Noted {
    let exit = match exit {
        Some(exit) => Some(exit.copied()),
        None => None,
    };
    Noted::of(
        row.state.copied(),
        exit,
        row.reason,
        row.bytes,
        row.parts.copied(),
    )
}
