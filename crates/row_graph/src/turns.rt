// The states at the head of a loop, turn by turn.

use crate::local_run::{LocalRow, LocalRun, send};
use crate::natural_loop::NaturalLoop;
use abs_state::AbsState;
use abs_step::NextKind;
use analysis::{FlowFault, Task, joined};
use inferred_rows::ContextPoint;
use row_worklist::Worklist;
use std::alloc::Global;

/// The most steps of one turn.
const STEPS: u32 = 3_000;

/// The most turns of a loop of more than eight addresses, and of another.
const TURNS: u16 = 130;

const TURNS_OF_SHORT: u16 = 260;

/// The states at the head of a loop turn by turn, from the states that enter it; None if it has too many turns.
///
/// # Errors
///
/// `NoMemory` where memory was refused.
pub fn turns_of(
    alloc: Global,
    task: &Task,
    list: &Worklist,
    proc: u32,
    of: &NaturalLoop,
) -> Result<Option<Vec<AbsState>>, FlowFault> {
    let Some(mut state) = entering(alloc, task, list, proc, of)? else {
        return Ok(None);
    };
    let most = if of.body.len() <= 8 {
        TURNS_OF_SHORT
    } else {
        TURNS
    };
    let mut turns = Vec::new(alloc);
    for _ in 0..most {
        turns.push(state.copied())?;
        match one_turn(alloc, task, list, proc, of, &state)? {
            Turn::Again(next) => state = next,
            Turn::Last => return Ok(Some(turns)),
            Turn::TooLong => return Ok(None),
        }
    }
    Ok(None)
}

/// What comes after a turn.
#[derive(Drop)]
enum Turn {
    /// The state at the head in the next turn.
    Again(AbsState),
    /// No further turn.
    Last,
    TooLong,
}

/// Joins a state to those before. States that cannot be joined leave the last of them.
fn join_into(found: &mut Option<AbsState>, other: &AbsState, cells: usize) {
    let both = match found {
        Some(one) => joined(one, other, cells),
        None => None,
    };
    *found = match both {
        Some(both) => Some(both),
        None => Some(other.copied()),
    };
}

/// The join of the states that enter a loop.
fn entering(
    alloc: Global,
    task: &Task,
    list: &Worklist,
    proc: u32,
    of: &NaturalLoop,
) -> Result<Option<AbsState>, FlowFault> {
    let cells = task.cells().len();
    let mut found = None;
    for (number, row) in list
        .rows()
        .range(ContextPoint::first_of(proc)..=ContextPoint::last_of(proc))
    {
        let point = ContextPoint::of(*number);
        if of.contains(point.address) {
            continue;
        }
        let mut sent = Vec::new(alloc);
        let place = ContextPoint::at(proc, point.address);
        send(alloc, task, list, place, &row.state, &row.parts, &mut sent)?;
        for (to, next) in sent {
            if to == of.head {
                join_into(&mut found, &next.state, cells);
            }
        }
    }
    for caller in list.callers_of(alloc, proc)? {
        if let Some(row) = list.row(caller) {
            let judged = list.judged_row_at(alloc, task, caller, row)?;
            if let Some(nexts) = &judged.as_ref().nexts {
                for next in nexts.as_slice() {
                    if next.kind == NextKind::Call && next.address == of.head {
                        join_into(&mut found, &next.state.callee(), cells);
                    }
                }
            }
        }
    }
    Ok(found)
}

/// One turn of a loop from a state at its head.
fn one_turn(
    alloc: Global,
    task: &Task,
    list: &Worklist,
    proc: u32,
    of: &NaturalLoop,
    state: &AbsState,
) -> Result<Turn, FlowFault> {
    let cells = task.cells().len();
    let mut run = LocalRun::new(alloc, task, list, proc);
    run.arrive(alloc, of.head, LocalRow::of(state))?;
    let mut again = None;
    for _ in 0..STEPS {
        let Some(address) = run.take_waiting() else {
            return Ok(match again {
                Some(state) => Turn::Again(state),
                None => Turn::Last,
            });
        };
        for (to, next) in run.sent(alloc, address)? {
            if to == of.head {
                join_into(&mut again, &next.state, cells);
            } else if of.contains(to) {
                run.arrive(alloc, to, next)?;
            }
        }
    }
    Ok(Turn::TooLong)
}
