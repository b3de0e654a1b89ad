// The order of 65,535 calls between 1,024 procedures, without a cycle and with one.

use call_graph::{Edge, GraphFault, ProcId, order};
use std::alloc::{AllocError, Global};

const PROCS: u16 = 1024;

/// The number of calls.
pub const CALLS: usize = 65_535;

/// `count` calls from procedures to later ones, the nearest first. Each procedure but the last calls the next one, so
/// the only order is 1023 to 0.
pub fn calls_down(alloc: Global, count: usize) -> Result<Vec<Edge>, AllocError> {
    let mut calls = Vec::new(alloc);
    for distance in 1..PROCS {
        add_calls(&mut calls, distance, count)?;
    }
    Ok(calls)
}

/// Adds the calls over this distance, up to `count` calls in total.
fn add_calls(calls: &mut Vec<Edge>, distance: u16, count: usize) -> Result<(), AllocError> {
    for caller in 0..PROCS.saturating_sub(distance) {
        if calls.len() >= count {
            return Ok(());
        }
        calls.push(Edge {
            caller,
            callee: caller + distance,
        })?;
    }
    Ok(())
}

/// The same with a cycle: 1023 calls 1022, which calls it. No lower procedure is on a cycle.
pub fn calls_with_cycle(alloc: Global) -> Result<Vec<Edge>, AllocError> {
    let mut calls = calls_down(alloc, CALLS - 1)?;
    calls.push(Edge {
        caller: PROCS - 1,
        callee: PROCS - 2,
    })?;
    Ok(calls)
}

/// The number of procedures in the answer, and the first and last of them.
fn ends(list: &[ProcId]) -> (usize, ProcId, ProcId) {
    (
        list.len(),
        list.first().copied().unwrap_or(0),
        list.last().copied().unwrap_or(0),
    )
}

/// The answer for these calls, computed `times` times.
pub fn answer(alloc: Global, calls: &[Edge], times: u64) -> (usize, ProcId, ProcId) {
    let mut last = (0, 0, 0);
    for _ in 0..times {
        last = match order(alloc, calls) {
            Ok(list) | Err(GraphFault::Cycle(list)) => ends(&list),
            Err(GraphFault::NoMemory) => (0, 0, 0),
        };
    }
    last
}
