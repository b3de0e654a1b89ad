// The order of procedures by their calls, with the ranks and depths that follow from it.

use crate::fault::WriterFault;
use crate::layout::Layout;
use analysis::{Flow, MAIN, ProgramPoint};
use call_graph::{Edge, GraphFault, ProcId, order};
use std::alloc::Global;

/// A call, and the bytes of stack of the calling activation then.
#[derive(Clone, Copy)]
pub(crate) struct Holding {
    pub(crate) caller: ProcId,
    pub(crate) callee: ProcId,
    pub(crate) bytes: u32,
}

/// The bytes of stack of an activation: those of its slots and, except for main, two for its return address.
fn bytes_of(proc: u32, slots: u16) -> u32 {
    let slots = u32::from(slots);
    if proc == MAIN {
        slots
    } else {
        slots.saturating_add(2)
    }
}

pub(crate) fn calls_of(
    alloc: Global,
    flow: &Flow,
    layout: &Layout,
) -> Result<Vec<Holding>, WriterFault> {
    let mut calls = Vec::new(alloc);
    for (callee, number) in flow.calls(alloc)? {
        if let Some(row) = flow.row(number) {
            let place = ProgramPoint::of(number);
            calls.push(Holding {
                caller: layout.id_of(place.proc),
                callee: layout.id_of(callee),
                bytes: bytes_of(place.proc, row.state.shape.bytes()),
            })?;
        }
    }
    Ok(calls)
}

/// The procedures, each once and after those that it calls.
pub(crate) fn procs_in_order(
    alloc: Global,
    layout: &Layout,
    calls: &[Holding],
) -> Result<Vec<ProcId>, WriterFault> {
    let mut edges = Vec::new(alloc);
    for call in calls {
        edges.push(Edge {
            caller: call.caller,
            callee: call.callee,
        })?;
    }
    match order(alloc, &edges) {
        Ok(procs) => with_others(alloc, layout.count(), &procs),
        Err(GraphFault::NoMemory) => Err(WriterFault::NoMemory),
        Err(GraphFault::Cycle(procs)) => {
            let mut entries = Vec::new(alloc);
            for proc in procs {
                entries.push(layout.entry_at(usize::from(proc)))?;
            }
            Err(WriterFault::Recursion(entries))
        }
    }
}

/// The procedures that are not in the order, and then those that are.
fn with_others(
    alloc: Global,
    count: usize,
    ordered: &[ProcId],
) -> Result<Vec<ProcId>, WriterFault> {
    let mut stands = vec![in alloc; false; count]?;
    for proc in ordered {
        if let Some(place) = stands.get_mut(usize::from(*proc)) {
            *place = true;
        }
    }
    let mut procs = Vec::new(alloc);
    for proc in 0..count {
        if stands.get(proc).copied() == Some(false) {
            procs.push(proc.min(65_535) as u16)?;
        }
    }
    for proc in ordered {
        procs.push(*proc)?;
    }
    Ok(procs)
}

/// The rank of a procedure, and the bytes of stack that it and its callees need.
#[derive(Clone, Copy)]
pub(crate) struct RankedDepth {
    pub(crate) rank: u16,
    pub(crate) depth: u32,
}

/// The rank and the depth of each procedure. In the order each comes after those that it calls.
pub(crate) fn under_all(
    alloc: Global,
    flow: &Flow,
    layout: &Layout,
    calls: &[Holding],
    procs: &[ProcId],
) -> Result<Vec<RankedDepth>, WriterFault> {
    let mut all = own_bytes(alloc, flow, layout)?;
    let mut sorted = Vec::from_slice(alloc, calls)?;
    sorted.sort_unstable_by_key(|call| call.caller);
    for proc in procs {
        for call in calls_from(&sorted, *proc) {
            add_call(&mut all, call);
        }
    }
    Ok(all)
}

/// The calls of a procedure, out of calls that are sorted by their callers.
fn calls_from(calls: &[Holding], proc: ProcId) -> &[Holding] {
    let start = calls
        .partition_point(|call| call.caller < proc)
        .min(calls.len());
    let behind = &calls[start..];
    let count = behind
        .partition_point(|call| call.caller <= proc)
        .min(behind.len());
    &behind[..count]
}

/// Rank 0 and, as the depth, the most bytes of stack that the rows of each procedure and their successors have.
fn own_bytes(alloc: Global, flow: &Flow, layout: &Layout) -> Result<Vec<RankedDepth>, WriterFault> {
    let mut all = vec![in alloc; RankedDepth { rank: 0, depth: 0 }; layout.count()]?;
    for (number, row) in flow.rows().iter() {
        let proc = ProgramPoint::of(*number).proc;
        let bytes = bytes_of(proc, row.bytes);
        if let Some(under) = all.get_mut(usize::from(layout.id_of(proc))) {
            under.depth = under.depth.max(bytes);
        }
    }
    Ok(all)
}

/// Raises the rank and depth of a caller by those of its callee.
fn add_call(all: &mut [RankedDepth], call: &Holding) {
    let Some(callee) = all.get(usize::from(call.callee)).copied() else {
        return;
    };
    if let Some(caller) = all.get_mut(usize::from(call.caller)) {
        caller.rank = caller.rank.max(callee.rank.saturating_add(1));
        caller.depth = caller.depth.max(callee.depth.saturating_add(call.bytes));
    }
}
