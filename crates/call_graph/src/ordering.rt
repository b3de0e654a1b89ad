// The order of procedures by their calls.
ghost use Rattle.std.specs.Prelude.{ℕ, List, IfOk, IfErr, OnOk};
ghost use Rattle.call_graph.specs.Calls.{IsCallOrder, IsCycle, IsFaultOf};
ghost use Rattle.call_graph.specs.Cycle.{IsLowestStart};
ghost use Rattle.call_graph.specs.Walk.{AreGrouped, ByCall, ByCaller};

use crate::cycle::cycle_through;
use crate::edge::{Edge, ProcId};
use crate::fault::GraphFault;
use crate::walk::Walk;
use std::alloc::{AllocError, Global};

/// The procedures of these calls, each once, and each callee before its callers (docs/CALLS.md, "The order").
///
/// # Errors
///
/// Cycle if the call graph has a cycle. The reported one is a shortest cycle through the lowest procedure that lies on
/// any, and the lowest of those, read in order. NoMemory if memory is refused.
pub fn order(alloc: Global, edges: &[Edge]) -> Result<Vec<ProcId>, GraphFault>
    ensures order { IfOk result (λ list. IsCallOrder edges.now list.items) }
    ensures acyclic { OnOk result ((list : List ℕ) → ¬ (IsCycle edges.now list)) }
    ensures fault { IfErr result (IsFaultOf edges.now) }
{
    let Ok(mut calls) = Vec::from_slice(alloc, edges) else {
        return Err(GraphFault::NoMemory);
    };
    calls.sort_unstable();
    order_by_caller(alloc, &calls)
}

/// The order for calls that are sorted by caller, then by callee.
fn order_by_caller(alloc: Global, calls: &[Edge]) -> Result<Vec<ProcId>, GraphFault>
    requires { ByCall calls.now }
    ensures order { IfOk result (λ list. IsCallOrder calls.now list.items) }
    ensures fault { IfErr result (IsFaultOf calls.now) }
{
    let Ok(walk) = walk_along(alloc, calls) else {
        return Err(GraphFault::NoMemory);
    };
    match walk.first_within(calls) {
        Some(start) => Err(cycle_fault(alloc, calls, start)),
        None => Ok(walk.order),
    }
}

/// A walk from each caller. The calls must be sorted by caller.
fn walk_along(alloc: Global, calls: &[Edge]) -> Result<Walk, AllocError>
    requires { ByCaller calls.now }
    ensures { IfOk result (AreGrouped calls.now) }
{
    let mut walk = Walk::new(alloc)?;
    for edge in calls {
        walk.visit(calls, edge.caller)?;
    }
    Ok(walk)
}

/// The fault with the lowest of the shortest cycles through `start`, which must be the lowest procedure on a cycle.
fn cycle_fault(alloc: Global, calls: &[Edge], start: ProcId) -> GraphFault
    requires rising { ByCall calls.now }
    requires lowest { IsLowestStart calls.now start }
    ensures { IsFaultOf calls.now result }
{
    match cycle_through(alloc, calls, start) {
        Ok(Some(cycle)) => GraphFault::Cycle(cycle),
        Ok(None) => unreachable!(),
        Err(_) => GraphFault::NoMemory,
    }
}
