// The depth of the stack under each procedure.
ghost use Rattle.std.specs.Prelude.{◌≡◌, ℕ, ◌+◌, ◌*◌, ◌<◌, ◌≤◌, ◌^◌, IfErr, IfOk, length, map, slice_index};
ghost use Rattle.call_graph.specs.Calls.{IsFaultOf};
ghost use Rattle.call_graph.specs.Depths.{AreDepths, HaveBytes, ByCaller, Orders, call_at, edge_of_call};

use crate::edge::{Call, Edge, ProcId, first_call};
use crate::fault::GraphFault;
use crate::ordering::order;
use std::alloc::{AllocError, Global};

/// A call, and the bytes on the stack when the callee begins, the return address among them.
#[derive(Clone, Copy, PartialEq, Eq)]
pub struct Held {
    pub caller: ProcId,
    pub callee: ProcId,
    pub held: u32,
}

impl Call for Held {
    ghost called_by = { λ call. call.caller };

    fn caller(&self) -> ProcId {
        self.caller
    }
}

/// The depth in bytes of the stack under each procedure: the least depths that suffice for the procedure's own bytes,
/// and at each of its calls for the bytes held there and the callee's depth (docs/CALLS.md, "The depths"). `own` has
/// the own bytes by procedure number. The errors are those of `order`.
pub fn depths(alloc: Global, own: &[u32], calls: &[Held]) -> Result<Vec<u64>, GraphFault>
    requires { HaveBytes own.now calls.now }
    ensures depths { IfOk result (λ list. AreDepths own.now calls.now list.items) }
    ensures fault { IfErr result (IsFaultOf (map edge_of_call calls.now)) }
{
    let Ok(edges) = edges_of(alloc, calls) else {
        return Err(GraphFault::NoMemory);
    };
    let procs = order(alloc, &edges)?;
    let Ok(mut sorted) = Vec::from_slice(alloc, calls) else {
        return Err(GraphFault::NoMemory);
    };
    sorted.sort_unstable_by_key(|call| call.caller);
    match depths_along(alloc, &procs, own, &sorted) {
        Ok(depths) => Ok(depths),
        Err(_) => Err(GraphFault::NoMemory),
    }
}

/// The calls without their held bytes.
fn edges_of(alloc: Global, calls: &[Held]) -> Result<Vec<Edge>, AllocError>
    ensures { IfOk result (λ edges. edges.items ≡ map edge_of_call calls.now) }
{
    let mut edges = Vec::new(alloc);
    for call in calls {
        edges.push(Edge {
            caller: call.caller,
            callee: call.callee,
        })?;
    }
    Ok(edges)
}

/// The depth under a procedure whose callees have their depths.
fn depth_of(calls: &[Held], depths: &[u64], own: u32, proc: ProcId) -> u64
    requires rising { ByCaller calls.now }
    requires callees { (i : ℕ) → i < length calls.now
        → (call_at calls.now i).callee < length depths.now }
    requires fits { (i : ℕ) → i < length calls.now → (call_at calls.now i).caller ≡ proc
        → slice_index depths.now (call_at calls.now i).callee < 2 ^ 63 }
    ensures own { own ≤ result }
    ensures held { (i : ℕ) → i < length calls.now → (call_at calls.now i).caller ≡ proc
        → (call_at calls.now i).held + slice_index depths.now
        (call_at calls.now i).callee ≤ result }
    ensures least { (most : ℕ) → own ≤ most
        → ((i : ℕ) → i < length calls.now → (call_at calls.now i).caller ≡ proc
        → (call_at calls.now i).held + slice_index depths.now (call_at calls.now i).callee ≤ most)
        → result ≤ most }
    ensures low { (most : ℕ)
        → ((i : ℕ) → i < length calls.now → (call_at calls.now i).caller ≡ proc
        → slice_index depths.now (call_at calls.now i).callee ≤ most) → result ≤ most + 2 ^ 32 }
{
    let mut depth = u64::from(own);
    for at in first_call(calls, proc)..calls.len() {
        let call = calls[at];
        if call.caller != proc {
            return depth;
        }
        depth = depth.max(u64::from(call.held) + depths[usize::from(call.callee)]);
    }
    depth
}

/// The depths, if `order` has each callee before its callers and the calls are sorted by caller.
fn depths_along(
    alloc: Global,
    order: &[ProcId],
    own: &[u32],
    calls: &[Held],
) -> Result<Vec<u64>, AllocError>
    requires rising { ByCaller calls.now }
    requires orders { Orders own.now calls.now order.now }
    ensures { IfOk result (λ list. AreDepths own.now calls.now list.items) }
{
    let mut depths = wide(alloc, own)?;
    for proc in order {
        let at = usize::from(*proc);
        depths[at] = depth_of(calls, &depths, own[at], *proc);
    }
    Ok(depths)
}

/// The same numbers, in 64 bits.
fn wide(alloc: Global, own: &[u32]) -> Result<Vec<u64>, AllocError>
    ensures { IfOk result (λ list. list.items ≡ own.now) }
{
    let mut list = Vec::new(alloc);
    for bytes in own {
        list.push(u64::from(*bytes))?;
    }
    Ok(list)
}
