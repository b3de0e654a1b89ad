// A breadth-first search for a shortest cycle of calls.
ghost use Rattle.std.specs.Prelude.{◌≡◌, ℕ, ◌+◌, ◌<◌, ◌∷◌, List, IfNone, IfOk, IfSome, OnOk, false, length, slice_index, vec_len};
ghost use Rattle.std.specs.Bool.{OnFalse, OnTrue};
ghost use Rattle.call_graph.specs.Calls.{Calls, IsCycle};
ghost use Rattle.call_graph.specs.Cycle.{IsShortestFrom, NoneFrom, Returns, Searched, Traced, left, path_to, seen_at, step_far, step_from, step_proc};
ghost use Rattle.call_graph.specs.Walk.{ByCall};

use crate::edge::{Edge, NUMBERS, ProcId, first_call};
use std::alloc::{AllocError, Global};

/// A procedure that the search has reached, the index of the step from which it was called, and the number of calls
/// from the start to it.
#[derive(Clone, Copy)]
pub(crate) struct SearchStep {
    pub(crate) proc: ProcId,
    pub(crate) from: usize,
    pub(crate) far: usize,
}

/// The lowest of the shortest cycles through `start`, or None. The search is breadth first and follows the calls of
/// each caller in the order of their callees.
pub(crate) fn cycle_through(
    alloc: Global,
    calls: &[Edge],
    start: ProcId,
) -> Result<Option<Vec<ProcId>>, AllocError>
    requires { ByCall calls.now }
    ensures some { IfOk result
        (λ found. IfSome found (λ list. IsShortestFrom calls.now start list.items)) }
    ensures none { IfOk result (λ found. IfNone found ((n : ℕ) → ¬ (Returns calls.now start n))) }
{
    let (mut seen, mut steps) = begin(alloc, start)?;
    let mut at = 0;
    while at < steps.len() {
        if spread(calls, start, &mut seen, &mut steps, at)? {
            return Ok(Some(cycle_from(alloc, &steps, at)?));
        }
        at += 1;
    }
    Ok(None)
}

/// A set for this many procedures, empty.
fn none_of(alloc: Global, count: usize) -> Result<Vec<bool>, AllocError>
    ensures room { IfOk result (λ set. vec_len set ≡ count) }
    ensures none { IfOk result (λ set. (p : ℕ) → seen_at set.items p ≡ false) }
{
    vec![in alloc; false; count]
}

/// A search that has reached only its start.
fn begin(alloc: Global, start: ProcId) -> Result<(Vec<bool>, Vec<SearchStep>), AllocError>
    ensures searched { IfOk result (λ x. (calls : List Edge)
        → Searched calls start x.0.items x.1.items 0) }
    ensures first { IfOk result (λ x. NoneFrom x.1.items 0) }
{
    let mut seen = none_of(alloc, NUMBERS)?;
    seen[usize::from(start)] = true;
    let mut steps = Vec::new(alloc);
    steps.push(SearchStep {
        proc: start,
        from: 0,
        far: 0,
    })?;
    Ok((seen, steps))
}

/// Follows the calls of the procedure at step `at`: adds new procedures, or answers true if one of the calls leads to
/// the start.
fn spread(
    calls: &[Edge],
    start: ProcId,
    seen: &mut [bool],
    steps: &mut Vec<SearchStep>,
    at: usize,
) -> Result<bool, AllocError>
    requires rising { ByCall calls.now }
    requires first { NoneFrom steps.old.items at }
    requires searched { Searched calls.now start seen.old steps.old.items at }
    requires inside { at < length steps.old.items }
    ensures goes_on { IfOk result
        (λ closed. OnFalse closed (Searched calls.now start seen.new steps.new.items (at + 1))) }
    ensures next { IfOk result (λ closed. OnFalse closed (NoneFrom steps.new.items (at + 1))) }
    ensures closed { IfOk result
        (λ closed. OnTrue closed (Searched calls.now start seen.new steps.new.items at
        × (at < length steps.new.items) × Calls calls.now (step_proc steps.new.items at) start)) }
    ensures left { OnOk result (left seen.new steps.new.items ≡ left seen.old steps.old.items) }
{
    let step = steps[at];
    for number in first_call(calls, step.proc)..calls.len() {
        let edge = calls[number];
        if edge.caller != step.proc {
            return Ok(false);
        }
        if edge.callee == start {
            return Ok(true);
        }
        if !seen[usize::from(edge.callee)] {
            steps.push(SearchStep {
                proc: edge.callee,
                from: at,
                far: step.far + 1,
            })?;
            seen[usize::from(edge.callee)] = true;
        }
    }
    Ok(false)
}

/// The cycle from the start to the procedure at step `at`, which calls the start.
fn cycle_from(alloc: Global, steps: &[SearchStep], at: usize) -> Result<Vec<ProcId>, AllocError>
    requires inside { at < length steps.now }
    requires earlier { (i : ℕ) → 0 < i → i < length steps.now → step_from steps.now i < i }
    ensures { IfOk result (λ list. (calls : List Edge) (start : ℕ) → Traced calls start steps.now
        → Calls calls (step_proc steps.now at) start
        → IsCycle calls list.items × (slice_index list.items 0 ≡ start)
        × (length list.items ≡ step_far steps.now at + 1)
        × (list.items ≡ start ∷ path_to steps.now (step_far steps.now at) at)) }
{
    let mut list = Vec::new(alloc);
    let mut place = at;
    while place > 0 {
        list.push(steps[place].proc)?;
        place = steps[place].from;
    }
    list.push(steps[0].proc)?;
    list.reverse();
    Ok(list)
}
