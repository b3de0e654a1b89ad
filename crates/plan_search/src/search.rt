// The search.

ghost use Rattle.std.specs.Prelude.{◌≡◌, IfOk, IfSome};

use crate::judged::{Judged, judge, judge_with};
use analysis::FlowFault;
use cert_writer::WriterFault;
use explored_plans::{ExploredPlan, Plan, Progress, Search};
use plan_flow::{
    try_context, try_first_turn, try_inline, try_inline_split, try_unroll, with_counters,
    with_other_bounds,
};
use plan_values::{try_cells, try_join, try_lookup, try_parts};

/// The most moves that are kept.
const MOVES: u32 = 2_000;

/// The most steps of the search for bounds of loops.
const BOUNDS: u32 = 60;

/// Takes refusals away, move by move, until none is left or no move helps. At last the whole plan is explored.
pub(crate) fn clear<P: Progress>(search: &mut Search, progress: &mut P) -> Result<(), FlowFault> {
    for _ in 0..MOVES {
        let is_done = search.explored.is_clean() || !search.has_trials();
        let found = if is_done {
            None
        } else {
            helping(search, progress)?
        };
        match found {
            Some(explored) => search.keep(explored)?,
            None if search.explored.is_near => search.explore_whole()?,
            None => return Ok(()),
        }
    }
    search.explore_whole()
}

/// The first move that helps: what is cheap first, then cells, then what costs trials. Rows that lead nowhere come
/// before others, since more code is reached from them. What costs trials is left out where only a part of the plan was
/// explored.
fn helping<P: Progress>(
    search: &mut Search,
    progress: &mut P,
) -> Result<Option<Box<ExploredPlan>>, FlowFault> {
    search.repeats = false;
    let found = first_helping(search, progress)?;
    if found.is_some() || !search.has_trials() || search.explored.is_near {
        return Ok(found);
    }
    search.repeats = true;
    first_helping(search, progress)
}

/// The first new move that helps; None if none does.
fn first_helping<P: Progress>(
    search: &mut Search,
    progress: &mut P,
) -> Result<Option<Box<ExploredPlan>>, FlowFault> {
    let refused = in_order(search)?;
    for address in refused.as_slice() {
        if search.is_passed(*address) {
            continue;
        }
        progress.tell(search.left, refused.len());
        let found = cheap(search, *address)?;
        if found.is_some() || !search.has_trials() {
            return Ok(found);
        }
        search.pass(*address)?;
    }
    if search.explored.is_near {
        return Ok(None);
    }
    let found = try_cells(search)?;
    if found.is_some() {
        return Ok(found);
    }
    for address in refused.as_slice() {
        progress.tell(search.left, refused.len());
        let found = dear(search, *address)?;
        if found.is_some() || !search.has_trials() {
            return Ok(found);
        }
    }
    Ok(None)
}

/// The refused addresses: those that lead nowhere first, then the others, both rising.
fn in_order(search: &Search) -> Result<Vec<u16>, FlowFault> {
    let refused = search.explored.refused_addresses(search.alloc)?;
    let mut order = Vec::new(search.alloc);
    for first in [true, false] {
        for address in refused.as_slice() {
            if search.explored.leads_nowhere(*address) == first {
                order.push(*address)?;
            }
        }
    }
    Ok(order)
}

/// The first move that takes the refusals of one address away, with its whole plan explored; None if no move does. The
/// search stays as it was.
///
/// # Errors
///
/// `NoMemory` where memory was refused.
pub fn helping_at(
    search: &mut Search,
    refused: u16,
) -> Result<Option<Box<ExploredPlan>>, FlowFault> {
    search.repeats = false;
    let found = first_at(search, refused)?;
    if found.is_some() || !search.has_trials() {
        return whole_of(search, found);
    }
    search.repeats = true;
    let found = first_at(search, refused)?;
    whole_of(search, found)
}

/// A plan, explored as a whole. Before, only a part of it may have been explored.
fn whole_of(
    search: &Search,
    found: Option<Box<ExploredPlan>>,
) -> Result<Option<Box<ExploredPlan>>, FlowFault> {
    match found {
        Some(explored) if explored.is_near => {
            let ExploredPlan { plan, .. } = Box::into_inner(explored);
            search
                .explored
                .with_plan(search.alloc, search.context, plan)
        }
        found => Ok(found),
    }
}

fn first_at(search: &mut Search, refused: u16) -> Result<Option<Box<ExploredPlan>>, FlowFault> {
    let found = cheap(search, refused)?;
    if found.is_some() || !search.has_trials() {
        return Ok(found);
    }
    dear(search, refused)
}

fn cheap(search: &mut Search, refused: u16) -> Result<Option<Box<ExploredPlan>>, FlowFault> {
    let found = try_parts(search, refused)?;
    if found.is_some() {
        return Ok(found);
    }
    let found = try_inline(search, refused)?;
    if found.is_some() {
        return Ok(found);
    }
    let found = try_inline_split(search, refused)?;
    if found.is_some() {
        return Ok(found);
    }
    try_lookup(search, refused)
}

fn dear(search: &mut Search, refused: u16) -> Result<Option<Box<ExploredPlan>>, FlowFault> {
    let found = try_first_turn(search, refused)?;
    if found.is_some() {
        return Ok(found);
    }
    let found = try_unroll(search, refused)?;
    if found.is_some() {
        return Ok(found);
    }
    let found = try_context(search, refused)?;
    if found.is_some() {
        return Ok(found);
    }
    try_join(search, refused)
}

/// Bounds the loops of timed procedures, and answers what the writer answers at last.
fn bound<'r, P: Progress>(
    search: &mut Search,
    bytes: &'r [u8],
    progress: &mut P,
) -> Result<Judged<'r>, FlowFault>
    ensures { IfOk result (λ judged. judged ≡ bytes.now) }
{
    let mut judged = judge(search.alloc, search.context, bytes, &search.explored)?;
    for _ in 0..BOUNDS {
        progress.tell(search.left, search.explored.refused.len());
        let Some(better) = bettered(search, bytes, &judged)? else {
            return Ok(judged);
        };
        judged = better;
    }
    Ok(judged)
}

/// A better answer by other bounds, which the search then keeps; None if no plan has one.
fn bettered<'r>(
    search: &mut Search,
    bytes: &'r [u8],
    judged: &Judged<'r>,
) -> Result<Option<Judged<'r>>, FlowFault>
    ensures { IfOk result (λ found. IfSome found (λ better. better ≡ bytes.now)) }
{
    let plans = match judged.answer() {
        Err(WriterFault::LoopUnbounded(_)) => with_counters(search)?,
        Err(WriterFault::Refused(refused)) if matches!(refused.reason.number(), 6 | 7 | 12 | 17) =>
            { with_other_bounds(search, refused.address)? }
        _ => return Ok(None),
    };
    first_better(search, bytes, judged, plans)
}

/// The same; an accepted plan loses the families that it does not need.
pub(crate) fn bound_and_lessen<'r, P: Progress>(
    search: &mut Search,
    bytes: &'r [u8],
    progress: &mut P,
) -> Result<Judged<'r>, FlowFault>
    ensures { IfOk result (λ judged. judged ≡ bytes.now) }
{
    let judged = bound(search, bytes, progress)?;
    if judged.answer().is_ok() {
        lessen(search, bytes, judged)
    } else {
        Ok(judged)
    }
}

/// What the writer answers to the first of these plans whose answer is better. The search goes on with that plan.
fn first_better<'r>(
    search: &mut Search,
    bytes: &'r [u8],
    judged: &Judged<'r>,
    plans: Vec<Plan>,
) -> Result<Option<Judged<'r>>, FlowFault>
    ensures { IfOk result (λ found. IfSome found (λ better. better ≡ bytes.now)) }
{
    for plan in plans {
        let better = if search.explored.plan.adds_loops(&plan) {
            with_loops(search, bytes, judged, plan)?
        } else {
            with_other(search, bytes, judged, plan)?
        };
        if better.is_some() {
            return Ok(better);
        }
    }
    Ok(None)
}

/// What the writer answers to a plan, if that is better.
fn with_other<'r>(
    search: &mut Search,
    bytes: &'r [u8],
    judged: &Judged<'r>,
    plan: Plan,
) -> Result<Option<Judged<'r>>, FlowFault>
    ensures { IfOk result (λ found. IfSome found (λ better. better ≡ bytes.now)) }
{
    let Some(explored) = search.try_plan(plan)? else {
        return Ok(None);
    };
    let other = judge(search.alloc, search.context, bytes, &explored)?;
    if !other.is_better_than(judged) {
        return Ok(None);
    }
    search.keep(explored)?;
    Ok(Some(other))
}

/// The same for a plan with bounds of more loops. Its rows are the same, and need the facts that they needed before.
fn with_loops<'r>(
    search: &mut Search,
    bytes: &'r [u8],
    judged: &Judged<'r>,
    plan: Plan,
) -> Result<Option<Judged<'r>>, FlowFault>
    ensures { IfOk result (λ found. IfSome found (λ better. better ≡ bytes.now)) }
{
    let Some(before) = search.try_bounds(plan)? else {
        return Ok(None);
    };
    let other = judge_with(
        search.alloc,
        search.context,
        bytes,
        &search.explored,
        judged.guide(),
    )?;
    if other.is_better_than(judged) {
        return Ok(Some(other));
    }
    search.set_bounds(before)?;
    Ok(None)
}

/// Leaves families out, the last ones first, as long as the plan is accepted without them. The answer is that to the
/// plan that is left.
fn lessen<'r>(
    search: &mut Search,
    bytes: &'r [u8],
    judged: Judged<'r>,
) -> Result<Judged<'r>, FlowFault>
    requires { judged ≡ bytes.now }
    ensures { IfOk result (λ judged. judged ≡ bytes.now) }
{
    let mut judged = judged;
    for place in (0..search.explored.plan.findings.len()).rev() {
        let found = if search.explored.plan.is_loop(place) {
            without_loop(search, bytes, &judged, place)?
        } else {
            without_family(search, bytes, place)?
        };
        if let Some(other) = found {
            judged = other;
        }
    }
    Ok(judged)
}

/// What the writer answers without the family at a place, if it accepts. The search then goes on without it. First only
/// what the family distinguishes is explored again; if that refuses more, the family stays.
fn without_family<'r>(
    search: &mut Search,
    bytes: &'r [u8],
    place: usize,
) -> Result<Option<Judged<'r>>, FlowFault>
    ensures { IfOk result (λ found. IfSome found (λ other. other ≡ bytes.now)) }
{
    if !search.seems_unneeded(place)? {
        return Ok(None);
    }
    let explored = search
        .explored
        .without(search.alloc, search.context, place)?;
    let Some(explored) = explored else {
        return Ok(None);
    };
    if search.explored.is_worse(&explored) {
        return Ok(None);
    }
    let other = judge(search.alloc, search.context, bytes, &explored)?;
    if other.answer().is_err() {
        return Ok(None);
    }
    search.keep(explored)?;
    Ok(Some(other))
}

/// The same for the bound of a loop. The rows are the same without it.
fn without_loop<'r>(
    search: &mut Search,
    bytes: &'r [u8],
    judged: &Judged<'r>,
    place: usize,
) -> Result<Option<Judged<'r>>, FlowFault>
    ensures { IfOk result (λ found. IfSome found (λ other. other ≡ bytes.now)) }
{
    let plan = search.explored.plan.without(search.alloc, place)?;
    let before = search
        .explored
        .exchange_bounds(search.alloc, search.context, plan)?;
    if judged.is_accepted_with(search.alloc, &search.explored.said)? {
        let other = judge(search.alloc, search.context, bytes, &search.explored)?;
        if other.answer().is_ok() {
            return Ok(Some(other));
        }
    }
    search.set_bounds(before)?;
    Ok(None)
}
