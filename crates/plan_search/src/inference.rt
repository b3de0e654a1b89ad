// What an inferring run finds.

ghost use Rattle.std.specs.Prelude.{◌≡◌, IfOk, IfSome};

use crate::judged::Judged;
use crate::search::{bound_and_lessen, clear};
use address_map::Rom;
use analysis::{FlowFault, judged_row};
use annotations::Given;
use cert_lines::{Version, WORK_LEN};
use explored_plans::{Base, ExploredPlan, Plan, Progress, Search, SearchContext};
use inferred_rows::ContextPoint;
use inferring::stack_depth;
use std::alloc::Global;
use t_states::MAX_BUDGET;

/// The most visits of rows in one analysis.
pub(crate) const VISITS: u32 = 2_000_000;

/// How many times the stack region is fitted to the depth.
const FITTINGS: u32 = 4;

/// What an inferring run found.
#[derive(Drop)]
pub struct Inference<'r, 'g> {
    /// The region, the budget and the board, and what was given.
    pub base: Base<'g>,
    /// The notes that were found, with the rows that an analysis finds by them.
    pub explored: Box<ExploredPlan>,
    /// What the writer answers, with the facts of rows.
    pub judged: Judged<'r>,
    /// How many trials were taken.
    pub trials: u32,
    /// The refused addresses that no move helped, rising.
    pub stuck: Vec<u16>,
}

/// Finds annotations by which the writer makes a certificate, in at most `trials` trials (docs/INFERENCE.md). What is
/// given stays. The same ROM and the same given annotations always give the same answer. None if the ROM has no bytes
/// or more than 16,384.
///
/// Rows are judged by the rules of version 2 first. Where no certificate is accepted by them, and `most` is version 3,
/// the search goes on from what it found by the rules of version 3. If these do not suffice either, the answer is the
/// first.
///
/// # Errors
///
/// `Limit` if an analysis takes more rows than a certificate can have; `NoMemory` where memory was refused.
pub fn inferred<'r, 'g, P: Progress>(
    alloc: Global,
    bytes: &'r [u8],
    given: &'g Given,
    trials: u32,
    most: Version,
    progress: &mut P,
) -> Result<Option<Inference<'r, 'g>>, FlowFault>
    // What is accepted is accepted for this ROM.
    ensures rom { IfOk result (λ found. IfSome found (λ f. f.judged ≡ bytes.now)) }
{
    let Some(rom) = Rom::of(bytes) else {
        return Ok(None);
    };
    let mut base = Base::deduced(alloc, &rom, given)?;
    if given.nmi.is_none() && given.budget.is_none() && enables_nmis(alloc, &rom, &base)? {
        base.budget = Some(MAX_BUDGET as u16);
    }
    let found = found_by(
        alloc,
        bytes,
        &rom,
        base,
        Plan::empty(alloc),
        trials,
        progress,
    )?;
    let Some(found) = found else {
        return Ok(None);
    };
    if found.judged.answer().is_ok() || most != Version::Three {
        return Ok(Some(found));
    }
    let base = Base {
        version: Version::Three,
        ..base
    };
    let plan = found.explored.plan.copied(alloc)?;
    let left = trials.saturating_sub(found.trials);
    match found_by(alloc, bytes, &rom, base, plan, left, progress) {
        Ok(Some(more)) if more.judged.answer().is_ok() => {
            let Inference {
                base,
                explored,
                judged,
                trials: more,
                stuck,
            } = more;
            Ok(Some(Inference {
                base,
                explored,
                judged,
                trials: found.trials.saturating_add(more),
                stuck,
            }))
        }
        Ok(_) | Err(FlowFault::Limit) => Ok(Some(found)),
        Err(FlowFault::NoMemory) => Err(FlowFault::NoMemory),
    }
}

/// What a search from a plan finds by the rules of a base, in at most `trials` trials.
fn found_by<'r, 'g, P: Progress>(
    alloc: Global,
    bytes: &'r [u8],
    rom: &Rom,
    base: Base<'g>,
    plan: Plan,
    trials: u32,
    progress: &mut P,
) -> Result<Option<Inference<'r, 'g>>, FlowFault>
    ensures rom { IfOk result (λ found. IfSome found (λ f. f.judged ≡ bytes.now)) }
{
    let mut base = base;
    let mut plan = plan;
    let mut left = trials;
    for round in 0..FITTINGS {
        let is_last = base.given.low.is_some() || round == FITTINGS - 1;
        let Fitting {
            explored,
            left: rest,
            low,
            judged,
            stuck,
        } = fitted(alloc, bytes, rom, &base, plan, left, is_last, progress)?;
        left = rest;
        if let Some(judged) = judged {
            return Ok(Some(Inference {
                base,
                explored,
                judged,
                trials: trials.saturating_sub(left),
                stuck,
            }));
        }
        let ExploredPlan { plan: found, .. } = Box::into_inner(explored);
        plan = found;
        base.region.low = low;
    }
    Ok(None)
}

/// What a search found with one stack region.
#[derive(Drop)]
struct Fitting<'r> {
    explored: Box<ExploredPlan>,
    /// How many trials are left.
    left: u32,
    /// The low end of the stack region that fits the depth.
    low: u16,
    /// What the writer answers, where the region fits.
    judged: Option<Judged<'r>>,
    /// The refused addresses that no move helped, rising.
    stuck: Vec<u16>,
}

/// Searches with one stack region. If it fits the depth, or `is_last`, loops are bounded and the writer answers.
fn fitted<'r, P: Progress>(
    alloc: Global,
    bytes: &'r [u8],
    rom: &Rom,
    base: &Base,
    plan: Plan,
    left: u32,
    is_last: bool,
    progress: &mut P,
) -> Result<Fitting<'r>, FlowFault>
    ensures { IfOk result (λ fitting. IfSome fitting.judged (λ judged. judged ≡ bytes.now)) }
{
    let map = base.board.map(rom.len());
    let context = SearchContext::of(rom, &map, base, VISITS);
    let Some(explored) = ExploredPlan::of(alloc, &context, plan)? else {
        return Err(FlowFault::Limit);
    };
    let mut search = Search::of(alloc, &context, explored, left)?;
    let SearchEnd { low, judged, stuck } = answered(&mut search, bytes, base, is_last, progress)?;
    let Search { explored, left, .. } = search;
    Ok(Fitting {
        explored,
        left,
        low,
        judged,
        stuck,
    })
}

/// What a search comes to, beside its plan: fields as in `Fitting`.
#[derive(Drop)]
struct SearchEnd<'r> {
    low: u16,
    judged: Option<Judged<'r>>,
    stuck: Vec<u16>,
}

/// Lets a search run, and asks the writer where the region fits the depth, or `is_last`.
fn answered<'r, P: Progress>(
    search: &mut Search,
    bytes: &'r [u8],
    base: &Base,
    is_last: bool,
    progress: &mut P,
) -> Result<SearchEnd<'r>, FlowFault>
    ensures { IfOk result (λ answered. IfSome answered.judged (λ judged. judged ≡ bytes.now)) }
{
    clear(search, progress)?;
    let low = low_of(base, stack_depth(search.alloc, &search.explored.list)?);
    let judged = if is_last || low == base.region.low {
        Some(bound_and_lessen(search, bytes, progress)?)
    } else {
        None
    };
    let stuck = search.explored.refused_addresses(search.alloc)?;
    Ok(SearchEnd { low, judged, stuck })
}

/// The low end of the stack region that leaves room for this many bytes, one word at least.
fn low_of(base: &Base, depth: u32) -> u16 {
    let depth = depth.max(2).min(u32::from(WORK_LEN)) as u16;
    base.region
        .top
        .saturating_sub(depth)
        .max(base.board.work_start())
}

/// Whether some row writes a byte to the NMI enable, and to nothing else.
fn enables_nmis(alloc: Global, rom: &Rom, base: &Base) -> Result<bool, FlowFault> {
    let map = base.board.map(rom.len());
    let context = SearchContext::of(rom, &map, base, VISITS);
    let Some(explored) = ExploredPlan::of(alloc, &context, Plan::empty(alloc))? else {
        return Ok(false);
    };
    let Some(task) = context.task(&explored.said) else {
        return Ok(false);
    };
    let ground = task.ground();
    for (number, row) in explored.list.rows().iter() {
        let place = ContextPoint::of(*number).plain();
        let judged = judged_row(alloc, &task, place, false, &row.state, &row.parts);
        for write in judged.writes.as_slice() {
            if write.at.value().is_some() && ground.may_enable(write) {
                return Ok(true);
            }
        }
    }
    Ok(false)
}
