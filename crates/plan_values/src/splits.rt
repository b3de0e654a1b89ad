// Splits for look-ups, jump tables and joins.

use abs_state::AbsState;
use analysis::FlowFault;
use board_fetch::fetch;
use explored_plans::{
    ByteSet, ExploredPlan, Family, PARTS, REGISTERS, Search, code_of, cut, split_of, values_in,
};
use inferred_rows::ContextPoint;
use intervals::ByteRange;
use row_graph::{FlowGraph, LocalRow, LocalRun};
use row_worklist::Watch;
use std::collections::BTreeMap;
use z80_decode::Register8;

/// How many steps before a refused row a split is looked for.
const DISTANCE: u16 = 60;

/// How many candidates of a look-up split are judged, and how many are tried.
const CANDIDATES: usize = 60;

const TRIES: u32 = 6;

/// How many steps a run from one value takes at most.
const STEPS: u32 = 400;

/// How many steps a run from the end of a split takes at most.
const STEPS_AFTER: u32 = 100;

/// How many places at which the parts meet again are tried as the end of a split.
const ENDS: usize = 6;

/// A split that may help: a register of few values at an address of a procedure.
#[derive(Clone, Copy)]
struct Candidate {
    count: usize,
    distance: usize,
    proc: u32,
    at: u16,
    register: Register8,
    values: ByteSet,
}

/// A split that is tried: where, of which register into which parts, in which procedure.
#[derive(Clone, Copy)]
pub struct Splitting<'p> {
    pub proc: u32,
    pub at: u16,
    pub register: Register8,
    pub parts: &'p [ByteRange],
    /// Addresses that are tried as its end before others.
    pub ends: &'p [u16],
}

/// A plan with this split that takes the refusals at an address away. Without an end the parts stay apart the longest:
/// where that does not help, no end is tried. Otherwise it ends where the parts come together first, if that helps too.
/// Only what the split distinguishes is explored again; where the search repeats its moves, all is.
///
/// # Errors
///
/// `NoMemory` where memory was refused.
pub fn with_split(
    search: &mut Search,
    refused: u16,
    splitting: Splitting,
) -> Result<Option<Box<ExploredPlan>>, FlowFault> {
    let Splitting {
        at,
        register,
        parts,
        ..
    } = splitting;
    if parts.len() < 2 || search.explored.plan.has_split(search.context.base(), at) {
        return Ok(None);
    }
    let rest = (search.explored.plan.findings.len() as u64)
        .wrapping_mul(0x1_0000)
        .wrapping_add((parts.len() as u64).wrapping_mul(16))
        .wrapping_add(code_of(register));
    let kind = if search.repeats { 7 } else { 1 };
    if !search.is_new((kind, refused, at, rest))? {
        return Ok(None);
    }
    if search.repeats {
        return with_far_end(search, refused, splitting);
    }
    match near_split(search, refused, splitting, at)? {
        Some(open) if search.explored.is_bettered_by(&open, refused) => {
            Ok(Some(with_near_end(search, refused, splitting, open)?))
        }
        _ => Ok(None),
    }
}

/// The plan with the end of a split with the fewest rows with which it helps, or that without an end. `open` is the
/// plan with the split without an end. Of each plan only what the split distinguishes is explored again.
fn with_near_end(
    search: &mut Search,
    refused: u16,
    splitting: Splitting,
    open: Box<ExploredPlan>,
) -> Result<Box<ExploredPlan>, FlowFault> {
    let ends = ends_of(search, &open, refused, splitting)?;
    let mut least = open.list.rows().len();
    let mut best = None;
    for end in hopeful_first(search, &open, splitting, &ends)? {
        let Some(near) = near_split(search, refused, splitting, end)? else {
            continue;
        };
        let rows = near.list.rows().len();
        let is_no_worse = open.refuses_all_of(&near) && !open.is_worse(&near);
        if rows < least && is_no_worse && search.explored.is_bettered_by(&near, refused) {
            least = rows;
            best = Some(near);
        }
    }
    Ok(match best {
        Some(best) => best,
        None => open,
    })
}

/// The plan with a split up to an address, where only what the split distinguishes is explored again.
fn near_split(
    search: &mut Search,
    refused: u16,
    splitting: Splitting,
    until: u16,
) -> Result<Option<Box<ExploredPlan>>, FlowFault> {
    let Splitting {
        at,
        register,
        parts,
        ..
    } = splitting;
    let split = split_of(search.alloc, at, register, parts, until)?;
    search.try_near(Family::Split(split), refused, Watch::Address(refused))
}

/// The same as `with_near_end`, where each plan is explored as a whole.
fn with_far_end(
    search: &mut Search,
    refused: u16,
    splitting: Splitting,
) -> Result<Option<Box<ExploredPlan>>, FlowFault> {
    let Some(open) = split_until(search, refused, splitting, splitting.at)? else {
        return Ok(None);
    };
    if !search.explored.is_cleared_by(&open, refused) {
        return Ok(None);
    }
    let is_open_better = search.explored.is_bettered_by(&open, refused);
    let ends = ends_of(search, &open, refused, splitting)?;
    for end in hopeful_first(search, &open, splitting, &ends)? {
        if let Some(explored) = split_until(search, refused, splitting, end)? {
            let is_no_worse = !is_open_better || !open.is_worse(&explored);
            if is_no_worse && search.explored.is_bettered_by(&explored, refused) {
                return Ok(Some(explored));
            }
        }
    }
    Ok(is_open_better.then_some(open))
}

/// The plan with a split up to an address.
fn split_until(
    search: &mut Search,
    refused: u16,
    splitting: Splitting,
    until: u16,
) -> Result<Option<Box<ExploredPlan>>, FlowFault> {
    let Splitting {
        at,
        register,
        parts,
        ..
    } = splitting;
    let split = split_of(search.alloc, at, register, parts, until)?;
    search.try_family(Family::Split(split), refused)
}

/// The addresses that are tried as the end of a split: those given, the one after the refused row if it is reached, and
/// those after it where the most parts come together, the nearest first.
fn ends_of(
    search: &Search,
    open: &ExploredPlan,
    refused: u16,
    splitting: Splitting,
) -> Result<Vec<u16>, FlowFault> {
    let mut ends = Vec::from_slice(search.alloc, splitting.ends)?;
    if let Ok((_, len)) = fetch(search.context.rom(), refused) {
        let behind = refused.wrapping_add(u16::from(len));
        if !open.rows_at(behind).is_empty() {
            ends.push(behind)?;
        }
    }
    let graph = FlowGraph::of(search.alloc, &open.edges(search.alloc, search.context)?)?;
    let distances = graph.distances(search.alloc, splitting.proc, splitting.at)?;
    let far = distance_of(&distances, refused).unwrap_or(0);
    let counts = parts_at(search, open, splitting.proc)?;
    let most = counts.iter().map(|(_, count)| *count).max().unwrap_or(0);
    let mut meeting = Vec::new(search.alloc);
    for (address, count) in counts.iter() {
        if *count == most && *count >= 2 {
            if let Some(distance) = distance_of(&distances, *address) {
                if distance > far {
                    meeting.push((distance, *address))?;
                }
            }
        }
    }
    meeting.sort_unstable();
    for (_, address) in meeting.iter().take(ENDS) {
        ends.push(*address)?;
    }
    let mut once = Vec::new(search.alloc);
    for end in ends {
        if end != splitting.at && !once.contains(&end) {
            once.push(end)?;
        }
    }
    Ok(once)
}

/// These ends in another order: first those after which a run from the states that meet there comes to no row that is
/// newly refused. Each part keeps its order.
fn hopeful_first(
    search: &Search,
    open: &ExploredPlan,
    splitting: Splitting,
    ends: &[u16],
) -> Result<Vec<u16>, FlowFault> {
    let mut order = Vec::new(search.alloc);
    let mut others = Vec::new(search.alloc);
    for end in ends {
        if is_refused_after(search, open, splitting, *end)? {
            others.push(*end)?;
        } else {
            order.push(*end)?;
        }
    }
    order.extend_from_slice(others.as_slice())?;
    Ok(order)
}

/// Whether a run from the joined states of an open split at an address comes to a row that is newly refused.
fn is_refused_after(
    search: &Search,
    open: &ExploredPlan,
    splitting: Splitting,
    end: u16,
) -> Result<bool, FlowFault> {
    let Splitting { proc, at, .. } = splitting;
    let Some(task) = search.context.task(&open.said) else {
        return Ok(false);
    };
    let mut run = LocalRun::new(search.alloc, &task, &open.list, proc);
    for row in open.rows_of(search.alloc, Some(proc), end)? {
        let row = LocalRow {
            state: row.state.copied(),
            parts: row.parts.copied(),
        };
        run.arrive(search.alloc, end, row)?;
    }
    for _ in 0..STEPS_AFTER {
        let Some(address) = run.take_waiting() else {
            return Ok(false);
        };
        if address == at {
            continue;
        }
        if let Some(row) = run.row(address) {
            if is_newly_refused(search, open, proc, address, row)? {
                return Ok(true);
            }
        }
        run.go_on(search.alloc, address)?;
    }
    Ok(false)
}

/// Whether a state is refused at an address of a procedure where nothing was refused.
fn is_newly_refused(
    search: &Search,
    open: &ExploredPlan,
    proc: u32,
    address: u16,
    row: &LocalRow,
) -> Result<bool, FlowFault> {
    if open.refuses_at(proc, address) {
        return Ok(false);
    }
    open.refuses(
        search.alloc,
        search.context,
        proc,
        address,
        &row.state,
        &row.parts,
    )
}

/// How many parts each address of a procedure has.
fn parts_at(
    search: &Search,
    explored: &ExploredPlan,
    proc: u32,
) -> Result<BTreeMap<u16, u16>, FlowFault> {
    let mut counts: BTreeMap<u16, u16> = BTreeMap::new(search.alloc);
    let mut last = None;
    for (number, _) in explored
        .list
        .rows()
        .range(ContextPoint::first_of(proc)..=ContextPoint::last_of(proc))
    {
        let point = ContextPoint::of(*number);
        let here = Some((point.address, point.part));
        if here != last {
            let before = counts.get(&point.address).copied().unwrap_or(0);
            counts.insert(point.address, before.saturating_add(1))?;
        }
        last = here;
    }
    Ok(counts)
}

/// A plan with a split by a register of few values, before a refused row. Each value is first followed from the
/// split to the row.
pub fn try_lookup(
    search: &mut Search,
    refused: u16,
) -> Result<Option<Box<ExploredPlan>>, FlowFault> {
    let candidates = lookups(search, refused)?;
    let mut tries = 0u32;
    for candidate in candidates.iter().take(CANDIDATES) {
        if !each_value_passes(search, refused, candidate)? {
            continue;
        }
        let parts = singles(search, &candidate.values)?;
        let found = with_split(
            search,
            refused,
            Splitting {
                proc: candidate.proc,
                at: candidate.at,
                register: candidate.register,
                parts: parts.as_slice(),
                ends: &[],
            },
        )?;
        if found.is_some() {
            return Ok(found);
        }
        tries = tries.saturating_add(1);
        if tries >= TRIES || !search.has_trials() {
            return Ok(None);
        }
    }
    Ok(None)
}

/// The splits by registers of few values at or before a refused row: the fewest values first, then the nearest.
fn lookups(search: &Search, refused: u16) -> Result<Vec<Candidate>, FlowFault> {
    let mut candidates = Vec::new(search.alloc);
    for proc in search.explored.procs_at(search.alloc, refused)? {
        let mut places = Vec::new(search.alloc);
        places.push(refused)?;
        for at in search.graph.before(search.alloc, proc, refused, DISTANCE)? {
            places.push(at)?;
        }
        let mut distance = 0usize;
        for at in places {
            distance = distance.saturating_add(1);
            if !search.explored.plan.has_split(search.context.base(), at) {
                add_lookups(search, &mut candidates, proc, at, distance)?;
            }
        }
    }
    candidates.sort_by_key(|candidate| (candidate.count, candidate.distance))?;
    Ok(candidates)
}

fn add_lookups(
    search: &Search,
    candidates: &mut Vec<Candidate>,
    proc: u32,
    at: u16,
    distance: usize,
) -> Result<(), FlowFault> {
    let rows = search.explored.rows_of(search.alloc, Some(proc), at)?;
    if rows.is_empty() {
        return Ok(());
    }
    for register in REGISTERS {
        if let Some(values) = values_in(rows.as_slice(), register) {
            let count = values.len();
            if 2 <= count && count <= PARTS {
                candidates.push(Candidate {
                    count,
                    distance,
                    proc,
                    at,
                    register,
                    values,
                })?;
            }
        }
    }
    Ok(())
}

/// Whether a refused row is reached with some value, and with none of them refused.
fn each_value_passes(
    search: &Search,
    refused: u16,
    candidate: &Candidate,
) -> Result<bool, FlowFault> {
    let mut reached = false;
    let rows = search
        .explored
        .rows_of(search.alloc, Some(candidate.proc), candidate.at)?;
    for row in rows {
        for value in 0..=255u8 {
            if !candidate.values.contains(value) {
                continue;
            }
            let Some(state) = cut(&row.state, candidate.register, value) else {
                continue;
            };
            match comes_to(search, candidate.proc, candidate.at, &state, refused)? {
                Passing::Refused => return Ok(false),
                Passing::Passed => reached = true,
                Passing::Missed => {}
            }
        }
    }
    Ok(reached)
}

/// How a state at an address comes to a refused row.
fn comes_to(
    search: &Search,
    proc: u32,
    at: u16,
    state: &AbsState,
    refused: u16,
) -> Result<Passing, FlowFault> {
    let alloc = search.alloc;
    if at == refused {
        return passing_at(search, proc, refused, &LocalRow::of(state));
    }
    let Some(task) = search.context.task(&search.explored.said) else {
        return Ok(Passing::Refused);
    };
    let mut run = LocalRun::new(alloc, &task, &search.explored.list, proc);
    run.arrive(alloc, at, LocalRow::of(state))?;
    if !run.run_to(alloc, refused, STEPS)? {
        return Ok(Passing::Refused);
    }
    match run.row(refused) {
        Some(row) => passing_at(search, proc, refused, row),
        None => Ok(Passing::Missed),
    }
}

fn passing_at(
    search: &Search,
    proc: u32,
    refused: u16,
    row: &LocalRow,
) -> Result<Passing, FlowFault> {
    let is_refused = search.explored.refuses(
        search.alloc,
        search.context,
        proc,
        refused,
        &row.state,
        &row.parts,
    )?;
    Ok(if is_refused {
        Passing::Refused
    } else {
        Passing::Passed
    })
}

/// A part for each value.
///
/// # Errors
///
/// `NoMemory` where memory was refused.
pub fn singles(search: &Search, values: &ByteSet) -> Result<Vec<ByteRange>, FlowFault> {
    let mut parts = Vec::new(search.alloc);
    for value in 0..=255u8 {
        if values.contains(value) {
            parts.push(ByteRange::single(value))?;
        }
    }
    Ok(parts)
}

/// A plan with a split where paths join before a refused row.
pub fn try_join(search: &mut Search, refused: u16) -> Result<Option<Box<ExploredPlan>>, FlowFault> {
    let mut tries = 0u32;
    for proc in search.explored.procs_at(search.alloc, refused)? {
        let mut places = Vec::new(search.alloc);
        places.push(refused)?;
        for at in search.graph.before(search.alloc, proc, refused, 40)? {
            places.push(at)?;
        }
        for at in places {
            if search.graph.previous(search.alloc, proc, at)?.len() < 2 {
                continue;
            }
            for register in REGISTERS {
                let Some(range) = range_at(search, proc, at, register)? else {
                    continue;
                };
                let width = range.high().saturating_sub(range.low());
                if width < 1 || width > 31 {
                    continue;
                }
                let mut values = ByteSet::empty();
                values.add_range(range);
                let parts = singles(search, &values)?;
                let found = with_split(
                    search,
                    refused,
                    Splitting {
                        proc,
                        at,
                        register,
                        parts: parts.as_slice(),
                        ends: &[],
                    },
                )?;
                if found.is_some() {
                    return Ok(found);
                }
                tries = tries.saturating_add(1);
                if tries >= TRIES || !search.has_trials() {
                    return Ok(None);
                }
            }
        }
    }
    Ok(None)
}

/// The hull of a register's ranges in the rows of a procedure at an address.
fn range_at(
    search: &Search,
    proc: u32,
    at: u16,
    register: Register8,
) -> Result<Option<ByteRange>, FlowFault> {
    let rows = search.explored.rows_of(search.alloc, Some(proc), at)?;
    let mut hull: Option<ByteRange> = None;
    for row in rows {
        let range = row.state.byte(register);
        hull = match hull {
            Some(before) => {
                let low = before.low().min(range.low());
                ByteRange::new(low, before.high().max(range.high()))
            }
            None => Some(range),
        };
    }
    Ok(hull)
}

/// How a state comes to a refused row.
#[derive(Clone, Copy, PartialEq, Eq)]
enum Passing {
    /// It does not come there.
    Missed,
    /// Nothing is against it there.
    Passed,
    Refused,
}

/// The distance of an address in a list that is sorted by address.
pub(crate) fn distance_of(distances: &[(u16, u16)], address: u16) -> Option<u16> {
    let place = distances.partition_point(|(at, _)| *at < address);
    match distances.get(place) {
        Some((at, distance)) if *at == address => Some(*distance),
        _ => None,
    }
}
