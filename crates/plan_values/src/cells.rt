// Kept cells: bytes of work RAM that are read at one address, with the ranges of what is stored.

use crate::splits::{distance_of, try_lookup};
use abs_draft::DataWrite;
use abs_state::{KeptCell, Mode};
use analysis::{FlowFault, MAIN};
use board_fetch::fetch;
use explored_plans::{ExploredPlan, Family, Plan, Search, read_by};
use inferred_rows::ContextPoint;
use intervals::ByteRange;
use std::alloc::Global;
use std::collections::{BTreeMap, BTreeSet};

/// How many times the ranges are made larger.
const ROUNDS: u32 = 24;

/// How many times one range grows before it goes to an end.
const GROWTHS: u8 = 5;

/// The cells of an attempt.
#[derive(Drop)]
struct Attempted {
    ranges: BTreeMap<u16, ByteRange>,
    growths: BTreeMap<u16, u8>,
    /// The addresses that are read at one place.
    wanted: BTreeSet<u16>,
    changed: bool,
}

/// A range with every byte of another too.
fn hull(one: ByteRange, other: ByteRange) -> ByteRange {
    ByteRange::new(one.low().min(other.low()), one.high().max(other.high())).unwrap_or(
        ByteRange::full(),
    )
}

impl Attempted {
    /// Whether a byte is the low one of an address that is read.
    fn is_low_of_word(&self, at: u16) -> bool {
        self.wanted.contains(&at.wrapping_add(1))
    }

    /// A store of these bytes in a cell. A range that becomes full leaves no cell, but for the low byte of a word.
    fn store(&mut self, at: u16, byte: ByteRange) -> Result<(), FlowFault> {
        let Some(before) = self.ranges.get(&at).copied() else {
            return Ok(());
        };
        let mut after = hull(before, byte);
        if after == before {
            return Ok(());
        }
        self.changed = true;
        let growths = self.growths.get(&at).copied().unwrap_or(0);
        self.growths.insert(at, growths.saturating_add(1))?;
        if growths >= GROWTHS {
            after = if self.is_low_of_word(at) {
                ByteRange::full()
            } else if after.high() > before.high() {
                ByteRange::at_least(after.low())
            } else {
                ByteRange::at_most(after.high())
            };
        }
        if after.is_full() && !self.is_low_of_word(at) {
            self.ranges.remove(&at);
        } else {
            self.ranges.insert(at, after)?;
        }
        Ok(())
    }

    /// Whether a cell says nothing: its range is full, and it is not the low byte of a word whose high byte has a
    /// range.
    fn is_idle(&self, at: u16, range: ByteRange) -> bool {
        let serves = match self.ranges.get(&at.wrapping_add(1)) {
            Some(high) => !high.is_full(),
            None => false,
        };
        range.is_full() && !serves
    }

    /// Drops the cells that say nothing.
    fn drop_idle(&mut self, alloc: Global) -> Result<(), FlowFault> {
        let mut idle = Vec::new(alloc);
        for (at, range) in self.ranges.iter() {
            if self.is_idle(*at, *range) {
                idle.push(*at)?;
            }
        }
        for at in idle {
            self.ranges.remove(&at);
            self.changed = true;
        }
        Ok(())
    }
}

/// A plan with cells for the bytes of work RAM that are read at one address: each begins with what the last store
/// before NMIs leaves, and grows by the stores that are seen until none is outside.
///
/// # Errors
///
/// `NoMemory` where memory was refused.
pub fn try_cells(search: &mut Search) -> Result<Option<Box<ExploredPlan>>, FlowFault> {
    let rest = search.explored.refused.len() as u64;
    let rows = search.explored.list.rows().len().min(0xFFFF) as u16;
    if !search.is_new((6, rows, 0, rest))? {
        return Ok(None);
    }
    let mut cells = first_cells(search)?;
    for _ in 0..ROUNDS {
        if cells.ranges.is_empty() {
            return Ok(None);
        }
        let plan = plan_with_cells(search, &cells)?;
        let Some(explored) = search.try_plan(plan)? else {
            return Ok(None);
        };
        cells.changed = false;
        let unarmed = grow_by(search, &explored, &mut cells)?;
        cells.drop_idle(search.alloc)?;
        if cells.changed {
            continue;
        }
        if let Some(at) = unarmed {
            cells.ranges.remove(&at);
            continue;
        }
        if is_worse_without_drops(search, &explored) || has_these_cells(search, &cells) {
            return Ok(None);
        }
        if takes_some_away(search, &explored) {
            return Ok(Some(explored));
        }
        return with_lookup(search, explored);
    }
    Ok(None)
}

/// Whether some refused place is not refused in another plan.
fn takes_some_away(search: &Search, explored: &ExploredPlan) -> bool {
    search
        .explored
        .refused
        .iter()
        .any(|(number, _)| !explored.refused.contains_key(number))
}

/// Another plan with a split for a look-up, which takes refusals away that the search has too.
fn with_lookup(
    search: &mut Search,
    explored: Box<ExploredPlan>,
) -> Result<Option<Box<ExploredPlan>>, FlowFault> {
    let refused = explored.refused_addresses(search.alloc)?;
    let before = search.exchange(explored)?;
    let found = first_lookup(search, &refused);
    search.restore(before);
    match found? {
        Some(explored) if !is_worse_without_drops(search, &explored) => Ok(Some(explored)),
        _ => Ok(None),
    }
}

/// The first plan with a split for a look-up that takes the refusals at one of these addresses away.
fn first_lookup(
    search: &mut Search,
    refused: &[u16],
) -> Result<Option<Box<ExploredPlan>>, FlowFault> {
    for address in refused {
        let found = try_lookup(search, *address)?;
        if found.is_some() {
            return Ok(found);
        }
    }
    Ok(None)
}

/// Whether another plan's rows are refused where these have nothing refused; dropped states do not count.
fn is_worse_without_drops(search: &Search, explored: &ExploredPlan) -> bool {
    for (number, refusals) in explored.refused.iter() {
        let is_known = !search
            .explored
            .rows_at(ContextPoint::of(*number).address)
            .is_empty();
        if is_known && refusals.0 > 1 && !search.explored.refused.contains_key(number) {
            return true;
        }
    }
    false
}

/// Whether the plan has these cells already.
fn has_these_cells(search: &Search, cells: &Attempted) -> bool {
    let said = search.explored.said.cells();
    said.len() == cells.ranges.len()
        && said.iter().all(|cell| cells.ranges.get(&cell.at).copied() == Some(cell.range))
}

/// The plan with these cells in the place of all others that were found.
fn plan_with_cells(search: &Search, cells: &Attempted) -> Result<Plan, FlowFault> {
    let mut list = Vec::new(search.alloc);
    for (at, range) in cells.ranges.iter() {
        list.push(KeptCell {
            at: *at,
            range: *range,
        })?;
    }
    let bare = search.explored.plan.without_cells(search.alloc)?;
    bare.with(search.alloc, Family::Cells(list), 0)
}

/// The bytes of work RAM outside the stack that are read at one address, each with what the last store before NMIs
/// leaves.
fn first_cells(search: &Search) -> Result<Attempted, FlowFault> {
    let mut cells = Attempted {
        ranges: BTreeMap::new(search.alloc),
        growths: BTreeMap::new(search.alloc),
        wanted: wanted_cells(search)?,
        changed: false,
    };
    for (at, store) in last_stores(search, &cells.wanted)?.iter() {
        cells.ranges.insert(*at, store.byte)?;
    }
    for cell in search.explored.said.cells() {
        cells.ranges.insert(cell.at, cell.range)?;
    }
    Ok(cells)
}

/// The bytes of work RAM outside the stack that are read at one address.
fn wanted_cells(search: &Search) -> Result<BTreeSet<u16>, FlowFault> {
    let mut wanted = BTreeSet::new(search.alloc);
    for (number, row) in search.explored.list.rows().iter() {
        let address = ContextPoint::of(*number).address;
        let Ok((instr, _)) = fetch(search.context.rom(), address) else {
            continue;
        };
        let Some((at, count)) = read_by(&instr, &row.state) else {
            continue;
        };
        for by in 0..count {
            let at = at.wrapping_add(by);
            if may_be_cell(search, at) {
                wanted.insert(at)?;
            }
        }
    }
    Ok(wanted)
}

/// A store to a byte: what it leaves, and how many steps from the start of main it is.
#[derive(Drop)]
struct LastStore {
    distance: u16,
    byte: ByteRange,
}

/// The last stores to these bytes in main before NMIs, as far as they leave less than all values.
fn last_stores(
    search: &Search,
    wanted: &BTreeSet<u16>,
) -> Result<BTreeMap<u16, LastStore>, FlowFault> {
    let distances = search.graph.distances(search.alloc, MAIN, 0)?;
    let mut last = BTreeMap::new(search.alloc);
    for (number, row) in search.explored.list.rows().iter() {
        let point = ContextPoint::of(*number);
        if point.proc != MAIN || row.state.mode == Mode::Nmi {
            continue;
        }
        let distance = distance_of(&distances, point.address).unwrap_or(0);
        for write in writes_of(search, &search.explored, *number)? {
            let Some(at) = write.at.value() else {
                continue;
            };
            if wanted.contains(&at) && !write.byte.is_full() {
                keep_later(&mut last, at, distance, write.byte)?;
            }
        }
    }
    Ok(last)
}

/// Keeps a store unless one that is further from the start is kept.
fn keep_later(
    last: &mut BTreeMap<u16, LastStore>,
    at: u16,
    distance: u16,
    byte: ByteRange,
) -> Result<(), FlowFault> {
    let is_later = match last.get(&at) {
        Some(before) => before.distance <= distance,
        None => true,
    };
    if is_later {
        last.insert(at, LastStore { distance, byte })?;
    }
    Ok(())
}

/// Whether an address may be that of a cell: in the first 400h addresses of work RAM, outside the stack region.
fn may_be_cell(search: &Search, at: u16) -> bool {
    let base = search.context.base();
    base.board.is_in_work(at) && !(base.region.low <= at && at < base.region.top)
}

/// The data writes of a row.
fn writes_of(
    search: &Search,
    explored: &ExploredPlan,
    number: u64,
) -> Result<Vec<DataWrite>, FlowFault> {
    let (Some(task), Some(row)) = (
        search.context.task(&explored.said),
        explored.list.row(number),
    ) else {
        return Ok(Vec::new(search.alloc));
    };
    let judged = explored
        .list
        .judged_row_at(search.alloc, &task, number, row)?;
    Ok(Vec::from_slice(search.alloc, judged.as_ref().writes.as_slice())?)
}

/// Lets the ranges of cells grow by the stores of a explored. The result is the address of a cell that is not armed
/// where NMIs are enabled.
fn grow_by(
    search: &Search,
    explored: &ExploredPlan,
    cells: &mut Attempted,
) -> Result<Option<u16>, FlowFault> {
    let mut unarmed: Option<u16> = None;
    let said = explored.said.cells();
    let Some(task) = search.context.task(&explored.said) else {
        return Ok(None);
    };
    let ground = task.ground();
    for (number, row) in explored.list.rows().iter() {
        if let Some(reason) = row.reason {
            if matches!(reason.number(), 6 | 7 | 8) {
                continue;
            }
        }
        let armed = usize::from(row.state.armed);
        for write in writes_of(search, explored, *number)? {
            if armed < said.len() && ground.may_enable(&write) {
                let first = unarmed.unwrap_or(u16::MAX);
                if let Some(cell) = said.get(armed) {
                    unarmed = Some(first.min(cell.at));
                }
            }
            let mut place = 0usize;
            for cell in said {
                let is_hit = match write.at.value() {
                    Some(at) => at == cell.at,
                    None => { place < armed && task.map().some_at_cell(write.at, cell.at % 0x400) }
                };
                if is_hit && (place < armed || row.state.mode == Mode::Nmi) {
                    cells.store(cell.at, write.byte)?;
                }
                place = place.saturating_add(1);
            }
        }
    }
    Ok(unarmed)
}
