// Bytes of RAM that the same instructions store.

use crate::ram::RamUse;
use abs_state::KeptCell;
use address_map::RamKind;
use listing::View;
use std::alloc::{AllocError, Global};

/// Bytes that the same instructions store: a run, or equal runs at equal steps.
#[derive(Drop)]
pub struct RamRun {
    pub ram: RamKind,
    /// The indices of the first byte and the last of each run, rising.
    pub ends: Vec<(u16, u16)>,
    /// The bytes from one run to the next, if there are several.
    pub step: Option<u16>,
    /// The instructions that store there.
    pub writers: Vec<u16>,
    /// The kept cell that the run is.
    pub cell: Option<KeptCell>,
}

impl RamRun {
    /// The number of bytes.
    pub fn size(&self) -> u32 {
        let mut size = 0u32;
        for (first, last) in &self.ends {
            let own = u32::from(*last).saturating_sub(u32::from(*first));
            size = size.saturating_add(own).saturating_add(1);
        }
        size
    }

    /// The index of the first byte.
    pub fn first(&self) -> u16 {
        match self.ends.first() {
            Some((first, _)) => *first,
            None => 0,
        }
    }
}

/// The runs of a RAM, by their first byte.
#[derive(Drop)]
pub struct RamRuns {
    pub runs: Vec<RamRun>,
    /// For each byte, the first index of the row of the table in which it is.
    pub rows: Vec<Option<u16>>,
}

impl RamRuns {
    /// The runs of a RAM. A run ends before a label, and before and after a kept cell.
    pub fn of(alloc: Global, view: &View, found: &RamUse) -> Result<RamRuns, AllocError> {
        let mut sets: Vec<RamRun> = Vec::new(alloc);
        for index in 0..found.ram.size() {
            let Some(writers) = found.writers.get(usize::from(index)) else {
                continue;
            };
            if writers.is_empty() {
                continue;
            }
            let is_cut = is_cut(view, found, index);
            add_byte(
                alloc,
                &mut sets,
                found.ram,
                writers.as_slice(),
                index,
                is_cut,
            )?;
        }
        let mut runs = Vec::new(alloc);
        for set in &sets {
            add_rows(alloc, view, set, &mut runs)?;
        }
        runs.sort_by_key(|run| run.first())?;
        let rows = rows_of(alloc, found, &runs)?;
        Ok(RamRuns { runs, rows })
    }
}

/// The kept cell at a byte of work RAM.
fn cell_at(view: &View, ram: RamKind, index: u16) -> Option<KeptCell> {
    if ram != RamKind::Work {
        return None;
    }
    let cells = view.accepted().certificate().cells();
    cells.iter().find(|cell| cell.at % 0x400 == index).copied()
}

/// Whether a run ends before a byte.
fn is_cut(view: &View, found: &RamUse, index: u16) -> bool {
    let address = found.base.saturating_add(index);
    view.symbols().shown_at(address).is_some()
        || cell_at(view, found.ram, index).is_some()
        || cell_at(view, found.ram, index.wrapping_sub(1)).is_some()
}

/// Adds a byte to the runs of those that the same instructions store.
fn add_byte(
    alloc: Global,
    sets: &mut Vec<RamRun>,
    ram: RamKind,
    writers: &[u16],
    index: u16,
    is_cut: bool,
) -> Result<(), AllocError> {
    for set in sets.iter_mut() {
        if set.writers.as_slice() == writers {
            if let Some((_, last)) = set.ends.last_mut() {
                if !is_cut && last.saturating_add(1) == index {
                    *last = index;
                    return Ok(());
                }
            }
            set.ends.push((index, index))?;
            return Ok(());
        }
    }
    let mut set = RamRun {
        ram,
        ends: Vec::new(alloc),
        step: None,
        writers: Vec::new(alloc),
        cell: None,
    };
    set.ends.push((index, index))?;
    set.writers.extend_from_slice(writers)?;
    sets.push(set)?;
    Ok(())
}

/// The bytes from one run to the next, if there are three or more equal runs at equal steps.
fn step_of(ends: &[(u16, u16)]) -> Option<u16> {
    let [(first, last), (second, _), ..] = ends else {
        return None;
    };
    let step = second.saturating_sub(*first);
    let length = last.saturating_sub(*first);
    if ends.len() < 3 || step == 0 {
        return None;
    }
    let mut at = *first;
    for (low, high) in ends {
        if *low != at || high.saturating_sub(*low) != length {
            return None;
        }
        at = at.saturating_add(step);
    }
    Some(step)
}

/// Adds the rows of the table for bytes that the same instructions store.
fn add_rows(
    alloc: Global,
    view: &View,
    set: &RamRun,
    runs: &mut Vec<RamRun>,
) -> Result<(), AllocError> {
    if !has_cell(view, set) {
        let step = step_of(set.ends.as_slice());
        if step.is_some() {
            runs.push(row_of(alloc, set, set.ends.as_slice(), step, None)?)?;
            return Ok(());
        }
    }
    for ends in &set.ends {
        let cell = cell_at(view, set.ram, ends.0);
        runs.push(row_of(alloc, set, &[*ends], None, cell)?)?;
    }
    Ok(())
}

/// Whether a run begins with a kept cell.
fn has_cell(view: &View, set: &RamRun) -> bool {
    for (first, _) in &set.ends {
        if cell_at(view, set.ram, *first).is_some() {
            return true;
        }
    }
    false
}

/// The row of the table for some runs of a set.
fn row_of(
    alloc: Global,
    set: &RamRun,
    ends: &[(u16, u16)],
    step: Option<u16>,
    cell: Option<KeptCell>,
) -> Result<RamRun, AllocError> {
    let mut run = RamRun {
        ram: set.ram,
        ends: Vec::new(alloc),
        step,
        writers: Vec::new(alloc),
        cell,
    };
    run.ends.extend_from_slice(ends)?;
    run.writers.extend_from_slice(set.writers.as_slice())?;
    Ok(run)
}

/// For each byte, the first index of the row in which it is.
fn rows_of(alloc: Global, found: &RamUse, runs: &[RamRun]) -> Result<Vec<Option<u16>>, AllocError> {
    let mut rows = vec![in alloc; None; usize::from(found.ram.size())]?;
    for run in runs {
        for (first, last) in &run.ends {
            for index in *first..=*last {
                if let Some(row) = rows.get_mut(usize::from(index)) {
                    *row = Some(run.first());
                }
            }
        }
    }
    Ok(rows)
}
