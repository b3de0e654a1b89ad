// Which rows are on a cycle of links.

use crate::groups::Placed;
use crate::runs::RowRuns;
use std::alloc::{AllocError, Global};

/// The number of rows of each group, by the groups' numbers.
fn sizes_of(alloc: Global, placed: &[Placed]) -> Result<Vec<u32>, AllocError> {
    let mut sizes = vec![in alloc; 0u32; placed.len()]?;
    for row in placed {
        if let Some(size) = sizes.get_mut(usize::from(row.group)) {
            *size = size.saturating_add(1);
        }
    }
    Ok(sizes)
}

/// Whether a row may come next after itself.
fn leads_to_itself(runs: &RowRuns, row: u16) -> bool {
    runs.as_slice()
        .iter()
        .any(|run| run.start <= row && row < run.end)
}

/// Which rows are on a cycle, by their numbers: those in a group with other rows, and those that lead to themselves.
pub fn rows_on_cycles(
    alloc: Global,
    all: &[RowRuns],
    placed: &[Placed],
) -> Result<Vec<bool>, AllocError> {
    let sizes = sizes_of(alloc, placed)?;
    let mut on_cycles = Vec::new(alloc);
    for row in placed {
        let is_one_of_more = sizes.get(usize::from(row.group)).copied() > Some(1);
        let leads_back = match all.get(usize::from(row.row)) {
            Some(runs) => leads_to_itself(runs, row.row),
            None => false,
        };
        on_cycles.push(row.is_in_group() && (is_one_of_more || leads_back))?;
    }
    Ok(on_cycles)
}
