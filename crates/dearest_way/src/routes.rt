// The search for the dearest way.

ghost use Rattle.std.specs.Prelude.{◌≡◌, length};

use crate::entered::Entered;
use crate::parts::UntimedPart;
use crate::values::Values;
use crate::worth::greatest;
use address_map::Rom;
use call_graph::ProcId;
use cert_contents::{Certificate, RowId};
use check_ways::potential_of;
use std::alloc::{AllocError, Global};

/// A way as it was found: its stages, and the rows of its loops in their order.
#[derive(Drop)]
pub(crate) struct Route {
    pub(crate) stages: Vec<UntimedPart>,
    pub(crate) loops: Vec<Vec<RowId>>,
}

/// The dearest way of a procedure from its entry.
pub(crate) fn route_of(
    alloc: Global,
    rom: &Rom,
    certificate: &Certificate,
    proc: ProcId,
    entry: u16,
) -> Result<Route, AllocError>
    requires { certificate.now.rom_len ≡ length rom.now }
{
    let values = Values::of(alloc, rom, certificate, proc)?;
    let rows = certificate.rows_of(proc);
    let first = rows.start;
    let mut route = Route {
        stages: Vec::new(alloc),
        loops: Vec::new(alloc),
    };
    let mut row = dearest_entry(certificate, proc, entry, &values);
    for _ in rows.start..rows.end {
        let Some(at) = row else {
            break;
        };
        row = route.add(alloc, &values, first, at)?;
    }
    Ok(route)
}

impl Route {
    /// Adds a stage, and gives the row that comes next.
    fn add(
        &mut self,
        alloc: Global,
        values: &Values,
        first: RowId,
        row: u32,
    ) -> Result<Option<u32>, AllocError> {
        if !values.is_in_loop(row) {
            self.stages.push(UntimedPart {
                row: first.saturating_add(row),
                left_by: None,
            })?;
            return Ok(match values.ahead(row) {
                Some(ahead) => ahead.next,
                None => None,
            });
        }
        let leaving = values.leaving(row);
        let last = match leaving {
            Some(leaving) => leaving.from,
            None => row,
        };
        self.stages.push(UntimedPart {
            row: first.saturating_add(row),
            left_by: Some(first.saturating_add(last)),
        })?;
        let mut rows = Vec::new(alloc);
        for placed in values.loop_of(row) {
            rows.push(first.saturating_add(u32::from(placed.row)))?;
        }
        self.loops.push(rows)?;
        Ok(match leaving {
            Some(leaving) => Some(leaving.to),
            None => None,
        })
    }
}

/// The dearest row at the entry of a procedure, counted from its first row; the first of equals.
fn dearest_entry(
    certificate: &Certificate,
    proc: ProcId,
    entry: u16,
    values: &Values,
) -> Option<u32> {
    let first = certificate.rows_of(proc).start;
    let rows = certificate.rows_at(proc, entry);
    let mut best: Option<(i64, u32)> = None;
    for id in rows.start..rows.end {
        let row = id.saturating_sub(first);
        if let Some(value) = value_at(certificate, id, row, values) {
            let is_better = match best {
                Some((most, _)) => value > most,
                None => true,
            };
            if is_better {
                best = Some((value, row));
            }
        }
    }
    match best {
        Some((_, row)) => Some(row),
        None => None,
    }
}

/// The T-states from a row on, over its own ranges.
fn value_at(certificate: &Certificate, id: RowId, row: u32, values: &Values) -> Option<i64> {
    if !values.is_in_loop(row) {
        return Some(values.ahead(row)?.sum);
    }
    let there = certificate.row(id)?;
    let own = there.state();
    let entered = Entered {
        own: &own,
        arriving: &own,
    };
    Some(greatest(&potential_of(&there), &entered))
}
