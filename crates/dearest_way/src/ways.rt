// The dearest way of a procedure.

ghost use Rattle.std.specs.Prelude.{◌≡◌, ◌<◌, ◌↔◌, IfOk, IsTrue, length};
ghost use Rattle.path_time.specs.Walks.{BelongsAt, HasNoTime};
ghost use Rattle.dearest_way.specs.Along.{BeginsAt, IsDearestWay};

use crate::fault::WayFault;
use crate::parts::{WayPart, parts_along};
use crate::routes::route_of;
use address_map::Rom;
use call_graph::ProcId;
use cert_contents::{Certificate, RowId};
use check_ways::cost_before;
use std::alloc::Global;

/// A way from the entry of a procedure to an exit.
#[derive(Drop)]
pub struct DearestWay {
    /// Its rows and loops.
    pub parts: Vec<WayPart>,
    /// The T-states of all parts, for the NMI routine with those of the acceptance.
    pub sum: u32,
    /// The rows of each loop, in the order of the parts that are loops.
    pub loops: Vec<Vec<RowId>>,
}

/// The dearest way of a procedure of a certificate (docs/CHECKER.md, "Walks"). Rows outside of loops cost what they
/// cost on a walk. A loop costs what its potential comes to where the way enters it, less the T-states of what follows.
/// All parts come to at most the procedure's time. The ROM has to have as many bytes as the certificate says.
///
/// # Errors
///
/// `Untimed` if the procedure has no time. `NoWay` if no way to an exit was found, or if the parts of the one that was
/// found come to more than the procedure's time. `NoMemory` where memory was refused.
pub fn dearest(
    alloc: Global,
    rom: &Rom,
    certificate: &Certificate,
    proc: ProcId,
) -> Result<DearestWay, WayFault>
    requires of { proc < length certificate.now.procs }
    requires len { certificate.now.rom_len ≡ length rom.now }
    ensures way { IfOk result
        (λ way. IsDearestWay rom.now certificate.now proc way.parts.items way.sum) }
    ensures untimed { (result ≡ Err WayFault.Untimed) ↔ HasNoTime certificate.now proc }
{
    let Some(procedure) = certificate.proc(proc) else {
        unreachable!()
    };
    let Some(time) = procedure.time else {
        return Err(WayFault::Untimed);
    };
    let Ok(route) = route_of(alloc, rom, certificate, proc, procedure.entry) else {
        return Err(WayFault::NoMemory);
    };
    let (parts, rest) = parts_along(alloc, rom, certificate, route.stages.as_slice())?;
    if !begins_at(certificate, proc, procedure.entry, parts.as_slice()) {
        return Err(WayFault::NoWay);
    }
    let Some(sum) = rest.checked_add(cost_before(procedure.kind)) else {
        return Err(WayFault::NoWay);
    };
    if sum > time {
        return Err(WayFault::NoWay);
    }
    Ok(DearestWay {
        parts,
        sum,
        loops: route.loops,
    })
}

/// Whether the first part begins with a row of a procedure at an address.
fn begins_at(certificate: &Certificate, proc: ProcId, address: u16, parts: &[WayPart]) -> bool
    ensures { IsTrue result → BeginsAt certificate.now proc address parts.now }
{
    match parts {
        [first, ..] => is_at(certificate, proc, address, first.row),
        [] => false,
    }
}

/// Whether a row is one of a procedure at an address.
fn is_at(certificate: &Certificate, proc: ProcId, address: u16, row: RowId) -> bool
    ensures { IsTrue result → BelongsAt certificate.now proc address row }
{
    match certificate.row(row) {
        Some(there) => there.proc == proc && there.address == address,
        None => false,
    }
}
