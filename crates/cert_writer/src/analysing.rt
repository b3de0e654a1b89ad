// From a ROM and annotations to an accepted certificate.

ghost use Rattle.std.specs.Prelude.{◌≡◌, ◌↔◌, IfOk, IsSome, length};
ghost use Rattle.board_step.specs.Safe.{Safe};
ghost use Rattle.cert_checker.specs.Certified.{certified_profile, nmi_time};
ghost use Rattle.check_rules.specs.Acceptance.{Accepts};
ghost use Rattle.cert_writer.specs.Routine.{HasRoutine};

use crate::bounding::{set_bounds, set_potentials};
use crate::calls::{calls_of, procs_in_order, under_all};
use crate::fault::WriterFault;
use crate::layout::Layout;
use crate::parts::{facts_fit, procs_of, rows_of, splits_of, version_from, version_of};
use crate::times::Timed;
use abs_step::Reason;
use address_map::Rom;
use analysis::{Flow, Task};
use annotations::Annotations;
use cert_checker::{Accepted, check};
use cert_form::INLINE_LIMIT;
use certificate::{Certificate, Parts, Proc, Row, Split, Version};
use check_rules::{Refused, region_fits};
use std::alloc::Global;

/// Makes a certificate for a ROM by its annotations (docs/ANALYSIS.md). The rules accept it.
///
/// # Errors
///
/// As for `certify`.
pub fn analyse(alloc: Global, bytes: &[u8], said: &Annotations) -> Result<Certificate, WriterFault>
    ensures accepted { IfOk result (λ c. Accepts bytes.now c) }
    // The region, the budget, the board and the cells are those of the annotations.
    ensures said { IfOk result (λ c. (c.region ≡ said.now.region) × (c.budget ≡ said.now.budget)
        × (c.board ≡ said.now.board) × (c.cells ≡ said.now.cells)) }
    // The certificate has an NMI routine exactly where the annotations have a budget.
    ensures routine { IfOk result (λ c. IsSome said.now.budget ↔ HasRoutine c.procs) }
{
    match certify(alloc, bytes, said) {
        Ok(accepted) => Ok(accepted.into_certificate()),
        Err(fault) => Err(fault),
    }
}

/// Makes a certificate for a ROM by its annotations (docs/ANALYSIS.md), and checks it once. What `check` accepted is
/// the result.
///
/// # Errors
///
/// The first that applies (docs/ANALYSIS.md, "What is answered"): `Refused` for reason 1 or 2; `Limit` if a certificate
/// has no room for the lines; `Refused` with the first row that leads nowhere for a reason; `Recursion`;
/// `LoopUnbounded`; `Limit` for a depth, a time or a potential; `Refused` with the answer of `check`. `NoMemory` where
/// memory was refused.
pub fn certify<'r>(
    alloc: Global,
    bytes: &'r [u8],
    said: &Annotations,
) -> Result<Accepted<'r>, WriterFault>
    ensures rom { IfOk result (λ accepted. accepted.rom ≡ bytes.now) }
    ensures accepted { IfOk result (λ accepted. Accepts bytes.now accepted.certificate) }
    // Every run of the board on the ROM is safe.
    ensures safe { IfOk result
        (λ accepted. Safe (certified_profile bytes.now accepted.certificate)
        (nmi_time accepted.certificate)) }
    // The region, the budget, the board and the cells are those of the annotations.
    ensures said { IfOk result
        (λ accepted. let c = accepted.certificate in (c.region ≡ said.now.region)
        × (c.budget ≡ said.now.budget) × (c.board ≡ said.now.board)
        × (c.cells ≡ said.now.cells)) }
    // The certificate has an NMI routine exactly where the annotations have a budget.
    ensures routine { IfOk result
        (λ accepted. IsSome said.now.budget ↔ HasRoutine accepted.certificate.procs) }
{
    let certificate = made(alloc, bytes, said)?;
    certificate.is_in_form();
    match check(alloc, bytes, certificate) {
        Ok(accepted) => Ok(accepted),
        Err(fault) => Err(WriterFault::from(fault)),
    }
}

/// Makes a certificate for a ROM of what an analysis found by these annotations, and checks it once. Its version is the
/// one that the annotations need, but at least `version`. The analysis went by the rules of that version.
///
/// # Errors
///
/// As for `certify`.
pub fn certify_flow<'r>(
    alloc: Global,
    bytes: &'r [u8],
    said: &Annotations,
    flow: &Flow,
    version: Version,
) -> Result<Accepted<'r>, WriterFault>
    ensures rom { IfOk result (λ accepted. accepted.rom ≡ bytes.now) }
    ensures accepted { IfOk result (λ accepted. Accepts bytes.now accepted.certificate) }
    // Every run of the board on the ROM is safe.
    ensures safe { IfOk result
        (λ accepted. Safe (certified_profile bytes.now accepted.certificate)
        (nmi_time accepted.certificate)) }
{
    let Some(rom) = Rom::of(bytes) else {
        return Err(of_whole(Reason::Rom));
    };
    let map = said.board().map(rom.len());
    if !region_fits(&map, said.region(), said.cells()) {
        return Err(of_whole(Reason::Region));
    }
    let Some(task) = Task::of(&rom, &map, said) else {
        return Err(WriterFault::Limit);
    };
    if said.inlines().len() > INLINE_LIMIT {
        return Err(WriterFault::Limit);
    }
    let version = version_from(said, version);
    let certificate = made_of(alloc, &rom, &task, said, flow, version)?;
    certificate.is_in_form();
    let checked = check(alloc, bytes, certificate);
    Ok(checked?)
}

/// A certificate for a ROM, which may not be accepted.
fn made(alloc: Global, bytes: &[u8], said: &Annotations) -> Result<Certificate, WriterFault>
    ensures said { IfOk result (λ c. (c.region ≡ said.now.region) × (c.budget ≡ said.now.budget)
        × (c.board ≡ said.now.board) × (c.cells ≡ said.now.cells)) }
{
    let Some(rom) = Rom::of(bytes) else {
        return Err(of_whole(Reason::Rom));
    };
    let map = said.board().map(rom.len());
    if !region_fits(&map, said.region(), said.cells()) {
        return Err(of_whole(Reason::Region));
    }
    if said.inlines().len() > INLINE_LIMIT {
        return Err(WriterFault::Limit);
    }
    let Some(task) = Task::of(&rom, &map, said) else {
        return Err(WriterFault::Limit);
    };
    let flow = Flow::run(alloc, &task)?;
    made_of(alloc, &rom, &task, said, &flow, version_of(said))
}

/// A refusal of the whole, reported at 0000.
fn of_whole(reason: Reason) -> WriterFault {
    WriterFault::Refused(Refused {
        row: None,
        address: 0,
        reason,
    })
}

/// The certificate of this version of what an analysis found.
fn made_of(
    alloc: Global,
    rom: &Rom,
    task: &Task,
    said: &Annotations,
    flow: &Flow,
    version: Version,
) -> Result<Certificate, WriterFault>
    ensures said { IfOk result (λ c. (c.region ≡ said.now.region) × (c.budget ≡ said.now.budget)
        × (c.board ≡ said.now.board) × (c.cells ≡ said.now.cells)) }
{
    let layout = Layout::of(alloc, flow, said.budget().is_some())?;
    let splits = splits_of(alloc, task, flow, &layout)?;
    if !facts_fit(said, flow) {
        return Err(WriterFault::Limit);
    }
    if let Some((place, reason)) = flow.first_refused() {
        return Err(WriterFault::Refused(Refused {
            row: None,
            address: place.address,
            reason,
        }));
    }
    let calls = calls_of(alloc, flow, &layout)?;
    let order = procs_in_order(alloc, &layout, &calls)?;
    let under = under_all(alloc, flow, &layout, &calls, &order)?;
    let procs = procs_of(alloc, &layout, &under)?;
    let rows = rows_of(alloc, version, said, flow, &layout)?;
    let mut certificate = without_bounds(alloc, rom, said, version, procs, splits, rows)?;
    let timed = Timed::of(
        alloc,
        rom,
        &certificate,
        flow,
        &layout,
        &order,
        said.loops(),
    )?;
    set_bounds(&mut certificate, flow, &layout, &under, &timed.times)?;
    set_potentials(&mut certificate, &timed.potentials)?;
    Ok(certificate)
}

/// The certificate of what the annotations say about the whole ROM, with this version and these lists. The bounds are
/// still missing: the depths and times of the procedures, and the potentials of the rows.
fn without_bounds(
    alloc: Global,
    rom: &Rom,
    said: &Annotations,
    version: Version,
    procs: Vec<Proc>,
    splits: Vec<Split>,
    rows: Vec<Row>,
) -> Result<Certificate, WriterFault>
    ensures len { IfOk result (λ c. c.rom_len ≡ length rom.now) }
    ensures said { IfOk result (λ c. (c.region ≡ said.now.region) × (c.budget ≡ said.now.budget)
        × (c.board ≡ said.now.board) × (c.cells ≡ said.now.cells)) }
{
    let parts = Parts {
        version,
        rom_len: rom.len(),
        board: said.board(),
        region: said.region(),
        budget: said.budget(),
        procs,
        splits,
        inlines: Vec::from_slice(alloc, said.inlines())?,
        cells: Vec::from_slice(alloc, said.cells())?,
        rows,
    };
    match Certificate::of(alloc, parts) {
        Ok(certificate) => Ok(certificate),
        Err(fault) => Err(WriterFault::from(fault)),
    }
}
