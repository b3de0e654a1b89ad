// What the exits of one procedure leave, each once.

ghost use Rattle.std.specs.Prelude.{◌≡◌, IfOk, OnOk};
ghost use Rattle.check_tables.specs.Lefts.{AddsExit, AreLeft};
ghost use Rattle.check_tables.specs.Tables.{AreExits};

use crate::exits::exit_of;
use crate::left::Left;
use crate::widening::widest;
use abs_state::AbsState;
use address_map::Rom;
use call_graph::ProcId;
use cert_contents::{Certificate, RowId};
use indexmap::IndexSet;
use std::alloc::{AllocError, Global};
use std::marker::Model;

/// What the exits of a procedure leave, each once, and the joins of those with one pattern of origins.
#[derive(Drop)]
pub struct ProcExits {
    pub(crate) proc: ProcId,
    lefts: Vec<Left>,
    wides: Vec<AbsState>,
}

impl Model for ProcExits {
    ghost use Rattle.check_tables.specs.Tables.{ProcExitsView};

    ghost Value = { ProcExitsView };

    ghost view = { λ e. record { proc = e.proc; lefts = e.lefts.items; wides = e.wides.items } };
}

impl ProcExits {
    /// What the exits of the procedure with this number leave. The error is refused memory.
    pub(crate) fn of(
        alloc: Global,
        rom: &Rom,
        certificate: &Certificate,
        proc: ProcId,
    ) -> Result<ProcExits, AllocError>
        ensures proc { IfOk result (λ e. e.proc ≡ proc) }
        ensures exits { IfOk result (AreExits rom.now certificate.now) }
    {
        let lefts = lefts_of(alloc, rom, certificate, proc)?;
        let wides = widest(alloc, lefts.as_slice())?;
        let lefts = Vec::from_slice(alloc, lefts.as_slice())?;
        Ok(ProcExits { proc, lefts, wides })
    }

    /// What the exits leave, each once.
    pub fn lefts(&self) -> &[Left]
        ensures { result.now ≡ self.now.lefts }
    {
        self.lefts.as_slice()
    }

    /// Joins of what the exits leave. For each exit one of them covers its state and has the same origins. There are
    /// none if the exits have too many patterns of origins, or if there is no exit.
    pub fn wides(&self) -> &[AbsState]
        ensures { result.now ≡ self.now.wides }
    {
        self.wides.as_slice()
    }
}

fn lefts_of(
    alloc: Global,
    rom: &Rom,
    certificate: &Certificate,
    proc: ProcId,
) -> Result<IndexSet<Left>, AllocError>
    ensures { IfOk result (λ lefts. AreLeft rom.now certificate.now proc lefts.keys) }
{
    let mut lefts = IndexSet::new(alloc);
    let rows = certificate.rows_of(proc);
    for id in rows.start..rows.end {
        add_exit(&mut lefts, rom, certificate, id)?;
    }
    Ok(lefts)
}

/// Adds what the row with this number leaves at its exit, if it has one.
fn add_exit(
    lefts: &mut IndexSet<Left>,
    rom: &Rom,
    certificate: &Certificate,
    id: RowId,
) -> Result<(), AllocError>
    ensures { OnOk result (AddsExit rom.now certificate.now id lefts.old.keys lefts.new.keys) }
{
    if let Some(row) = certificate.row(id)
        && let Some(exit) = exit_of(rom, &row)
    {
        lefts.insert(Left::of(&exit))?;
    }
    Ok(())
}
