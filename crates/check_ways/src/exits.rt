// The exits of procedures and of rows.

ghost use Rattle.std.specs.Prelude.{◌≡◌, ◌↔◌, IfSome, IsTrue, MatchOption, Result, false};
ghost use Rattle.check_ways.specs.Parts.{AnyExit, AtSomeExit, AreExitsOf, HasNoExit, IsOnlyExit, OnSomeExit, may_leave};
ghost use Rattle.check_tables.specs.Tables.{AreExits};
ghost use Rattle.board_fetch.specs.Decoded.{StandsAt};
ghost use Rattle.z80_decode.specs.declared.fault.DecodeFault.{DecodeFault as Fault};
ghost use Rattle.z80_decode.specs.declared.instr.Instr.{Instr as Instruction};

use crate::subject::Subject;
use abs_state::AbsState;
use abs_step::Nexts;
use address_map::Rom;
use board_fetch::fetch;
use call_graph::ProcId;
use cert_contents::{Certificate, RowId};
use cert_lines::RowRef;
use check_tables::{ProcExits, exit_of};
use std::alloc::Global;
use z80_actions::may_return;

impl<'a> Subject<'a> {
    /// The successors of another row of the certificate; None if there is no such row or it has no exit. The successors
    /// of a row that may leave its procedure are given even if no exit is among them.
    pub fn exits_at(&self, alloc: Global, id: RowId) -> Option<Nexts>
        ensures { MatchOption result (HasNoExit self.now.rom self.now.cert id)
            (λ nexts. AreExitsOf self.now.rom self.now.cert id nexts.items) }
    {
        let row = self.certificate.row(id)?;
        if !may_leave(self.rom, &row) {
            return None;
        }
        let other = Subject::of(self.rom, self.map, self.certificate, id)?;
        other.is_subject();
        match other.step(alloc) {
            Ok(nexts) => Some(nexts),
            Err(_) => None,
        }
    }

    /// The state in which a row leaves its procedure; None if there is no such row or it has no exit. It is computed
    /// without the row's other successors.
    pub fn exit_at(&self, id: RowId) -> Option<AbsState>
        ensures { IsOnlyExit self.now id result }
    {
        // By the form, the procedure of each row exists.
        self.certificate.is_in_form();
        let row = self.certificate.row(id)?;
        exit_of(self.rom, &row)
    }

    fn row_has_exit(&self, id: RowId) -> bool
        ensures { IsTrue result ↔ AtSomeExit self.now id AnyExit }
    {
        self.exit_at(id).is_some()
    }

    /// What the exits of a procedure leave, if tables are there and have it.
    pub(crate) fn exits_kept(&self, proc: ProcId) -> Option<&ProcExits>
        ensures { IfSome result (λ e. (e.now.proc ≡ proc)
            × AreExits self.now.rom self.now.cert e.now) }
    {
        self.tables?.exits(proc)
    }

    /// Whether a procedure of the certificate has an exit.
    pub(crate) fn has_exit(&self, proc: ProcId) -> bool
        ensures { IsTrue result ↔ OnSomeExit self.now proc AnyExit }
    {
        // By the form, the procedure of each row exists.
        self.certificate.is_in_form();
        match self.exits_kept(proc) {
            Some(exits) => !exits.lefts().is_empty(),
            None => self.some_row_has_exit(proc),
        }
    }

    /// The same, by looking at each row of the procedure.
    fn some_row_has_exit(&self, proc: ProcId) -> bool
        ensures { IsTrue result ↔ OnSomeExit self.now proc AnyExit }
    {
        let rows = self.certificate.rows_of(proc);
        for id in rows.start..rows.end {
            if self.row_has_exit(id) {
                return true;
            }
        }
        false
    }
}

/// Whether a row has an empty shape and a return stands at its address. Only such a row can have an exit.
fn may_leave(rom: &Rom, row: &RowRef) -> bool
    ensures { (decoded : Result Instruction Fault) → StandsAt rom.now row.now.address decoded
        → result ≡ may_leave row.now.state decoded }
{
    if !row.shape.is_empty() {
        return false;
    }
    match fetch(rom, row.address) {
        Ok((instr, _)) => may_return(&instr),
        Err(_) => false,
    }
}

/// Whether the row with this number may have an exit; if false, it has none.
pub fn may_have_exit(rom: &Rom, certificate: &Certificate, id: RowId) -> bool
    ensures { result ≡ false → HasNoExit rom.now certificate.now id }
{
    match certificate.row(id) {
        Some(row) => may_leave(rom, &row),
        None => false,
    }
}
