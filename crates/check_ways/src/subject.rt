// A row of a certificate for a ROM, together with its procedure and its instruction.

ghost use Rattle.std.specs.Prelude.{◌≡◌, ◌≤◌, IfOk, IfErr, Ok, Err, IfSome, None, Some, length, slice_get, unwrap_or};
ghost use Rattle.cert_lines.specs.declared.version.Version.TheVariants.{Three, Two};
ghost use Rattle.cert_form.specs.Contents.{map_of_board};
ghost use Rattle.board_fetch.specs.Decoded.{StandsAt};
ghost use Rattle.check_ways.specs.Parts.{IsTopOf};
ghost use Rattle.z80_decode.specs.Spelling.{spelling};
ghost use Rattle.check_steps.specs.Told.{refinement_by};
ghost use Rattle.refined_step.specs.Told.{untold};
ghost use Rattle.check_ways.specs.Ways.{IsSubject, IsTold, behind_of, step_by, step_of, told_of, writes_from};

use abs_draft::{DataWrite, Ground};
use abs_state::AbsState;
use abs_step::{Nexts, Reason, RowStep, row_step};
use address_map::{Map, Rom};
use board_fetch::fetch;
use call_graph::ProcId;
use cert_contents::{Certificate, RowId};
use cert_lines::{Proc, RowRef, Version};
use check_cover::{Arrival, is_inline};
use check_steps::refinement;
use check_tables::Tables;
use loop_bounds::{Effect, Linear};
use refined_step::{RefinedStep, StepTold, refined_step};
use smallvec::SmallVec;
use std::alloc::Global;
use std::marker::Model;
use z80_decode::{DecodeFault, Instr};

/// What the step of a row gives.
#[derive(Drop)]
pub struct SubjectStep {
    /// The data writes, a byte each, in order.
    pub writes: SmallVec<DataWrite, 2>,
    /// The successors, or the reason for which the step itself refuses the row.
    pub answer: Result<Nexts, Reason>,
    /// In version 3 what the refined step says beside; nothing in versions 1 and 2.
    pub told: StepTold,
}

/// A row, its procedure, and its decoded instruction.
#[derive(Drop)]
pub struct Subject<'a> {
    pub rom: &'a Rom<'a>,
    pub map: &'a Map,
    pub certificate: &'a Certificate,
    pub row: RowRef<'a>,
    pub proc: Proc,
    pub decoded: Result<Instr, DecodeFault>,
    /// The length of the instruction at the row's address, 1 to 4 bytes; 0 where no instruction is decoded.
    pub(crate) len: u8,
    /// The address after the row's instruction; the row's own address where no instruction is decoded.
    pub behind: u16,
    /// The row's state.
    pub state: AbsState,
    /// Tables of the certificate for the ROM, if they were made.
    pub(crate) tables: Option<&'a Tables<'a>>,
    /// What is said of a way without conditions.
    nothing: StepTold,
}

impl<'a> Model for Subject<'a> {
    ghost use Rattle.std.specs.Prelude.{◌≡◌, IfOk, IfSome, length};
    ghost use Rattle.z80_decode.specs.Spelling.{spelling};
    ghost use Rattle.cert_form.specs.Contents.{map_of_board};
    ghost use Rattle.refined_step.specs.Told.{untold};
    ghost use Rattle.check_ways.specs.Ways.{SubjectView, IsSubject, behind_of};

    ghost Value = { SubjectView };

    ghost view = { λ s. record { rom = s.rom.now; cert = s.certificate.now; row = s.row; proc = s.proc; decoded = s.decoded } };

    ghost invariant = { λ s.
        IsSubject (record { rom = s.rom.now; cert = s.certificate.now; row = s.row; proc = s.proc; decoded = s.decoded })
        × (s.map.now ≡ map_of_board s.certificate.now) × (s.map.now.rom_len ≡ length s.rom.now)
        × (s.state ≡ s.row.state) × (s.behind ≡ behind_of s.decoded s.row.address)
        × IfOk s.decoded (λ instr. s.len ≡ length (spelling instr)) × (s.nothing ≡ untold)
        × IfSome s.tables (λ t. (t.now.rom ≡ s.rom.now) × (t.now.cert ≡ s.certificate.now)) };
}

impl<'a> Subject<'a> {
    /// The row with this number; None if there is none. The map has to be the certificate's, for a ROM of this length.
    pub fn of(
        rom: &'a Rom<'a>,
        map: &'a Map,
        certificate: &'a Certificate,
        id: RowId,
    ) -> Option<Subject<'a>>
        requires map { map.now ≡ map_of_board certificate.now }
        requires len { map.now.rom_len ≡ length rom.now }
        ensures none { result ≡ None → slice_get certificate.now.rows id ≡ None }
        ensures some { IfSome result (λ s. (s.rom ≡ rom.now) × (s.cert ≡ certificate.now)
            × (slice_get certificate.now.rows id ≡ Some s.row)) }
    {
        // By the form, the procedure of each row exists.
        certificate.is_in_form();
        let row = certificate.row(id)?;
        let proc = certificate.proc(row.proc)?;
        let (decoded, len, behind) = stands_at(rom, row.address);
        let state = row.state();
        Some(Subject {
            rom,
            map,
            certificate,
            row,
            proc,
            decoded,
            len,
            behind,
            state,
            tables: None,
            nothing: StepTold::none(),
        })
    }

    /// The same row with tables of its certificate for its ROM. They save a search through the rows of callees.
    pub fn with_tables(self, tables: &'a Tables<'a>) -> Subject<'a>
        requires rom { tables.now.rom ≡ self.rom }
        requires certificate { tables.now.cert ≡ self.cert }
        ensures { result ≡ self.entry }
    {
        let mut subject = self;
        subject.tables = Some(tables);
        subject
    }

    /// A law: the certificate has the row, with this procedure, and this is decoded at its address.
    pub fn is_subject(&self)
        ensures { IsSubject self.now }
    {
        let _ = &self.row;
    }

    /// The time of the row's procedure, 0 to 1,000,000,000 T-states; 0 where it has none.
    pub(crate) fn time(&self) -> u32
        ensures value { result ≡ unwrap_or self.now.proc.time 0 }
        ensures fits { result ≤ 1000000000 }
    {
        // By the form, a time is at most 1,000,000,000.
        self.certificate.is_in_form();
        self.is_subject();
        self.proc.time.unwrap_or(0)
    }

    /// The data writes of the row, and its successors or the reason for which the version's step refuses it.
    pub fn row_step(&self, alloc: Global) -> SubjectStep
        ensures writes { result.writes.items ≡ writes_from self.now }
        ensures ok { IfOk result.answer (λ nexts. step_of self.now ≡ Ok nexts.items) }
        ensures err { IfErr result.answer (λ reason. step_of self.now ≡ Err reason) }
        ensures told { IsTold self.now result.told }
    {
        match &self.decoded {
            Ok(instr) => match self.certificate.version() {
                Version::One | Version::Two => plain(self.plain_step(alloc, instr)),
                Version::Three => refined(self.refined_step(alloc, instr)),
            },
            Err(fault) => plain(RowStep::undecoded(alloc, *fault)),
        }
    }

    /// The data writes of the row's instruction, and its successors or the reason, by the rules of versions 1 and 2. As
    /// `row_step`, but nothing is moved.
    pub fn plain_step(&self, alloc: Global, instr: &Instr) -> RowStep
        requires decoded { self.now.decoded ≡ Ok instr.now }
        ensures writes { result.writes.items ≡ writes_from self.now }
        ensures ok { IfOk result.answer (λ nexts. step_by Two self.now instr.now ≡ Ok nexts.items) }
        ensures err { IfErr result.answer (λ reason. step_by Two self.now instr.now ≡ Err reason) }
    {
        // By the form, there are at most 256 cells.
        self.certificate.is_in_form();
        row_step(
            alloc,
            &Ground::of(self.rom, self.map, self.certificate.cells()),
            self.row.address,
            self.row.proc == 0,
            is_inline(self.certificate, self.row.address),
            instr,
            self.len,
            &self.state,
        )
    }

    /// The same by the rules of version 3, with what the step says beside.
    pub fn refined_step(&self, alloc: Global, instr: &Instr) -> RefinedStep
        requires decoded { self.now.decoded ≡ Ok instr.now }
        ensures writes { result.writes.items ≡ writes_from self.now }
        ensures ok { IfOk result.answer (λ nexts. step_by Three self.now instr.now ≡ Ok nexts.items) }
        ensures err { IfErr result.answer (λ reason. step_by Three self.now instr.now ≡ Err reason) }
        ensures told { result.told ≡ told_of self.now (Ok instr.now) }
    {
        // By the form, there are at most 256 cells.
        self.certificate.is_in_form();
        let row = &self.row;
        refined_step(
            alloc,
            &Ground::of(self.rom, self.map, self.certificate.cells()),
            row.address,
            row.proc == 0,
            is_inline(self.certificate, row.address),
            instr,
            self.len,
            &self.state,
            row.parts,
        )
    }

    /// The successors of the row, or the reason for which the abstract step refuses it.
    pub fn step(&self, alloc: Global) -> Result<Nexts, Reason>
        ensures ok { IfOk result (λ nexts. step_of self.now ≡ Ok nexts.items) }
        ensures err { IfErr result (λ reason. step_of self.now ≡ Err reason) }
    {
        self.row_step(alloc).answer
    }

    /// An upper bound of the potentials of the rows from `start` to below `end`, if tables have one.
    pub(crate) fn top(&self, start: RowId, end: RowId) -> Option<Linear>
        ensures { IfSome result (IsTopOf self.now.cert start end) }
    {
        Linear::of_constant(self.tables?.top(start, end)?)
    }

    /// The arrival at an address of a procedure, from the row, by a step with this effect.
    pub(crate) fn arrival_at<'s>(
        &'s self,
        proc: ProcId,
        address: u16,
        effect: &'s Effect,
        moved: &'s Effect,
        told: &'s StepTold,
    ) -> Arrival<'s, 's>
        ensures { result ≡ record {
          proc = proc;
          address = address;
          facts = self.now.row.facts;
          before = self.now.row.state;
          effect = effect.now;
          refined = refinement_by self.now.cert.version told.now moved.now;
        } }
    {
        Arrival {
            proc,
            address,
            facts: self.row.facts.as_slice(),
            before: &self.state,
            effect,
            refined: refinement(self.certificate.version(), told, moved),
        }
    }

    /// No linear effect and no conditions: those of a call and a return, and of each step before version 3.
    pub fn untold(&self) -> &StepTold
        ensures { result.now ≡ untold }
    {
        &self.nothing
    }
}

/// What the abstract step gives.
fn plain(step: RowStep) -> SubjectStep
    ensures writes { result.writes ≡ step.writes }
    ensures answer { result.answer ≡ step.answer }
    ensures told { result.told ≡ untold }
{
    let RowStep { writes, answer, .. } = step;
    SubjectStep {
        writes,
        answer,
        told: StepTold::none(),
    }
}

/// What the refined step gives.
fn refined(step: RefinedStep) -> SubjectStep
    ensures writes { result.writes ≡ step.writes }
    ensures answer { result.answer ≡ step.answer }
    ensures told { result.told ≡ step.told }
{
    let RefinedStep {
        writes,
        answer,
        told,
        ..
    } = step;
    SubjectStep {
        writes,
        answer,
        told,
    }
}

/// What is decoded at an address of the ROM, its length in bytes (0 where nothing is), and the address after it.
fn stands_at(rom: &Rom, address: u16) -> (Result<Instr, DecodeFault>, u8, u16)
    ensures stands { StandsAt rom.now address result.0 }
    ensures len { IfOk result.0 (λ instr. result.1 ≡ length (spelling instr)) }
    ensures behind { result.2 ≡ behind_of result.0 address }
{
    match fetch(rom, address) {
        Ok((instr, len)) => (Ok(instr), len, address.wrapping_add(u16::from(len))),
        Err(fault) => (Err(fault), 0, address),
    }
}
