// A certificate that is read line by line.

ghost use Rattle.std.specs.Prelude.{◌≡◌, [], suc, length, OnErr};
ghost use Rattle.cert_form.specs.Reader.{EndsReading, IsProgress, TakesLine, TakesText, lines_read};
ghost use Rattle.cert_form.specs.Text.{list_lines};

use crate::value::{Certificate, Unfinished};
use cert_form::{CertFault, ShapeNumbers, Stage};
use cert_lines::{Line, ReadLine};
use std::alloc::Global;
use std::marker::Model;

/// Reads a certificate line by line.
#[derive(Drop)]
pub struct Reader {
    pub(crate) stage: Stage,
    pub(crate) draft: Unfinished,
    pub(crate) numbers: ShapeNumbers,
}

impl Model for Reader {
    ghost use Rattle.cert_form.specs.Reader.{ReaderView, IsProgress};

    ghost Value = { ReaderView };

    ghost view = { λ r. record { stage = r.stage; contents = r.draft } };

    ghost invariant = { λ r. IsProgress record { stage = r.stage; contents = r.draft } };
}

impl Reader {
    /// A reader that has read no line.
    pub fn new(alloc: Global) -> Reader
        ensures none { lines_read result ≡ [] }
        ensures form { IsProgress result }
    {
        Reader {
            stage: Stage::Header,
            draft: Unfinished::new(alloc),
            numbers: ShapeNumbers::new(alloc),
        }
    }

    /// The number of the next line, from 1.
    #[tactic(auto, using(crate::proofs::BoardLemmas::board_line_count))]
    pub fn number(&self) -> u64
        ensures { result ≡ suc (length (lines_read self.now)) }
    {
        let board = u64::from(self.draft.version.names_board());
        match self.stage {
            Stage::Header => 1,
            Stage::Rom => 2,
            Stage::Board => 3,
            Stage::Stack => 3 + board,
            Stage::Budget => 4 + board,
            Stage::Nothing => 6 + board + self.listed(),
            _ => 5 + board + self.listed(),
        }
    }

    /// How many lines of lists were read.
    fn listed(&self) -> u64
        ensures { result ≡ length (list_lines self.now.contents) }
    {
        let draft = &self.draft;
        let lines = draft.procs.len()
            + draft.splits.len()
            + draft.inlines.len()
            + draft.cells.len()
            + draft.rows.len();
        lines as u64
    }

    /// The fault of a line that may not come next.
    pub fn bad_line(&self) -> CertFault
        ensures { result ≡ CertFault.Line (suc (length (lines_read self.now))) }
    {
        CertFault::Line(self.number())
    }

    /// Reads one more line.
    ///
    /// # Errors
    ///
    /// `Line` with the line's number if the line is out of form or may not come next; `Limit` if it is in form but one
    /// too many; `NoMemory` where memory was refused. The reader stays as it was.
    pub fn take(&mut self, line: Line) -> Result<(), CertFault>
        ensures line { TakesLine self.old line result self.new }
        ensures err { OnErr result (self.new ≡ self.old) }
    {
        match line {
            Line::Header(version) => self.take_header(version),
            Line::Rom(len) => self.take_rom(len),
            Line::Board(board) => self.take_board(board),
            Line::Stack(region) => self.take_stack(region),
            Line::Budget(budget) => self.take_budget(budget),
            Line::Proc(proc) => self.take_proc(proc),
            Line::Split(split) => self.take_split(split),
            Line::Inline(address) => self.take_inline(address),
            Line::Cell(cell) => self.take_cell(cell),
            Line::Row(row) => self.take_row(row),
            Line::End => self.take_end(),
        }
    }

    /// Reads one more line from its text, which is given without its line feed.
    ///
    /// # Errors
    ///
    /// As for `take`. `Limit` comes also for a row with too many slots, flag parts, facts or terms.
    pub fn line(&mut self, text: &[u8]) -> Result<(), CertFault>
        ensures line { TakesText self.old text.now result self.new }
        ensures err { OnErr result (self.new ≡ self.old) }
    {
        match Line::of(self.draft.version, text) {
            Some(ReadLine::Whole(line)) => self.take(line),
            Some(ReadLine::Crowded(place)) => Err(self.crowded(place)),
            None => Err(self.bad_line()),
        }
    }

    /// The certificate, if all of its lines were read; else the fault of the next line.
    pub fn end(self) -> Result<Certificate, CertFault>
        ensures { EndsReading self result }
    {
        if self.stage != Stage::Nothing {
            return Err(self.bad_line());
        }
        Ok(Certificate { draft: self.draft })
    }
}
