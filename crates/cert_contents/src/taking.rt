// How a reader takes each kind of line: whether it may come next, whether there is room for it, and what it says.

ghost use Rattle.std.specs.Prelude.{◌≡◌, ◌↔◌, IsTrue, OnErr, length};
ghost use Rattle.cert_lines.specs.Row.{IsRow, IsShortRow};
ghost use Rattle.cert_lines.specs.declared.line.Line.{Line};
ghost use Rattle.cert_form.specs.Form.{MayArm};
ghost use Rattle.cert_form.specs.Reader.{IsOpenTo, MayFollow, MayStandAt, TakesLine, TellsCrowded, stage_rank};

use crate::reader::Reader;
use abs_state::{KeptCell, Mode};
use address_map::Region;
use cert_fields::{are_facts, is_linear, is_shape};
use cert_flags::are_parts;
use cert_form::{
    CELL_LIMIT, CertFault, INLINE_LIMIT, PROC_LIMIT, ROW_LIMIT, SPLIT_LIMIT, Stage,
    cell_may_follow, inline_may_follow, is_cell, place_may_follow, proc_may_follow,
    split_may_follow,
};
use cert_lines::{BoardMap, Proc, Row, RowPlace, Split, Version};

impl Reader {
    /// Whether a line of the list of this stage may come: the procedures are complete, and no line of a later stage was
    /// read.
    fn is_open_to(&self, stage: Stage) -> bool
        ensures { IsTrue result ↔ IsOpenTo (stage_rank stage) self.now }
    {
        let budget = self.draft.budget.is_some();
        let procs = self.draft.procs.len();
        self.stage.rank() >= 5
            && self.stage.rank() <= stage.rank()
            && procs >= 1
            && (!budget || procs >= 2)
    }

    pub(crate) fn take_header(&mut self, version: Version) -> Result<(), CertFault>
        ensures line { TakesLine self.old (Line.Header version) result self.new }
        ensures err { OnErr result (self.new ≡ self.old) }
    {
        if self.stage != Stage::Header {
            return Err(self.bad_line());
        }
        self.draft.version = version;
        self.stage = Stage::Rom;
        Ok(())
    }

    pub(crate) fn take_rom(&mut self, len: u16) -> Result<(), CertFault>
        ensures line { TakesLine self.old (Line.Rom len) result self.new }
        ensures err { OnErr result (self.new ≡ self.old) }
    {
        if self.stage != Stage::Rom {
            return Err(self.bad_line());
        }
        self.draft.rom_len = len;
        self.stage = match self.draft.version {
            Version::One => Stage::Stack,
            Version::Two | Version::Three => Stage::Board,
        };
        Ok(())
    }

    pub(crate) fn take_board(&mut self, board: BoardMap) -> Result<(), CertFault>
        ensures line { TakesLine self.old (Line.Board board) result self.new }
        ensures err { OnErr result (self.new ≡ self.old) }
    {
        if self.stage != Stage::Board {
            return Err(self.bad_line());
        }
        self.draft.board = board;
        self.stage = Stage::Stack;
        Ok(())
    }

    pub(crate) fn take_stack(&mut self, region: Region) -> Result<(), CertFault>
        ensures line { TakesLine self.old (Line.Stack region) result self.new }
        ensures err { OnErr result (self.new ≡ self.old) }
    {
        if self.stage != Stage::Stack {
            return Err(self.bad_line());
        }
        self.draft.region = region;
        self.stage = Stage::Budget;
        Ok(())
    }

    pub(crate) fn take_budget(&mut self, budget: Option<u16>) -> Result<(), CertFault>
        ensures line { TakesLine self.old (Line.Budget budget) result self.new }
        ensures err { OnErr result (self.new ≡ self.old) }
    {
        if self.stage != Stage::Budget {
            return Err(self.bad_line());
        }
        self.draft.budget = budget;
        self.stage = Stage::Procs;
        Ok(())
    }

    pub(crate) fn take_proc(&mut self, proc: Proc) -> Result<(), CertFault>
        ensures line { TakesLine self.old (Line.Proc proc) result self.new }
        ensures err { OnErr result (self.new ≡ self.old) }
    {
        let fits = proc.is_in_form();
        let follows = proc_may_follow(&self.draft.procs, self.draft.budget, proc);
        if self.stage != Stage::Procs || !fits || !follows {
            return Err(self.bad_line());
        }
        if self.draft.procs.len() == PROC_LIMIT {
            return Err(CertFault::Limit);
        }
        if self.draft.procs.push(proc).is_err() {
            return Err(CertFault::NoMemory);
        }
        Ok(())
    }

    pub(crate) fn take_split(&mut self, split: Split) -> Result<(), CertFault>
        ensures line { TakesLine self.old (Line.Split split) result self.new }
        ensures err { OnErr result (self.new ≡ self.old) }
    {
        if !self.is_open_to(Stage::Splits)
            || !split_may_follow(&self.draft.splits, self.draft.procs.len(), split)
        {
            return Err(self.bad_line());
        }
        if self.draft.splits.len() == SPLIT_LIMIT {
            return Err(CertFault::Limit);
        }
        if self.draft.splits.push(split).is_err() {
            return Err(CertFault::NoMemory);
        }
        self.stage = Stage::Splits;
        Ok(())
    }

    pub(crate) fn take_inline(&mut self, address: u16) -> Result<(), CertFault>
        ensures line { TakesLine self.old (Line.Inline address) result self.new }
        ensures err { OnErr result (self.new ≡ self.old) }
    {
        if !self.is_open_to(Stage::Inlines) || !inline_may_follow(&self.draft.inlines, address) {
            return Err(self.bad_line());
        }
        if self.draft.inlines.len() == INLINE_LIMIT {
            return Err(CertFault::Limit);
        }
        if self.draft.inlines.push(address).is_err() {
            return Err(CertFault::NoMemory);
        }
        self.stage = Stage::Inlines;
        Ok(())
    }

    pub(crate) fn take_cell(&mut self, cell: KeptCell) -> Result<(), CertFault>
        ensures line { TakesLine self.old (Line.Cell cell) result self.new }
        ensures err { OnErr result (self.new ≡ self.old) }
    {
        is_cell(&cell);
        let named = self.draft.version.names_board();
        let follows = cell_may_follow(&self.draft.cells, self.draft.board, &cell);
        if !named || !follows || !self.is_open_to(Stage::Cells) {
            return Err(self.bad_line());
        }
        if self.draft.cells.len() == CELL_LIMIT {
            return Err(CertFault::Limit);
        }
        if self.draft.cells.push(cell).is_err() {
            return Err(CertFault::NoMemory);
        }
        self.stage = Stage::Cells;
        Ok(())
    }

    /// Whether this many cells may be armed in this mode.
    fn may_arm(&self, mode: Mode, armed: u16) -> bool
        ensures { IsTrue result ↔ MayArm (length self.now.contents.cells) mode armed }
    {
        let cells = self.draft.cells.len();
        match mode {
            Mode::Nmi => usize::from(armed) == cells,
            _ => usize::from(armed) <= cells,
        }
    }

    /// Whether a row may have this place after the lines that were read.
    fn row_may_follow(&self, place: RowPlace) -> bool
        ensures { IsTrue result ↔ MayStandAt self.now place }
    {
        self.is_open_to(Stage::Rows)
            && place_may_follow(&self.draft.rows, place)
            && usize::from(place.proc) < self.draft.procs.len()
            && self.may_arm(place.mode, place.armed)
    }

    /// Whether a row is in form and may come next.
    fn row_fits(&self, row: &Row) -> bool
        ensures { IsTrue result
            ↔ (IsRow self.now.contents.version row.now × MayFollow self.now (Line.Row row.now)) }
    {
        self.row_may_follow(row.place()) && row.is_in_form(self.draft.version)
    }

    pub(crate) fn take_row(&mut self, row: Row) -> Result<(), CertFault>
        ensures line { TakesLine self.old (Line.Row row) result self.new }
        ensures err { OnErr result (self.new ≡ self.old) }
    {
        is_short(&row);
        if !self.row_fits(&row) {
            return Err(self.bad_line());
        }
        if self.draft.rows.len() == ROW_LIMIT {
            return Err(CertFault::Limit);
        }
        if self.draft.rows.push(&mut self.numbers, row).is_err() {
            return Err(CertFault::NoMemory);
        }
        self.stage = Stage::Rows;
        Ok(())
    }

    /// The fault of a row with too many slots, flag parts, facts or terms: `Limit` if a row may have its place, else a
    /// bad line.
    pub(crate) fn crowded(&self, place: RowPlace) -> CertFault
        ensures { TellsCrowded self.now place result }
    {
        if self.row_may_follow(place) {
            CertFault::Limit
        } else {
            self.bad_line()
        }
    }

    pub(crate) fn take_end(&mut self) -> Result<(), CertFault>
        ensures line { TakesLine self.old Line.End result self.new }
        ensures err { OnErr result (self.new ≡ self.old) }
    {
        if !self.is_open_to(Stage::Rows) {
            return Err(self.bad_line());
        }
        self.stage = Stage::Nothing;
        Ok(())
    }
}

/// A law: by their types, a row's slots, flag parts, facts and terms are within their limits.
fn is_short(row: &Row)
    ensures { IsShortRow row.now }
{
    is_shape(&row.state.shape);
    are_parts(&row.parts);
    are_facts(&row.facts);
    if let Some(linear) = row.potential {
        is_linear(&linear);
    }
}
