// The parts of a certificate, as values.

ghost use Rattle.std.specs.Prelude.{◌≡◌, ℕ, Err, IfOk, IsOkUnless, map};
ghost use Rattle.cert_form.specs.Form.{IsInForm};
ghost use Rattle.cert_form.specs.Reader.{IsProgress};
ghost use Rattle.cert_form.specs.Text.{board_lines, head_lines, lines_of, list_lines};
ghost use Rattle.cert_contents.specs.Parts.{HasTooManyParts, IsFirstBadPart, TakesLines};

use crate::reader::Reader;
use crate::value::Certificate;
use abs_state::KeptCell;
use address_map::Region;
use cert_form::CertFault;
use cert_lines::{BoardMap, Line, Proc, Row, Split, Version};
use std::alloc::Global;
use std::marker::Model;

/// The parts of a certificate, each list in the order of the text (docs/CERTIFICATE.md).
#[derive(Drop)]
pub struct Parts {
    pub version: Version,
    pub rom_len: u16,
    pub board: BoardMap,
    pub region: Region,
    pub budget: Option<u16>,
    pub procs: Vec<Proc>,
    pub splits: Vec<Split>,
    pub inlines: Vec<u16>,
    pub cells: Vec<KeptCell>,
    pub rows: Vec<Row>,
}

impl Model for Parts {
    ghost use Rattle.cert_form.specs.Contents.{CertificateView};

    ghost Value = { CertificateView };

    ghost view = { λ p. record {
      version = p.version;
      rom_len = p.rom_len;
      board = p.board;
      region = p.region;
      budget = p.budget;
      procs = p.procs.items;
      splits = p.splits.items;
      inlines = p.inlines.items;
      cells = p.cells.items;
      rows = p.rows.items;
    } };
}

impl Certificate {
    /// The certificate with these parts. Memory is taken for the lists and for the rows with their shapes.
    ///
    /// # Errors
    ///
    /// The first fault, line by line of the text that the parts would have (docs/CERTIFICATE.md, "What is refused").
    /// `Line` has the number, counted from 1, of the first line with which the lines so far begin no certificate.
    /// `Limit` comes if that line is in form but one too many. `NoMemory` comes where memory was refused. The parts are
    /// dropped.
    pub fn of(alloc: Global, parts: Parts) -> Result<Certificate, CertFault>
        ensures ok { IfOk result (λ c. (c ≡ parts) × IsInForm c) }
        ensures only { IsInForm parts → IsOkUnless result CertFault.NoMemory }
        ensures line { (n : ℕ) → result ≡ Err (CertFault.Line n) → IsFirstBadPart n parts }
        ensures limit { result ≡ Err CertFault.Limit → HasTooManyParts parts }
    {
        let mut reader = Reader::new(alloc);
        reader.take_parts(parts)?;
        reader.end()
    }
}

impl Reader {
    /// Reads the lines of these parts, one after another.
    fn take_parts(&mut self, parts: Parts) -> Result<(), CertFault>
        requires { IsProgress self.old }
        ensures { TakesLines self.old (lines_of parts) result self.new }
    {
        self.take_head(&parts)?;
        self.take_lists(parts)?;
        self.take(Line::End)
    }

    fn take_head(&mut self, parts: &Parts) -> Result<(), CertFault>
        requires { IsProgress self.old }
        ensures { TakesLines self.old (head_lines parts.now) result self.new }
    {
        self.take(Line::Header(parts.version))?;
        self.take(Line::Rom(parts.rom_len))?;
        self.take_board_lines(parts.version, parts.board)?;
        self.take(Line::Stack(parts.region))?;
        self.take(Line::Budget(parts.budget))
    }

    /// Reads the line of the board's map, if the version has one. A version without one is for the Galaxian board, so
    /// that the line of another board is a bad one.
    fn take_board_lines(&mut self, version: Version, board: BoardMap) -> Result<(), CertFault>
        requires { IsProgress self.old }
        ensures { TakesLines self.old (board_lines version board) result self.new }
    {
        if version.names_board() {
            return self.take(Line::Board(board));
        }
        match board {
            BoardMap::Galaxian => Ok(()),
            BoardMap::Raised => self.take(Line::Board(board)),
        }
    }

    /// Reads the procedures, splits, inline calls, cells and rows.
    fn take_lists(&mut self, parts: Parts) -> Result<(), CertFault>
        requires { IsProgress self.old }
        ensures { TakesLines self.old (list_lines parts) result self.new }
    {
        self.take_procs(&parts.procs)?;
        self.take_splits(&parts.splits)?;
        self.take_inlines(&parts.inlines)?;
        self.take_cells(&parts.cells)?;
        self.take_rows(parts.rows)
    }

    fn take_procs(&mut self, procs: &[Proc]) -> Result<(), CertFault>
        requires { IsProgress self.old }
        ensures { TakesLines self.old (map Line.Proc procs.now) result self.new }
    {
        for proc in procs {
            self.take(Line::Proc(*proc))?;
        }
        Ok(())
    }

    fn take_splits(&mut self, splits: &[Split]) -> Result<(), CertFault>
        requires { IsProgress self.old }
        ensures { TakesLines self.old (map Line.Split splits.now) result self.new }
    {
        for split in splits {
            self.take(Line::Split(*split))?;
        }
        Ok(())
    }

    fn take_inlines(&mut self, inlines: &[u16]) -> Result<(), CertFault>
        requires { IsProgress self.old }
        ensures { TakesLines self.old (map Line.Inline inlines.now) result self.new }
    {
        for inline in inlines {
            self.take(Line::Inline(*inline))?;
        }
        Ok(())
    }

    fn take_cells(&mut self, cells: &[KeptCell]) -> Result<(), CertFault>
        requires { IsProgress self.old }
        ensures { TakesLines self.old (map Line.Cell cells.now) result self.new }
    {
        for cell in cells {
            self.take(Line::Cell(*cell))?;
        }
        Ok(())
    }

    fn take_rows(&mut self, rows: Vec<Row>) -> Result<(), CertFault>
        requires { IsProgress self.old }
        ensures { TakesLines self.old (map Line.Row rows.items) result self.new }
    {
        for row in rows {
            self.take(Line::Row(row))?;
        }
        Ok(())
    }
}
