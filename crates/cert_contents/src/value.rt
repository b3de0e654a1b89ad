// The value of a certificate, and its parts.

ghost use Rattle.std.specs.Prelude.{◌≡◌, length, slice_get};
ghost use Rattle.cert_form.specs.Form.{IsInForm, nothing_said};

use abs_state::KeptCell;
use address_map::Region;
use call_graph::ProcId;
use cert_form::Rows;
use cert_lines::{BoardMap, Proc, RowRef, Split, Version};
use std::alloc::Global;
use std::marker::Model;

/// The number of a row, from 0 in the order of the certificate.
pub type RowId = u32;

/// The value of a certificate that is read only in part so far.
#[derive(Drop)]
pub(crate) struct Unfinished {
    pub version: Version,
    pub rom_len: u16,
    pub board: BoardMap,
    pub region: Region,
    pub budget: Option<u16>,
    pub procs: Vec<Proc>,
    pub splits: Vec<Split>,
    pub inlines: Vec<u16>,
    pub cells: Vec<KeptCell>,
    pub rows: Rows,
}

impl Model for Unfinished {
    ghost use Rattle.cert_form.specs.Contents.{CertificateView};

    ghost Value = { CertificateView };

    ghost view = { λ d. record {
      version = d.version;
      rom_len = d.rom_len;
      board = d.board;
      region = d.region;
      budget = d.budget;
      procs = d.procs.items;
      splits = d.splits.items;
      inlines = d.inlines.items;
      cells = d.cells.items;
      rows = d.rows;
    } };
}

impl Unfinished {
    /// No line was read.
    pub fn new(alloc: Global) -> Unfinished
        ensures { result ≡ nothing_said }
    {
        Unfinished {
            version: Version::One,
            rom_len: 0,
            board: BoardMap::Galaxian,
            region: Region { low: 0, top: 0 },
            budget: None,
            procs: Vec::new(alloc),
            splits: Vec::new(alloc),
            inlines: Vec::new(alloc),
            cells: Vec::new(alloc),
            rows: Rows::new(alloc),
        }
    }
}

/// A certificate in form (docs/CERTIFICATE.md).
#[derive(Drop)]
pub struct Certificate {
    pub(crate) draft: Unfinished,
}

impl Model for Certificate {
    ghost use Rattle.cert_form.specs.Contents.{CertificateView};
    ghost use Rattle.cert_form.specs.Form.{IsInForm};

    ghost Value = { CertificateView };

    ghost view = { λ c. c.draft };

    ghost invariant = { λ c. IsInForm c.draft };
}

impl Certificate {
    pub(crate) fn into_draft(self) -> Unfinished
        ensures value { result ≡ self }
        ensures form { IsInForm result }
    {
        self.draft
    }

    /// A law: every certificate is in form.
    pub fn is_in_form(&self)
        ensures { IsInForm self.now }
    {
        let _ = &self.draft;
    }

    /// The version of the certificate's text.
    pub fn version(&self) -> Version
        ensures { result ≡ self.now.version }
    {
        self.draft.version
    }

    /// The length in bytes of the ROM for which the certificate was made, 0 to 65,535.
    pub fn rom_len(&self) -> u16
        ensures { result ≡ self.now.rom_len }
    {
        self.draft.rom_len
    }

    /// The board whose address map the certificate uses.
    pub fn board(&self) -> BoardMap
        ensures { result ≡ self.now.board }
    {
        self.draft.board
    }

    /// The addresses that the stack may use.
    pub fn region(&self) -> Region
        ensures { result ≡ self.now.region }
    {
        self.draft.region
    }

    /// The most T-states that the NMI routine may take, 0 to 65,535; None exactly if there is no routine.
    pub fn budget(&self) -> Option<u16>
        ensures { result ≡ self.now.budget }
    {
        self.draft.budget
    }

    /// The procedures, 1 to 1,024: main, the NMI routine if there is one, and the called ones by rising entry. A
    /// `ProcId` counts them from 0.
    pub fn procs(&self) -> &[Proc]
        ensures { result.now ≡ self.now.procs }
    {
        self.draft.procs.as_slice()
    }

    /// The procedure with this number; None if there is none.
    pub fn proc(&self, id: ProcId) -> Option<Proc>
        ensures { result ≡ slice_get self.now.procs id }
    {
        self.draft.procs.get(usize::from(id)).copied()
    }

    /// The splits, at most 1,024, by rising procedure and then address.
    pub fn splits(&self) -> &[Split]
        ensures { result.now ≡ self.now.splits }
    {
        self.draft.splits.as_slice()
    }

    /// The addresses of inline calls, at most 1,024, rising.
    pub fn inlines(&self) -> &[u16]
        ensures { result.now ≡ self.now.inlines }
    {
        self.draft.inlines.as_slice()
    }

    /// The kept cells, at most 256, by rising address.
    pub fn cells(&self) -> &[KeptCell]
        ensures { result.now ≡ self.now.cells }
    {
        self.draft.cells.as_slice()
    }

    /// The number of rows, 0 to 65,535. A `RowId` counts them from 0.
    pub fn row_count(&self) -> u32
        ensures { result ≡ length self.now.rows }
    {
        self.draft.rows.len() as u32
    }

    /// The row with this number, borrowed; None if there is none.
    pub fn row(&self, id: RowId) -> Option<RowRef>
        ensures { result ≡ slice_get self.now.rows id }
    {
        self.draft.rows.row(id as usize)
    }
}
