// The numbers of the rows of a procedure, and of those at one of its addresses.

ghost use Rattle.std.specs.Prelude.{◌≡◌, ◌<◌, ◌≤◌, ◌↔◌, ℕ, Some, length, slice_get};
ghost use Rattle.cert_lines.specs.declared.row.Row.{Row};
ghost use Rattle.cert_form.specs.Form.{place_number};

use crate::value::{Certificate, RowId};
use call_graph::ProcId;
use std::ops::Range;

impl Certificate {
    /// The numbers of a procedure's rows, found by binary search.
    pub fn rows_of(&self, proc: ProcId) -> Range<RowId>
        ensures within { result.end ≤ length self.now.rows }
        ensures of { (k : ℕ) (row : Row) → slice_get self.now.rows k ≡ Some row
            → ((result.start ≤ k) × (k < result.end)) ↔ (row.proc ≡ proc) }
    {
        self.is_in_form();
        self.rows_from(proc, 0)..self.rows_behind(proc, 0xFFFF)
    }

    /// The numbers of the rows at an address of a procedure, found by binary search.
    pub fn rows_at(&self, proc: ProcId, address: u16) -> Range<RowId>
        ensures within { result.end ≤ length self.now.rows }
        ensures at { (k : ℕ) (row : Row) → slice_get self.now.rows k ≡ Some row
            → ((result.start ≤ k) × (k < result.end))
            ↔ ((row.proc ≡ proc) × (row.address ≡ address)) }
    {
        self.is_in_form();
        self.rows_from(proc, address)..self.rows_behind(proc, address)
    }

    /// The number of the first row after this place; the number of rows if there is none.
    fn rows_behind(&self, proc: ProcId, address: u16) -> RowId
        ensures within { result ≤ length self.now.rows }
        ensures upto { (k : ℕ) (row : Row) → slice_get self.now.rows k ≡ Some row → k < result
            → place_number row.proc row.address ≤ place_number proc address }
        ensures behind { (k : ℕ) (row : Row) → slice_get self.now.rows k ≡ Some row → result ≤ k
            → place_number proc address < place_number row.proc row.address }
    {
        self.is_in_form();
        if address < 0xFFFF {
            self.rows_from(proc, address + 1)
        } else if proc < 0xFFFF {
            self.rows_from(proc + 1, 0)
        } else {
            self.row_count()
        }
    }
}
