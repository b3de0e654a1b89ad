// Which line of a list may come after those before it.

ghost use Rattle.std.specs.Prelude.{◌≡◌, ◌<◌, ◌≤◌, ◌∷◌, [], ◌++◌, ◌↔◌, ℕ, IsTrue, Some, slice_get};
ghost use Rattle.cert_fields.specs.Pair.{IsRange};
ghost use Rattle.cert_lines.specs.declared.row.Row.{Row};
ghost use Rattle.cert_form.specs.Form.{AreCells, AreInlines, AreSplits, RisePlaces, place_number};
ghost use Rattle.cert_form.specs.Reader.{AreFirstProcs};

use crate::rows::{Rows, place_number};
use abs_state::KeptCell;
use cert_lines::{BoardMap, Proc, ProcKind, RowPlace, Split};

/// Whether a procedure may come after these: main first, then the NMI routine if there is a budget, then called ones by
/// rising entry.
pub fn proc_may_follow(procs: &[Proc], budget: Option<u16>, proc: Proc) -> bool
    requires { AreFirstProcs budget procs.now }
    ensures { IsTrue result ↔ AreFirstProcs budget (procs.now ++ proc ∷ []) }
{
    match procs.last() {
        None => proc.kind == ProcKind::Main,
        Some(_) if procs.len() == 1 && budget.is_some() => proc.kind == ProcKind::Nmi,
        Some(last) => is_called_behind(*last, proc),
    }
}

/// Whether a procedure is a called one, with a higher entry than the last one if that is called too.
fn is_called_behind(last: Proc, proc: Proc) -> bool
    ensures { IsTrue result
        ↔ ((proc.kind ≡ ProcKind.Sub) × (last.kind ≡ ProcKind.Sub → last.entry < proc.entry)) }
{
    proc.kind == ProcKind::Sub && (last.kind != ProcKind::Sub || last.entry < proc.entry)
}

/// Whether a split may come after these, in a certificate of `procs` procedures: it is of one of them, and its place is
/// above the last one's.
pub fn split_may_follow(splits: &[Split], procs: usize, split: Split) -> bool
    requires { AreSplits procs splits.now }
    ensures { IsTrue result ↔ AreSplits procs (splits.now ++ split ∷ []) }
{
    if usize::from(split.proc) >= procs {
        return false;
    }
    let number = place_number(split.proc, split.address);
    match splits.last() {
        Some(last) => place_number(last.proc, last.address) < number,
        None => true,
    }
}

/// Whether the address of an inline call may come after these: it is above the last one.
pub fn inline_may_follow(inlines: &[u16], address: u16) -> bool
    requires { AreInlines inlines.now }
    ensures { IsTrue result ↔ AreInlines (inlines.now ++ address ∷ []) }
{
    match inlines.last() {
        Some(last) => *last < address,
        None => true,
    }
}

/// Whether a cell may come after these: it is in the first 400h addresses of work RAM, and above the last one.
pub fn cell_may_follow(cells: &[KeptCell], board: BoardMap, cell: &KeptCell) -> bool
    requires { AreCells board cells.now }
    ensures { IsTrue result ↔ AreCells board (cells.now ++ cell.now ∷ []) }
{
    is_cell(cell);
    if !board.is_in_work(cell.at) {
        return false;
    }
    match cells.last() {
        Some(last) => last.at < cell.at,
        None => true,
    }
}

/// A law: by its type, a cell has a range of bytes.
pub fn is_cell(cell: &KeptCell)
    ensures { IsRange 255 cell.now.range }
{
    let _low = cell.range.low();
}

/// Whether a row at this place may come after these rows: it is not before the last one.
pub fn place_may_follow(rows: &Rows, place: RowPlace) -> bool
    requires { RisePlaces rows.now }
    ensures { IsTrue result
        ↔ ((i : ℕ) (row : Row) → slice_get rows.now i ≡ Some row
        → place_number row.proc row.address ≤ place_number place.proc place.address) }
{
    let number = place_number(place.proc, place.address);
    match rows.last_place() {
        Some((proc, address)) => place_number(proc, address) <= number,
        None => true,
    }
}
