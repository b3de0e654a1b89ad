// The lists of annotations, sorted by address.

ghost use Rattle.std.specs.Prelude.{◌≡◌, ◌++◌, [], ◌∷◌, true, IfOk, OnOk};
ghost use Rattle.annotations.specs.Said.{SayEach, SaysCell, SaysCells};
ghost use Rattle.toml.specs.View.{items_view, table_view, view};

use crate::fault::Wrong;
use crate::notes::{FactNote, LoopNote, SplitNote};
use crate::tables::{formed, items, member, number, table_with};
use crate::values::{byte_range, fact, part, register, variable};
use abs_state::KeptCell;
use cert_lines::BoardMap;
use intervals::ByteRange;
use std::alloc::Global;
use toml::{Table, Value};

/// The addresses of inline calls, each once.
pub(crate) fn inlines(alloc: Global, table: &Table) -> Result<Vec<u16>, Wrong> {
    let mut addresses = Vec::new(alloc);
    for item in items(table, "inline")? {
        let inner = table_with(item, &["at"])?;
        keep(&mut addresses, number(inner, "at")?)?;
    }
    addresses.sort_unstable();
    addresses.dedup();
    Ok(addresses)
}

/// The splits; two at one address are a fault.
pub(crate) fn splits(alloc: Global, table: &Table) -> Result<Vec<SplitNote>, Wrong> {
    let mut splits = Vec::new(alloc);
    for item in items(table, "split")? {
        keep(&mut splits, split(alloc, item)?)?;
    }
    splits.sort_unstable_by_key(|split| split.at);
    each_once(splits.is_sorted_by(|split, next| split.at < next.at))?;
    Ok(splits)
}

fn split(alloc: Global, item: &Value) -> Result<SplitNote, Wrong> {
    let inner = table_with(item, &["at", "register", "parts", "until"])?;
    Ok(SplitNote {
        at: number(inner, "at")?,
        register: formed(register(member(inner, "register")?))?,
        parts: parts(alloc, member(inner, "parts")?)?,
        until: number(inner, "until")?,
    })
}

/// The parts of a split, in the order of the text.
fn parts(alloc: Global, value: &Value) -> Result<Vec<ByteRange>, Wrong> {
    let Some(items) = value.as_array() else {
        return Err(Wrong::Form);
    };
    let mut parts = Vec::new(alloc);
    for item in items {
        keep(&mut parts, formed(part(item))?)?;
    }
    Ok(parts)
}

/// The facts, by address; those of one address in the order of the text.
pub(crate) fn facts(alloc: Global, table: &Table) -> Result<Vec<FactNote>, Wrong> {
    let mut facts = Vec::new(alloc);
    for item in items(table, "fact")? {
        let inner = table_with(item, &["at", "sum", "is"])?;
        let note = FactNote {
            at: number(inner, "at")?,
            fact: formed(fact(member(inner, "sum")?, member(inner, "is")?))?,
            part: None,
        };
        keep(&mut facts, note)?;
    }
    if facts.sort_by_key(|note| note.at).is_err() {
        return Err(Wrong::NoMemory);
    }
    Ok(facts)
}

/// The loops; two at one address are a fault.
pub(crate) fn loops(alloc: Global, table: &Table) -> Result<Vec<LoopNote>, Wrong> {
    let mut loops = Vec::new(alloc);
    for item in items(table, "loop")? {
        let inner = table_with(item, &["at", "counter"])?;
        let note = LoopNote {
            at: number(inner, "at")?,
            counter: formed(variable(member(inner, "counter")?))?,
            rises: false,
        };
        keep(&mut loops, note)?;
    }
    loops.sort_unstable_by_key(|note| note.at);
    each_once(loops.is_sorted_by(|note, next| note.at < next.at))?;
    Ok(loops)
}

/// The kept cells. Each has to be in the first 400h addresses of the board's work RAM; two at one address are a fault.
pub(crate) fn cells(alloc: Global, table: &Table, board: BoardMap) -> Result<Vec<KeptCell>, Wrong>
    ensures { IfOk result (λ cells. SaysCells (table_view table.now) cells.items) }
{
    let mut cells = cells_written(alloc, items(table, "cell")?, board)?;
    cells.sort_unstable_by_key(|cell| cell.at);
    each_once(cells.is_sorted_by(|cell, next| cell.at < next.at))?;
    Ok(cells)
}

/// The kept cells of these tables, in their order, on a board.
fn cells_written(alloc: Global, items: &[Value], board: BoardMap) -> Result<Vec<KeptCell>, Wrong>
    ensures { IfOk result (λ cells. SayEach (items_view items.now) cells.items) }
{
    let mut cells = Vec::new(alloc);
    for item in items {
        keep(&mut cells, cell(item, board)?)?;
    }
    Ok(cells)
}

/// The kept cell of a table, on a board.
fn cell(item: &Value, board: BoardMap) -> Result<KeptCell, Wrong>
    ensures { IfOk result (λ cell. SaysCell (view item.now) cell) }
{
    let inner = table_with(item, &["at", "lo", "hi"])?;
    let at = number(inner, "at")?;
    if !board.is_in_work(at) {
        return Err(Wrong::Form);
    }
    Ok(KeptCell {
        at,
        range: formed(byte_range(member(inner, "lo")?, member(inner, "hi")?))?,
    })
}

/// A fault if two elements are at one address.
pub(crate) fn each_once(is_so: bool) -> Result<(), Wrong>
    ensures { OnOk result (is_so ≡ true) }
{
    if is_so { Ok(()) } else { Err(Wrong::Form) }
}

/// Appends to a list.
pub(crate) fn keep<T: Drop>(list: &mut Vec<T>, item: T) -> Result<(), Wrong>
    ensures { OnOk result (list.new.items ≡ list.old.items ++ item ∷ []) }
{
    match list.push(item) {
        Ok(()) => Ok(()),
        Err(_) => Err(Wrong::NoMemory),
    }
}
