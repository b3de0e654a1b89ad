// Writes where the T-states of a procedure go.

use crate::folding::Segment;
use crate::items::ProcWalk;
use crate::names::{address_text, item_text};
use crate::rows::{HEADINGS, write_step};
use crate::totals::{Total, Walks};
use certificate::{Proc, ProcKind};
use listing::{ListFault, View, kind_word};
use std::alloc::{AllocError, Global};
use texts::{Sink, put};

/// The names of the columns of totals.
const TOTALS: &[u8] = b"\n   times       own     loops      each  procedure\n";

/// Where the T-states of a procedure go, as a text that is written part by part (docs/LONGEST.md).
#[derive(Drop)]
pub struct WalkText<'a> {
    alloc: Global,
    view: View<'a>,
    walks: Walks,
    /// Whether each row has a line.
    by_rows: bool,
    /// The T-states of the rows written so far.
    sum: u64,
}

impl<'a> WalkText<'a> {
    /// The text of the way of a procedure. With `by_rows` each row has a line; without, rows are folded.
    pub fn of(alloc: Global, view: View<'a>, walks: Walks, by_rows: bool) -> WalkText<'a> {
        WalkText {
            alloc,
            view,
            walks,
            by_rows,
            sum: 0,
        }
    }

    /// The number of parts: the heading, the lines of the way, and the totals.
    pub fn count(&self) -> u32 {
        let lines = match self.walks.walk(self.walks.root()) {
            Some(walk) if self.by_rows => walk.steps.len(),
            Some(walk) => walk.segments.len(),
            None => 0,
        };
        u32::try_from(lines).unwrap_or(u32::MAX).saturating_add(2)
    }

    /// Writes a part, counted from 0. The parts have to come in their order.
    ///
    /// # Errors
    ///
    /// `NoMemory` where memory was refused, `Device` where the sink failed; what was written stays.
    pub fn write_part<W: Sink>(&mut self, number: u32, out: &mut W) -> Result<(), ListFault> {
        self.sum = self.write_lines(number, out)?;
        Ok(())
    }

    /// Writes a part. The result is the sum of the rows written so far.
    fn write_lines<W: Sink>(&self, number: u32, out: &mut W) -> Result<u64, ListFault> {
        let Some(walk) = self.walks.walk(self.walks.root()) else {
            return Ok(self.sum);
        };
        let Some(procedure) = self.view.accepted().certificate().proc(walk.proc) else {
            return Ok(self.sum);
        };
        let Some(line) = number.checked_sub(1) else {
            put(
                out,
                heading_text(self.alloc, &self.view, &procedure)?.as_bytes(),
            )?;
            put(out, b"\n")?;
            if self.by_rows {
                put(out, HEADINGS)?;
            }
            return Ok(self.sum);
        };
        let line = line as usize;
        if self.by_rows {
            if let Some(step) = walk.steps.get(line) {
                let sum = self.sum.saturating_add(u64::from(step.cost));
                write_step(self.alloc, &self.view, walk, step, sum, out)?;
                return Ok(sum);
            }
            write_left(self.alloc, walk, &procedure, out)?;
            return Ok(self.sum);
        }
        if let Some(segment) = walk.segments.get(line) {
            write_segment(self.alloc, &self.view, walk, segment, out)?;
            return Ok(self.sum);
        }
        write_left(self.alloc, walk, &procedure, out)?;
        write_totals(self.alloc, &self.view, &self.walks, out)?;
        Ok(self.sum)
    }
}

/// The first line: kind, entry, name and time, for the NMI routine with the budget.
fn heading_text(alloc: Global, view: &View, procedure: &Proc) -> Result<String, AllocError> {
    let kind = kind_word(procedure.kind);
    let name = view.proc_name(procedure)?;
    let time = procedure.time.unwrap_or(0);
    let entry = procedure.entry;
    match (procedure.kind, view.accepted().certificate().budget()) {
        (ProcKind::Nmi, Some(budget)) => {
            format!(in alloc; "{kind} {entry:04X} {name}: {time} of {budget} T-states\n")
        }
        _ => format!(in alloc; "{kind} {entry:04X} {name}: {time} T-states\n"),
    }
}

/// Writes items that come once, or several times.
fn write_segment<W: Sink>(
    alloc: Global,
    view: &View,
    walk: &ProcWalk,
    segment: &Segment,
    out: &mut W,
) -> Result<(), ListFault> {
    let is_folded = segment.times > 1;
    if is_folded {
        let (cost, times) = (segment.cost, segment.times);
        let line = match segment.each() {
            Some(each) => format!(in alloc; "{cost:>8}  {times} times {each}\n")?,
            None => format!(in alloc; "{cost:>8}  {times} times\n")?,
        };
        put(out, line.as_bytes())?;
    }
    for item in segment.items(&walk.items) {
        let place = address_text(alloc, item, walk)?;
        let what = item_text(alloc, view, item, walk)?;
        let line = if is_folded {
            format!(in alloc; "            {place:<9}  {what}\n")?
        } else {
            format!(in alloc; "{:>8}  {place:<9}  {what}\n", item.cost)?
        };
        put(out, line.as_bytes())?;
    }
    Ok(())
}

/// Writes how many T-states of the procedure's time no item accounts for, if there are any.
fn write_left<W: Sink>(
    alloc: Global,
    walk: &ProcWalk,
    procedure: &Proc,
    out: &mut W,
) -> Result<(), ListFault> {
    let left = procedure.time.unwrap_or(0).saturating_sub(walk.sum);
    if left > 0 {
        put(
            out,
            format!(in alloc; "{left:>8}  not accounted for\n")?.as_bytes(),
        )?;
    }
    Ok(())
}

/// Writes the T-states by procedure.
fn write_totals<W: Sink>(
    alloc: Global,
    view: &View,
    walks: &Walks,
    out: &mut W,
) -> Result<(), ListFault> {
    put(out, TOTALS)?;
    for total in walks.totals() {
        if let Some(procedure) = view.accepted().certificate().proc(total.proc) {
            let line = total_text(alloc, view, total, &procedure)?;
            put(out, line.as_bytes())?;
        }
    }
    Ok(())
}

/// The line of a procedure.
fn total_text(
    alloc: Global,
    view: &View,
    total: &Total,
    procedure: &Proc,
) -> Result<String, AllocError> {
    let name = view.proc_name(procedure)?;
    let (times, own, loops) = (total.times, total.own, total.loops);
    let each = procedure.time.unwrap_or(0);
    let entry = procedure.entry;
    format!(in alloc; "{times:>8}  {own:>8}  {loops:>8}  {each:>8}  {entry:04X} {name}\n")
}
