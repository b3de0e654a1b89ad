// Writes a way row by row.

use crate::items::{Item, ItemKind, ProcWalk};
use crate::names::item_text;
use listing::{ListFault, View};
use std::alloc::{AllocError, Global};
use texts::{Sink, put};

/// The names of the columns.
pub(crate) const HEADINGS: &[u8] = b"addr         T       sum  instruction\n";

/// Writes the line of a row or a loop: its address, its T-states, the sum up to it, and its instruction.
pub(crate) fn write_step<W: Sink>(
    alloc: Global,
    view: &View,
    walk: &ProcWalk,
    step: &Item,
    sum: u64,
    out: &mut W,
) -> Result<(), ListFault> {
    let place = match step.kind {
        ItemKind::Accepted => String::new(alloc),
        ItemKind::Run(_, _) | ItemKind::Call(_, _, _) | ItemKind::Loop(_) | ItemKind::Whole(_) => {
            format!(in alloc; "{:04X}", step.address)?
        }
    };
    let text = match step.kind {
        ItemKind::Run(_, _) => instr_text(alloc, view, step.address)?,
        ItemKind::Accepted | ItemKind::Call(_, _, _) | ItemKind::Loop(_) | ItemKind::Whole(_) => {
            item_text(alloc, view, step, walk)?
        }
    };
    let line = format!(in alloc; "{place:<4}  {:>8}  {sum:>8}  {text}\n", step.cost)?;
    put(out, line.as_bytes())?;
    Ok(())
}

/// The text of the instruction at an address.
fn instr_text(alloc: Global, view: &View, address: u16) -> Result<String, AllocError> {
    let code = view.accepted().code();
    let (Some(instr), Some(bytes)) = (code.instr_at(address), code.bytes_at(address)) else {
        return Ok(String::new(alloc));
    };
    view.labelled(&instr, address.wrapping_add(bytes.len() as u16))
}
