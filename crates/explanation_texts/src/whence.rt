// The line that says where a value comes from.

use analysis::FlowFault;
use explanations::{Explored, Origin, OriginKind, origins_of};
use loop_bounds::{Ranges, Variable};
use named_annotations::variable_name;
use refusal_texts::{RangeText, Wording, add_line};

/// Adds the range of a variable at a row, and at most six steps by which it came.
pub(crate) fn add_whence(
    text: &mut String,
    with: &Wording,
    explored: &Explored,
    row: u64,
    variable: &Variable,
) -> Result<(), FlowFault> {
    let alloc = with.alloc;
    let Some(state) = explored.state(row) else {
        return Ok(());
    };
    let name = variable_name(alloc, *variable)?;
    let is = RangeText::of(variable, state.range(*variable));
    let mut line = format!(in alloc; "whence: {name} {is}")?;
    for (place, origin) in origins_of(alloc, explored, row, *variable)?
        .iter()
        .enumerate()
    {
        line.push_str(if place == 0 { ": " } else { "; " })?;
        add_origin(&mut line, with, origin, variable)?;
    }
    add_line(text, line.as_str())
}

/// Adds one step: `joined at 0005 from 0003, 0009`, `HL set by LD HL,4000h at 0000`.
fn add_origin(
    line: &mut String,
    with: &Wording,
    origin: &Origin,
    of: &Variable,
) -> Result<(), FlowFault> {
    let alloc = with.alloc;
    let mut name = String::new(alloc);
    if origin.variable != *of {
        name = variable_name(alloc, origin.variable)?;
        name.push_str(" ")?;
    }
    let (place, instr) = (with.place(origin.at), with.instr_at(origin.at));
    match &origin.kind {
        OriginKind::Joined(from) => {
            let from = with.places(from.as_slice())?;
            write!(line, "joined at {place} from {from}")?;
        }
        OriginKind::Set => write!(line, "{name}set by {instr}")?,
        OriginKind::Changed => write!(line, "{name}changed by {instr}")?,
        OriginKind::Moved(other) => {
            let other = variable_name(alloc, *other)?;
            write!(line, "{name}copied from {other} by {instr}")?;
        }
        OriginKind::Returned => write!(line, "{name}any after {instr}")?,
        OriginKind::Unknown => write!(line, "{name}unknown at the entry {place}")?,
    }
    Ok(())
}
