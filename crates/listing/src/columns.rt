// Lines of at most 100 columns.

use crate::fault::ListFault;
use std::alloc::{AllocError, Global};
use texts::{Sink, put};

/// The most columns of a line.
const WIDTH: usize = 100;

/// The columns of what is known, without the comma at a break.
const KNOWN_WIDTH: usize = 35;

/// The blanks before what is known where it goes on.
const INDENT: &str = "                                                                ";

/// Writes a line without the blanks at its end.
pub(crate) fn write_line<W: Sink>(line: &str, out: &mut W) -> Result<(), ListFault> {
    put(out, line.trim_end_matches(' ').as_bytes())?;
    put(out, b"\n")?;
    Ok(())
}

/// Writes a text on lines of at most 100 columns. It is broken at blanks, and each further line begins with `;`. A word
/// that is longer is not broken.
pub(crate) fn write_wrapped<W: Sink>(
    alloc: Global,
    text: &str,
    out: &mut W,
) -> Result<(), ListFault> {
    let mut line = String::new(alloc);
    for word in text.split(' ') {
        let columns = line.chars().count().saturating_add(word.chars().count());
        if !line.is_empty() && columns >= WIDTH {
            write_line(line.as_str(), out)?;
            line.clear();
            line.push_str(";  ")?;
        }
        if !line.is_empty() {
            line.push_str(" ")?;
        }
        line.push_str(word)?;
    }
    write_line(line.as_str(), out)
}

/// The parts of what is known as lines of at most 36 columns: separated by commas, and broken before a part that does
/// not fit.
pub(crate) fn known_lines(alloc: Global, parts: &[String]) -> Result<Vec<String>, AllocError> {
    let mut lines = Vec::new(alloc);
    let mut line = String::new(alloc);
    for part in parts {
        let columns = line.chars().count().saturating_add(part.chars().count());
        if !line.is_empty() && columns.saturating_add(2) > KNOWN_WIDTH {
            line.push_str(",")?;
            lines.push(line)?;
            line = String::new(alloc);
        }
        if !line.is_empty() {
            line.push_str(", ")?;
        }
        line.push_str(part.as_str())?;
    }
    lines.push(line)?;
    Ok(lines)
}

/// What stands in the columns of a line.
#[derive(Clone, Copy)]
pub(crate) struct Columns<'a> {
    pub(crate) address: &'a str,
    pub(crate) bytes: &'a str,
    pub(crate) instr: &'a str,
    pub(crate) cost: &'a str,
    pub(crate) left: &'a str,
    pub(crate) stack: &'a str,
}

/// Writes a line with columns, and what is known on as many lines as it needs.
pub(crate) fn write_columns<W: Sink>(
    alloc: Global,
    columns: &Columns,
    known: &[String],
    out: &mut W,
) -> Result<(), ListFault> {
    let Columns {
        address,
        bytes,
        instr,
        cost,
        left,
        stack,
    } = columns;
    let mut before = format!(in alloc;
        "{address:<4}  {bytes:<11}  {instr:<24} {cost:>5} {left:>6} {stack:>5}  "
    )?;
    for text in known {
        before.push_str(text.as_str())?;
        write_line(before.as_str(), out)?;
        before.clear();
        before.push_str(INDENT)?;
    }
    Ok(())
}
