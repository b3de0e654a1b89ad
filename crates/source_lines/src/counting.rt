// The files of the source and their lines, as a listing shows them. z80asm shows each line of source, but no numbers:
// its lines are counted, without those of included files and of expanded macros. sjasmplus shows the numbers.

use crate::layout::Layout;
use crate::source_text::SourceText;
use std::alloc::{AllocError, Global};

/// A line of a file of the source.
#[derive(Clone, Copy)]
pub(crate) struct FileLine<'a> {
    pub(crate) file: &'a str,
    /// From 1.
    pub(crate) line: u32,
}

/// What a line of z80asm's listing is for the count.
#[derive(Clone, Copy)]
enum CountedLine<'a> {
    /// A line of source.
    Source,
    /// A line of source after which an included file begins.
    Includes(&'a str),
    /// A line of an expanded macro.
    Expanded,
    /// The first line of a file that was given to the assembler.
    Begins(&'a str),
    /// The last line of a file.
    Ends,
    /// No line of source.
    Nothing,
}

/// What ends at a line of z80asm's listing.
#[derive(Clone, Copy)]
enum EndedPart<'a> {
    Macro(&'a [u8]),
    File(&'a [u8]),
}

/// The line of the source that each line of a listing shows, in their order; None where the listing does not say.
pub(crate) fn file_lines(
    alloc: Global,
    layout: Layout,
    listing: &[u8],
) -> Result<Vec<Option<FileLine<'_>>>, AllocError> {
    match layout {
        Layout::Z80asm => z80asm_lines(alloc, listing),
        Layout::Sjasmplus => sjasmplus_lines(alloc, listing),
        Layout::Gas | Layout::Crasm | Layout::Sdcc => Ok(Vec::new(alloc)),
    }
}

/// The lines of z80asm. `# File` begins a file and `# End of file` ends it; an included file begins after the line that
/// includes it. A line of an expanded macro counts as the line that calls the macro.
fn z80asm_lines(alloc: Global, listing: &[u8]) -> Result<Vec<Option<FileLine<'_>>>, AllocError> {
    let mut places = Vec::new(alloc);
    let mut files: Vec<FileLine<'_>> = Vec::new(alloc);
    for counted in counted_lines(alloc, listing)? {
        if let (CountedLine::Source | CountedLine::Includes(_), Some(file)) = (
            counted,
            files.last_mut(),
        ) {
            file.line = file.line.saturating_add(1);
        }
        places.push(files.last().copied())?;
        match counted {
            CountedLine::Begins(file) | CountedLine::Includes(file) => {
                files.push(FileLine { file, line: 0 })?;
            }
            CountedLine::Ends => {
                files.pop();
            }
            CountedLine::Source | CountedLine::Expanded | CountedLine::Nothing => {}
        }
    }
    Ok(places)
}

/// What the lines of z80asm's listing are. They are read from the last to the first, since only their ends are marked.
fn counted_lines(alloc: Global, listing: &[u8]) -> Result<Vec<CountedLine<'_>>, AllocError> {
    let mut open = Vec::new(alloc);
    let mut counted = Vec::new(alloc);
    for line in listing.rsplit(|byte| *byte == b'\n') {
        counted.push(counted_line(&mut open, line)?)?;
    }
    counted.reverse();
    Ok(counted)
}

/// What a line of z80asm's listing is. `open` has what ends at the lines after it and has not begun there.
fn counted_line<'a>(
    open: &mut Vec<EndedPart<'a>>,
    line: &'a [u8],
) -> Result<CountedLine<'a>, AllocError> {
    let mark = line.trim_ascii_end();
    if let Some(name) = mark.strip_prefix(b"# End of macro ") {
        open.push(EndedPart::Macro(name))?;
        return Ok(CountedLine::Nothing);
    }
    if let Some(name) = mark.strip_prefix(b"# End of file ") {
        open.push(EndedPart::File(name))?;
        return Ok(CountedLine::Ends);
    }
    if let Some(name) = mark.strip_prefix(b"# File ") {
        open.pop();
        return Ok(CountedLine::Begins(str::from_utf8(name).unwrap_or("")));
    }
    // A blank line of the source shows an address and tabs alone.
    let Some(shown) = Layout::Z80asm.shown(line) else {
        return Ok(CountedLine::Nothing);
    };
    let text = SourceText::of(Layout::Z80asm, shown.source);
    let ended = open.last().copied();
    let begins = match ended {
        Some(EndedPart::Macro(name)) => text.mnemonic() == name,
        Some(EndedPart::File(name)) => text.included() == Some(name),
        None => false,
    };
    if begins {
        open.pop();
    }
    if open
        .iter()
        .any(|ended| matches!(ended, EndedPart::Macro(_)))
    {
        return Ok(CountedLine::Expanded);
    }
    match ended {
        Some(EndedPart::File(name)) if begins => {
            Ok(CountedLine::Includes(str::from_utf8(name).unwrap_or("")))
        }
        _ => Ok(CountedLine::Source),
    }
}

/// The lines of sjasmplus: each has its number, with a sign for each file that includes its file.
fn sjasmplus_lines(alloc: Global, listing: &[u8]) -> Result<Vec<Option<FileLine<'_>>>, AllocError> {
    let mut places = Vec::new(alloc);
    let mut files: Vec<&str> = Vec::new(alloc);
    for line in listing.split(|byte| *byte == b'\n') {
        let line = line.trim_ascii_end();
        if let Some(name) = line.strip_prefix(b"# file opened: ") {
            files.push(str::from_utf8(name).unwrap_or(""))?;
        } else if line.starts_with(b"# file closed: ") {
            files.pop();
        }
        let place = match (files.last(), number_of(line)) {
            (Some(file), Some(line)) => Some(FileLine { file, line }),
            _ => None,
        };
        places.push(place)?;
    }
    Ok(places)
}

/// The number with which a line of sjasmplus begins.
fn number_of(line: &[u8]) -> Option<u32> {
    let field = str::from_utf8(line.get(..6)?).ok()?.trim_ascii();
    field.split('+').next()?.parse().ok()
}
