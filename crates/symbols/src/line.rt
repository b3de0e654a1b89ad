// The forms of a line in a symbol file (docs/SYMBOLS.md, "The forms of a line").

use crate::name::is_name;
use crate::numbers::{hexadecimal, number};

/// What a line says.
pub(crate) enum SymbolLine<'a> {
    /// A name has this value.
    Defines(&'a str, u32),
    /// Here a part of the file begins.
    Begins(FilePart),
    /// No symbol, and none is missing: a blank, a comment, a heading, a command to a debugger.
    Nothing,
    /// A line of another form.
    Other,
}

/// A part of a file. It decides how the lines after its heading are read.
#[derive(Clone, Copy)]
pub(crate) enum FilePart {
    /// Each line has its own form.
    Plain,
    /// The map of SDCC's linker. Lines that begin with no address are headings.
    Map,
    /// A section of a WLA file that has no symbols.
    Unread,
}

/// How the first line of a page of a map begins.
const MAP_HEADING: &str = "ASxxxx Linker";

/// The sections of a WLA file that have symbols.
const WLA_SECTIONS: [&str; 3] = ["[labels]", "[definitions]", "[symbols]"];

/// The commands to the debugger NoICE that define no symbol of the whole program.
const NOICE_COMMANDS: [&str; 7] = ["LOAD", "FILE", "FUNC", "SFUNC", "ENDF", "LINE", "DEFS"];

/// What a line says in a part of a file. The line is given without its line feed.
pub(crate) fn line_in(part: FilePart, line: &[u8]) -> SymbolLine<'_> {
    let before_comment = line.split(|byte| *byte == b';').next();
    let Ok(text) = str::from_utf8(before_comment.unwrap_or(line)) else {
        return SymbolLine::Other;
    };
    let text = text.trim_ascii();
    if text.is_empty() || text.starts_with('#') || text.starts_with("//") {
        return SymbolLine::Nothing;
    }
    if let Some(begun) = heading(text) {
        return SymbolLine::Begins(begun);
    }
    match part {
        FilePart::Plain => plain_line(text),
        FilePart::Map => map_line(text),
        FilePart::Unread => SymbolLine::Nothing,
    }
}

/// The part that begins with this line.
fn heading(text: &str) -> Option<FilePart> {
    if text.starts_with(MAP_HEADING) {
        return Some(FilePart::Map);
    }
    if !text.starts_with('[') || !text.ends_with(']') {
        return None;
    }
    if WLA_SECTIONS.contains(&text) {
        Some(FilePart::Plain)
    } else {
        Some(FilePart::Unread)
    }
}

/// A line of a map: an address of 4 to 8 digits, a name, and perhaps a module. Other lines are headings.
fn map_line(text: &str) -> SymbolLine<'_> {
    let mut words = text.split_ascii_whitespace();
    let first = words.next().unwrap_or(text);
    let (4..=8, Some(value)) = (first.len(), hexadecimal(first)) else {
        return SymbolLine::Nothing;
    };
    match (words.next(), words.next(), words.next()) {
        (Some(name), _, None) => symbol(name, Some(value)),
        _ => SymbolLine::Other,
    }
}

/// A line that has its own form.
fn plain_line(text: &str) -> SymbolLine<'_> {
    if let Some((name, value)) = text.split_once('=') {
        return symbol(name.trim_ascii(), number(value.trim_ascii()));
    }
    let mut words = text.split_ascii_whitespace();
    let first = words.next().unwrap_or(text);
    let line = match (words.next(), words.next(), words.next()) {
        (Some(second), None, _) => line_of_two(first, second),
        (Some(second), Some(third), None) => line_of_three(first, second, third),
        _ => SymbolLine::Other,
    };
    match line {
        SymbolLine::Other if NOICE_COMMANDS.contains(&first) => SymbolLine::Nothing,
        line => line,
    }
}

/// A line of two words: of RASM or WLA, or a name without a value in the output of nm.
fn line_of_two<'a>(first: &'a str, second: &'a str) -> SymbolLine<'a> {
    if second.starts_with('#') {
        return symbol(first, number(second));
    }
    if matches!(first, "U" | "w" | "v") && is_name(second) {
        return SymbolLine::Nothing;
    }
    symbol(second, address(first))
}

/// A line of three words: of an equate, NoICE, RASM with a bank, or nm.
fn line_of_three<'a>(first: &'a str, second: &'a str, third: &'a str) -> SymbolLine<'a> {
    if second.eq_ignore_ascii_case("equ") {
        return symbol(first, number(third));
    }
    if first == "DEF" {
        return symbol(second, number(third));
    }
    if second.starts_with('#') && is_bank(third) {
        return symbol(first, number(second));
    }
    if is_letter(second) {
        return symbol(third, address(first));
    }
    SymbolLine::Other
}

/// A symbol, if this is a name, perhaps with a colon, and there is a value.
fn symbol(name: &str, value: Option<u32>) -> SymbolLine<'_> {
    let name = name.strip_suffix(':').unwrap_or(name);
    match value {
        Some(value) if is_name(name) => SymbolLine::Defines(name, value),
        _ => SymbolLine::Other,
    }
}

/// An address that stands first in its line: 8 or 16 hexadecimal digits, or a bank, a colon and 4 digits. The bank does
/// not count, since the board has none.
fn address(text: &str) -> Option<u32> {
    match (text.split_once(':'), text.len()) {
        (Some((bank, digits)), _) => match digits.len() {
            4 => hexadecimal(bank).and(hexadecimal(digits)),
            _ => None,
        },
        (None, 8 | 16) => hexadecimal(text),
        (None, _) => None,
    }
}

/// Whether this is a bank as RASM writes it, like `B0`.
fn is_bank(text: &str) -> bool {
    match text.strip_prefix('B') {
        Some(digits) => number(digits).is_some(),
        None => false,
    }
}

/// Whether this is one letter, as the kinds of nm are.
fn is_letter(text: &str) -> bool {
    text.len() == 1 && text.starts_with(|sign: char| sign.is_ascii_alphabetic())
}
