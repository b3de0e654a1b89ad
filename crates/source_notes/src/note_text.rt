// The texts of notes, by kind (docs/NOTES.md, "Kinds of notes").

use crate::fact_text::fact;
use crate::fault::NoteFault;
use crate::kind::NoteKind;
use crate::notes::NmiNote;
use address_map::Region;
use cert_fields::{register_field, variable_field};
use cert_lines::BoardMap;
use intervals::ByteRange;
use source_lines::ListingLine;
use std::alloc::Global;
use symbols::{ResolveFault, Symbols, number};
use t_states::MAX_BUDGET;

/// What a note says.
#[derive(Drop)]
pub(crate) enum ReadNote {
    Stack(Region),
    Nmi(NmiNote),
    Map(BoardMap),
    Kind(NoteKind),
}

/// Why a text is no note.
#[derive(Drop)]
pub(crate) enum Misfit {
    Form,
    Address(ResolveFault),
    NoMemory,
}

/// What the texts of notes may name.
#[derive(Clone, Copy)]
pub(crate) struct Names<'a> {
    pub(crate) alloc: Global,
    pub(crate) symbols: &'a Symbols,
    /// The line of the note and those after it.
    pub(crate) lines: &'a [ListingLine<'a>],
}

/// The kinds of notes, each with its form.
const FORMS: [(&str, &str); 8] = [
    ("fact", "fact SUM = NUMBER, as in fact DE+BC = 5880h"),
    ("loop", "loop VARIABLE, as in loop BC"),
    (
        "split",
        "split REGISTER VALUES until ADDRESS, as in split A 0..6 until next",
    ),
    ("inline", "inline alone"),
    ("cell", "cell LOW..HIGH, as in cell 1..2"),
    ("stack", "stack LOW..TOP, as in stack 43A0..4400"),
    (
        "nmi",
        "nmi budget NUMBER, as in nmi budget 4000, at most 50665",
    ),
    ("map", "map galaxian or map raised"),
];

/// What the text of a note says. `line` is that of the listing.
pub(crate) fn read_note(names: Names<'_>, line: u32, text: &[u8]) -> Result<ReadNote, NoteFault> {
    let text = str::from_utf8(text).unwrap_or("").trim_ascii();
    let (kind, said) = text
        .split_once(|sign: char| sign.is_ascii_whitespace())
        .unwrap_or((text, ""));
    let said = said.trim_ascii();
    let note = match kind {
        "fact" => fact(names, said).map(ReadNote::Kind),
        "loop" => counter(said).map(ReadNote::Kind),
        "split" => split(names, said).map(ReadNote::Kind),
        "inline" => inline(said).map(ReadNote::Kind),
        "cell" => cell(said).map(ReadNote::Kind),
        "stack" => stack(names, said).map(ReadNote::Stack),
        "nmi" => nmi(said).map(ReadNote::Nmi),
        "map" => map(said).map(ReadNote::Map),
        _ => Err(Misfit::Form),
    };
    match note {
        Ok(note) => Ok(note),
        Err(Misfit::Form) => Err(NoteFault::Form {
            line,
            expected: form_of(kind),
        }),
        Err(Misfit::Address(fault)) => Err(NoteFault::Address { line, fault }),
        Err(Misfit::NoMemory) => Err(NoteFault::NoMemory),
    }
}

/// The form of a kind of notes.
fn form_of(kind: &str) -> &'static str {
    for (name, form) in FORMS {
        if name == kind {
            return form;
        }
    }
    "one of fact, loop, split, inline, cell, stack, nmi and map"
}

fn inline(said: &str) -> Result<NoteKind, Misfit> {
    if said.is_empty() {
        Ok(NoteKind::Inline)
    } else {
        Err(Misfit::Form)
    }
}

fn counter(said: &str) -> Result<NoteKind, Misfit> {
    let variable = formed(variable_field(said.as_bytes()))?;
    Ok(NoteKind::Loop(variable))
}

fn cell(said: &str) -> Result<NoteKind, Misfit> {
    let (low, high) = formed(said.split_once(".."))?;
    let range = formed(ByteRange::new(byte(low)?, byte(high)?))?;
    Ok(NoteKind::Cell(range))
}

fn stack(names: Names<'_>, said: &str) -> Result<Region, Misfit> {
    let (low, top) = formed(said.split_once(".."))?;
    Ok(Region {
        low: names.address(low)?,
        top: names.address(top)?,
    })
}

fn nmi(said: &str) -> Result<NmiNote, Misfit> {
    if said.is_empty() {
        return Ok(NmiNote { budget: None });
    }
    let budget = formed(number(formed(said.strip_prefix("budget "))?.trim_ascii()))?;
    if budget > MAX_BUDGET {
        return Err(Misfit::Form);
    }
    Ok(NmiNote {
        budget: u16::try_from(budget).ok(),
    })
}

fn map(said: &str) -> Result<BoardMap, Misfit> {
    formed(BoardMap::named(said.as_bytes()))
}

fn split(names: Names<'_>, said: &str) -> Result<NoteKind, Misfit> {
    let (values, until) = formed(said.split_once(" until "))?;
    let (register, values) = formed(values.split_once(' '))?;
    let register = formed(register_field(register.as_bytes()))?;
    let mut parts = Vec::new(names.alloc);
    for text in values.split(',') {
        add_parts(&mut parts, text.trim_ascii())?;
    }
    Ok(NoteKind::Split {
        register,
        parts,
        until: names.address(until)?,
    })
}

/// Adds the parts that a text names: `3` one value, `0..6` each of these values, `0-6` all of them as one part.
fn add_parts(parts: &mut Vec<ByteRange>, text: &str) -> Result<(), Misfit> {
    if let Some((low, high)) = text.split_once("..") {
        let values = formed(ByteRange::new(byte(low)?, byte(high)?))?;
        for value in values.low()..=values.high() {
            keep(parts, ByteRange::single(value))?;
        }
        return Ok(());
    }
    let (low, high) = text.split_once('-').unwrap_or((text, text));
    keep(parts, formed(ByteRange::new(byte(low)?, byte(high)?))?)
}

/// A number from 0 to 255.
fn byte(text: &str) -> Result<u8, Misfit> {
    let value = formed(number(text.trim_ascii()))?;
    formed(u8::try_from(value).ok())
}

/// Appends to a list.
pub(crate) fn keep<T: Drop>(list: &mut Vec<T>, item: T) -> Result<(), Misfit> {
    match list.push(item) {
        Ok(()) => Ok(()),
        Err(_) => Err(Misfit::NoMemory),
    }
}

/// The value that was read, if it has the right form.
pub(crate) fn formed<T>(read: Option<T>) -> Result<T, Misfit> {
    match read {
        Some(value) => Ok(value),
        None => Err(Misfit::Form),
    }
}

impl Names<'_> {
    /// The address that a text names: a name or a number with a mark, perhaps with an offset, or four hexadecimal
    /// digits that are no name.
    pub(crate) fn address(self, text: &str) -> Result<u16, Misfit> {
        let text = text.trim_ascii();
        match self.symbols.resolve(self.alloc, text) {
            Ok(address) => Ok(address),
            Err(ResolveFault::NoMemory) => Err(Misfit::NoMemory),
            Err(fault) => match four_digits(text) {
                Some(address) => Ok(address),
                None => Err(Misfit::Address(fault)),
            },
        }
    }

    /// The address of a loop's last instruction: an address, or the next instruction with this mnemonic.
    pub(crate) fn loop_end(self, text: &str) -> Result<u16, Misfit> {
        for line in self.lines {
            let mnemonic = line.text.mnemonic();
            if is_branch(mnemonic)
                && mnemonic.eq_ignore_ascii_case(text.as_bytes())
                && line.has_bytes
            {
                return formed(line.address);
            }
        }
        self.address(text)
    }
}

/// Whether a mnemonic is that of an instruction that ends loops.
fn is_branch(mnemonic: &[u8]) -> bool {
    let branches: [&[u8]; 3] = [b"djnz", b"jr", b"jp"];
    branches
        .iter()
        .any(|branch| mnemonic.eq_ignore_ascii_case(branch))
}

/// The number of four hexadecimal digits.
fn four_digits(text: &str) -> Option<u16> {
    let is_right = text.len() == 4 && text.bytes().all(|byte| byte.is_ascii_hexdigit());
    if is_right {
        u16::from_str_radix(text, 16).ok()
    } else {
        None
    }
}
