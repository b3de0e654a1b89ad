// Reading the notes of a listing, line by line.

use crate::fault::NoteFault;
use crate::kind::NoteKind;
use crate::note_text::{Names, ReadNote, read_note};
use crate::notes::{SaidOnce, SourceNote, SourceNotes};
use source_lines::{ListingLine, SourceLines};
use std::alloc::Global;
use symbols::{Symbols, number};

/// What the notes of a line hold for.
#[derive(Clone, Copy)]
enum Target {
    /// The bytes at this address.
    Bytes(u16),
    /// The next bytes.
    Next,
    /// The byte to which an equate gives a name, if its address is known.
    Named(Option<u16>),
    /// Nothing.
    Nothing,
}

/// Notes that were read, and notes that wait for the next bytes.
#[derive(Drop)]
struct Reading {
    found: SourceNotes,
    /// Each with its line.
    waiting: Vec<(u32, NoteKind)>,
}

impl SourceNotes {
    /// Reads the notes of a listing of at most 4 MB (docs/NOTES.md). The names in notes are those of `symbols`; without
    /// symbols they are the labels of the listing. Memory is taken for the lines, the labels and the notes.
    ///
    /// # Errors
    ///
    /// `TooLarge` for more than 4,194,304 bytes. `NoListing` if no line shows bytes as a listing of a known assembler
    /// does. `Form`, `Address` or `Twice` at the first note that is wrong. `NoMemory` where memory was refused.
    pub fn read(
        alloc: Global,
        listing: &[u8],
        symbols: Option<&Symbols>,
    ) -> Result<SourceNotes, NoteFault> {
        let lines = SourceLines::read(alloc, listing)?;
        match symbols {
            Some(symbols) => SourceNotes::of(alloc, &lines, symbols),
            None => SourceNotes::of(alloc, &lines, &lines.labels(alloc)?),
        }
    }

    /// The notes of a listing's lines. The names in notes are those of `symbols`.
    ///
    /// # Errors
    ///
    /// `Form`, `Address` or `Twice` at the first note that is wrong. `NoMemory` where memory was refused.
    pub fn of(
        alloc: Global,
        listing: &SourceLines<'_>,
        symbols: &Symbols,
    ) -> Result<SourceNotes, NoteFault> {
        let mut reading = Reading {
            found: SourceNotes::none(alloc),
            waiting: Vec::new(alloc),
        };
        let lines = listing.lines();
        for (index, line) in lines.iter().enumerate() {
            let names = Names {
                alloc,
                symbols,
                lines: lines.get(index..).unwrap_or(lines),
            };
            reading.add_line(line, names)?;
        }
        reading.end()
    }
}

/// What the notes of a line hold for.
fn target_of(line: &ListingLine<'_>, symbols: &Symbols) -> Target {
    if let Some(at) = line.bytes_at() {
        return Target::Bytes(at);
    }
    if line.is_left_out {
        return Target::Nothing;
    }
    if line.text.operation.is_empty() {
        return Target::Next;
    }
    match line.text.equate() {
        Some((name, value)) => Target::Named(equated_address(name, value, symbols)),
        None => Target::Nothing,
    }
}

/// The address that an equate gives its name: a number that is its value's text, or what the symbols say of the name.
fn equated_address(name: &[u8], value: &[u8], symbols: &Symbols) -> Option<u16> {
    if let Some(value) = number(str::from_utf8(value).ok()?) {
        return u16::try_from(value).ok();
    }
    symbols.address_of(str::from_utf8(name).ok()?)
}

impl Reading {
    /// Adds the notes of a line.
    fn add_line(&mut self, line: &ListingLine<'_>, names: Names<'_>) -> Result<(), NoteFault> {
        let target = target_of(line, names.symbols);
        match target {
            Target::Bytes(at) => self.settle(at)?,
            Target::Nothing => self.pass_waiting()?,
            Target::Next | Target::Named(_) => {}
        }
        for part in line.text.comment.split(|byte| *byte == b';') {
            if let Some(text) = part.strip_prefix(b"@") {
                match target {
                    Target::Nothing => self.pass_over(line.number)?,
                    Target::Bytes(_) | Target::Next | Target::Named(_) => {
                        let note = read_note(names, line.number, text)?;
                        self.add(note, line.number, target)?;
                    }
                }
            }
        }
        Ok(())
    }

    /// Adds a note of a line.
    fn add(&mut self, note: ReadNote, line: u32, target: Target) -> Result<(), NoteFault> {
        match note {
            ReadNote::Stack(region) => once(&mut self.found.stack, region, line, "the stack"),
            ReadNote::Nmi(nmi) => once(&mut self.found.nmi, nmi, line, "the NMI routine"),
            ReadNote::Map(map) => once(&mut self.found.map, map, line, "the map"),
            ReadNote::Kind(kind) => self.add_kind(kind, line, target),
        }
    }

    fn add_kind(&mut self, kind: NoteKind, line: u32, target: Target) -> Result<(), NoteFault> {
        match (target, kind) {
            (Target::Bytes(at), kind) => keep(&mut self.found.notes, SourceNote { at, line, kind }),
            (Target::Next, kind) => keep(&mut self.waiting, (line, kind)),
            (Target::Named(Some(at)), NoteKind::Cell(range)) => keep(
                &mut self.found.notes,
                SourceNote {
                    at,
                    line,
                    kind: NoteKind::Cell(range),
                },
            ),
            (Target::Named(_) | Target::Nothing, _) => self.pass_over(line),
        }
    }

    /// Gives the notes that wait an address.
    fn settle(&mut self, at: u16) -> Result<(), NoteFault> {
        for (line, kind) in self.waiting.drain(..) {
            keep(&mut self.found.notes, SourceNote { at, line, kind })?;
        }
        Ok(())
    }

    /// Passes over the notes that wait.
    fn pass_waiting(&mut self) -> Result<(), NoteFault> {
        for (line, _) in self.waiting.drain(..) {
            keep(&mut self.found.passed_over, line)?;
        }
        Ok(())
    }

    fn pass_over(&mut self, line: u32) -> Result<(), NoteFault> {
        keep(&mut self.found.passed_over, line)
    }

    /// What was found.
    fn end(self) -> Result<SourceNotes, NoteFault> {
        let mut reading = self;
        reading.pass_waiting()?;
        let mut found = reading.found;
        found.passed_over.sort_unstable();
        found.passed_over.dedup();
        Ok(found)
    }
}

/// Says what may be said once.
fn once<T: Copy>(
    said: &mut Option<SaidOnce<T>>,
    value: T,
    line: u32,
    what: &'static str,
) -> Result<(), NoteFault> {
    if said.is_some() {
        return Err(NoteFault::Twice { line, what });
    }
    *said = Some(SaidOnce { line, value });
    Ok(())
}

/// Appends to a list.
fn keep<T: Drop>(list: &mut Vec<T>, item: T) -> Result<(), NoteFault> {
    match list.push(item) {
        Ok(()) => Ok(()),
        Err(_) => Err(NoteFault::NoMemory),
    }
}
