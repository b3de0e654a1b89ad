// Annotations with names and notes as a text without them.

use crate::carrying::carried;
use crate::entries::{entry_of, fact_entry};
use crate::fault::{NamedFault, UnknownName};
use crate::merging::Merging;
use crate::resolving::Resolving;
use analysis::FlowFault;
use cert_lines::BoardMap;
use source_notes::{NoteKind, SourceNote, SourceNotes};
use std::alloc::Global;
use symbols::Symbols;
use toml::{Table, ser};

/// Annotations whose addresses are numbers.
#[derive(Drop)]
pub struct NamedText {
    /// The annotations, in the form that docs/ANNOTATIONS.md describes.
    pub bytes: Vec<u8>,
    /// The texts in them that name no address, in their order.
    pub unknown: Vec<UnknownName>,
}

/// The annotations of a text in which names of `symbols` may stand for addresses, and what the notes of a listing say
/// beside them, as a text in which each address is a number (docs/SYMBOLS.md, "In annotations"). A fact that a note
/// carries through a loop stands at each address of the loop in the ROM from which it follows. A text that names no
/// address stays as it is, and a text that is no TOML stays whole: whoever reads the annotations refuses it.
///
/// # Errors
///
/// `Conflict` at the first note that says another thing than the annotations or an earlier note: on the stack, the NMI
/// routine, the map, or a split, a loop or a cell at an address. `Cell` at the first note of a cell that is not in the
/// first 400h bytes of a board's work RAM. `NoMemory` where memory was refused.
pub fn named_text(
    alloc: Global,
    rom: &[u8],
    annotations: &[u8],
    symbols: &Symbols,
    notes: Option<&SourceNotes>,
) -> Result<NamedText, NamedFault> {
    let mut table = match toml::table_from_slice(alloc, annotations) {
        Ok(table) => table,
        Err(error) if error.is_memory() => return Err(NamedFault::NoMemory),
        Err(_) => return unchanged(alloc, annotations),
    };
    let mut resolving = Resolving {
        alloc,
        symbols,
        unknown: Vec::new(alloc),
    };
    resolving.resolve(&mut table)?;
    let unknown = resolving.unknown;
    if let Some(notes) = notes {
        let mut merging = Merging { alloc, table };
        add_notes(&mut merging, rom, notes)?;
        table = merging.table;
    }
    match written(alloc, &table)? {
        Some(bytes) => Ok(NamedText { bytes, unknown }),
        None => unchanged(alloc, annotations),
    }
}

/// The text as it is.
fn unchanged(alloc: Global, annotations: &[u8]) -> Result<NamedText, NamedFault> {
    Ok(NamedText {
        bytes: Vec::from_slice(alloc, annotations)?,
        unknown: Vec::new(alloc),
    })
}

/// The text of annotations; None if they have a date that a text cannot have.
fn written(alloc: Global, table: &Table) -> Result<Option<Vec<u8>>, NamedFault> {
    match toml::table_to_string_pretty(alloc, table) {
        Ok(text) => Ok(Some(text.into_bytes())),
        Err(ser::Error::OutOfMemory) => Err(NamedFault::NoMemory),
        Err(ser::Error::DateInvalid) => Ok(None),
    }
}

/// Adds what notes say.
fn add_notes(merging: &mut Merging, rom: &[u8], notes: &SourceNotes) -> Result<(), NamedFault> {
    let alloc = merging.alloc;
    merging.whole(notes)?;
    for note in &notes.notes {
        check_cell(note)?;
        merging.entry(entry_of(alloc, note)?, note.line)?;
    }
    let Some(text) = written(alloc, &merging.table)? else {
        return Ok(());
    };
    let facts = match carried(alloc, rom, text.as_slice(), notes) {
        Ok(facts) => facts,
        Err(FlowFault::NoMemory) => return Err(NamedFault::NoMemory),
        Err(FlowFault::Limit) => return Ok(()),
    };
    for (line, note) in &facts {
        merging.entry(fact_entry(alloc, note.at, &note.fact)?, *line)?;
    }
    Ok(())
}

/// `Cell` if a note is one of a cell elsewhere.
fn check_cell(note: &SourceNote) -> Result<(), NamedFault> {
    match note.kind {
        NoteKind::Cell(_) if !BoardMap::ALL.iter().any(|board| board.is_in_work(note.at)) => {
            Err(NamedFault::Cell { line: note.line })
        }
        _ => Ok(()),
    }
}
