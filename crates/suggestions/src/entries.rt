// The entries of an annotation file, by address.

use abs_state::KeptCell;
use annotations::{Annotations, FactNote, LoopNote, RangeNote, SplitNote, TurnNote};
use explored_plans::{Family, Finding, Plan};
use inferred_rows::Guide;
use std::alloc::{AllocFailed, Global};

/// One entry of an annotation file.
#[derive(Clone, Copy)]
pub(crate) enum FileEntry<'a> {
    Inline(u16),
    Context(u16),
    Turns(&'a TurnNote),
    Split(&'a SplitNote),
    Range(&'a RangeNote),
    Fact(&'a FactNote),
    Loop(&'a LoopNote),
    Cell(&'a KeptCell),
}

/// Entries, or refused memory.
type Entries<'a> = Result<Vec<FileEntry<'a>>, AllocFailed<FileEntry<'a>>>;

impl<'a> FileEntry<'a> {
    /// The address of the entry.
    pub(crate) fn at(&self) -> u16 {
        match self {
            FileEntry::Inline(at) | FileEntry::Context(at) => *at,
            FileEntry::Turns(note) => note.head,
            FileEntry::Split(split) => split.at,
            FileEntry::Range(note) => note.at,
            FileEntry::Fact(fact) => fact.at,
            FileEntry::Loop(note) => note.at,
            FileEntry::Cell(cell) => cell.at,
        }
    }
}

/// The entries of annotations by rising address; of one address the inline call comes first, then the split, the facts,
/// the loop and the cell.
pub(crate) fn entries_of<'a>(alloc: Global, said: &'a Annotations) -> Entries<'a> {
    let mut entries = Vec::new(alloc);
    add_notes(&mut entries, said)?;
    for fact in said.facts() {
        entries.push(FileEntry::Fact(fact))?;
    }
    Ok(entries)
}

/// The entries of annotations and of what guides an inferring analysis, without facts: it finds these itself. Given
/// facts are there.
pub(crate) fn guided_entries<'a>(
    alloc: Global,
    said: &'a Annotations,
    guide: &'a Guide,
) -> Entries<'a> {
    let mut entries = entries_of(alloc, said)?;
    for at in guide.calls.as_slice() {
        entries.push(FileEntry::Context(*at))?;
    }
    for note in guide.turns.as_slice() {
        entries.push(FileEntry::Turns(note))?;
    }
    for note in guide.ranges.as_slice() {
        entries.push(FileEntry::Range(note))?;
    }
    Ok(entries)
}

/// Adds the entries that are no facts.
fn add_notes<'a>(
    entries: &mut Vec<FileEntry<'a>>,
    said: &'a Annotations,
) -> Result<(), AllocFailed<FileEntry<'a>>> {
    for at in said.inlines() {
        entries.push(FileEntry::Inline(*at))?;
    }
    for split in said.splits() {
        entries.push(FileEntry::Split(split))?;
    }
    for note in said.loops() {
        entries.push(FileEntry::Loop(note))?;
    }
    for cell in said.cells() {
        entries.push(FileEntry::Cell(cell))?;
    }
    Ok(())
}

/// What a search found that has an entry; None where the entry was given, or is a fact.
pub(crate) fn finding_of<'p>(plan: &'p Plan, entry: &FileEntry) -> Option<&'p Finding> {
    plan.findings.iter().find(|finding| match (&finding.family, entry) {
        (Family::Inlines(sites), FileEntry::Inline(at)) => sites.contains(at),
        (Family::Calls(sites), FileEntry::Context(at)) => sites.contains(at),
        (Family::Turns(note), FileEntry::Turns(other)) => note.head == other.head,
        (Family::Split(split), FileEntry::Split(note)) => split.at == note.at,
        (Family::Loop(other), FileEntry::Loop(note)) => other.at == note.at,
        (Family::Cells(cells), FileEntry::Cell(cell)) => cells
            .iter()
            .any(|other| other.at == cell.at),
        _ => false,
    })
}
