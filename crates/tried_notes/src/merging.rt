// Annotations with notes added, or with another region or budget.

use address_map::Region;
use analysis::FlowFault;
use annotations::{Annotations, FactNote, LoopNote, Notes, SplitNote};
use explored_plans::copy_of_split;
use loop_bounds::Variable;
use std::alloc::Global;

/// Whether a list has a fact.
pub fn has_fact(facts: &[FactNote], fact: &FactNote) -> bool {
    facts
        .iter()
        .any(|other| other.at == fact.at && other.fact == fact.fact)
}

/// No notes.
fn no_notes(alloc: Global) -> Notes {
    Notes {
        inlines: Vec::new(alloc),
        splits: Vec::new(alloc),
        facts: Vec::new(alloc),
        loops: Vec::new(alloc),
        cells: Vec::new(alloc),
    }
}

/// The notes of annotations.
fn notes_of(alloc: Global, said: &Annotations) -> Result<Notes, FlowFault> {
    let mut notes = Notes {
        inlines: Vec::from_slice(alloc, said.inlines())?,
        splits: Vec::new(alloc),
        facts: Vec::from_slice(alloc, said.facts())?,
        loops: Vec::from_slice(alloc, said.loops())?,
        cells: Vec::from_slice(alloc, said.cells())?,
    };
    for split in said.splits() {
        notes.splits.push(copy_of_split(alloc, split)?)?;
    }
    Ok(notes)
}

/// Annotations with the notes of others added.
///
/// # Errors
///
/// `NoMemory` where memory was refused.
pub fn merged(
    alloc: Global,
    said: &Annotations,
    added: &Annotations,
) -> Result<Annotations, FlowFault> {
    let mut notes = notes_of(alloc, said)?;
    notes.inlines.extend_from_slice(added.inlines())?;
    notes.inlines.sort_unstable();
    notes.inlines.dedup();
    for split in added.splits() {
        notes.splits.push(copy_of_split(alloc, split)?)?;
    }
    notes.splits.sort_unstable_by_key(|split| split.at);
    for fact in added.facts() {
        if !has_fact(&notes.facts, fact) {
            notes.facts.push(*fact)?;
        }
    }
    notes.facts.sort_by_key(|note| note.at)?;
    for note in added.loops() {
        add_loop(&mut notes.loops, note)?;
    }
    notes.loops.sort_unstable_by_key(|note| note.at);
    notes.cells.extend_from_slice(added.cells())?;
    notes.cells.sort_unstable_by_key(|cell| cell.at);
    Ok(Annotations::of(said.region(), said.budget(), said.board(), notes))
}

/// Adds a loop.
///
/// # Errors
///
/// `NoMemory` where memory was refused.
pub fn add_loop(loops: &mut Vec<LoopNote>, note: &LoopNote) -> Result<(), FlowFault> {
    // The type is named, since the prover looks for it among those that the module names.
    let counter: Variable = note.counter;
    loops.push(LoopNote { counter, ..*note })?;
    Ok(())
}

/// The notes of annotations that others do not have at the same address.
///
/// # Errors
///
/// `NoMemory` where memory was refused.
pub fn added_of(
    alloc: Global,
    said: &Annotations,
    all: &Annotations,
) -> Result<Annotations, FlowFault> {
    let mut notes = no_notes(alloc);
    for at in all.inlines() {
        if !said.inlines().contains(at) {
            notes.inlines.push(*at)?;
        }
    }
    for split in all.splits() {
        if !said.splits().iter().any(|other| other.at == split.at) {
            notes.splits.push(copy_of_split(alloc, split)?)?;
        }
    }
    for note in all.loops() {
        if !said.loops().iter().any(|other| other.at == note.at) {
            add_loop(&mut notes.loops, note)?;
        }
    }
    for cell in all.cells() {
        if !said.cells().iter().any(|other| other.at == cell.at) {
            notes.cells.push(*cell)?;
        }
    }
    Ok(with_notes(said, notes))
}

/// Annotations with other notes.
fn with_notes(said: &Annotations, notes: Notes) -> Annotations {
    Annotations::of(said.region(), said.budget(), said.board(), notes)
}

/// Only these facts, as annotations.
pub fn only_facts(alloc: Global, said: &Annotations, facts: Vec<FactNote>) -> Annotations {
    let mut notes = no_notes(alloc);
    notes.facts = facts;
    with_notes(said, notes)
}

/// Only these loops, as annotations.
pub fn only_loops(alloc: Global, said: &Annotations, loops: Vec<LoopNote>) -> Annotations {
    let mut notes = no_notes(alloc);
    notes.loops = loops;
    with_notes(said, notes)
}

/// Annotations without the facts of some addresses.
///
/// # Errors
///
/// `NoMemory` where memory was refused.
pub fn without_facts(
    alloc: Global,
    said: &Annotations,
    gone: &[u16],
) -> Result<Annotations, FlowFault> {
    let mut notes = notes_of(alloc, said)?;
    let mut facts = Vec::new(alloc);
    for fact in said.facts() {
        if !gone.contains(&fact.at) {
            facts.push(*fact)?;
        }
    }
    notes.facts = facts;
    Ok(with_notes(said, notes))
}

/// Only this split, as annotations.
///
/// # Errors
///
/// `NoMemory` where memory was refused.
pub fn only_split(
    alloc: Global,
    said: &Annotations,
    split: SplitNote,
) -> Result<Annotations, FlowFault> {
    let mut notes = no_notes(alloc);
    notes.splits.push(split)?;
    Ok(with_notes(said, notes))
}

/// Annotations with a split in the place of the one at its address.
///
/// # Errors
///
/// `NoMemory` where memory was refused.
pub fn with_split_instead(
    alloc: Global,
    said: &Annotations,
    split: &SplitNote,
) -> Result<Annotations, FlowFault> {
    let mut notes = notes_of(alloc, said)?;
    let mut splits = Vec::new(alloc);
    for other in said.splits() {
        let kept = if other.at == split.at { split } else { other };
        splits.push(copy_of_split(alloc, kept)?)?;
    }
    notes.splits = splits;
    Ok(with_notes(said, notes))
}

/// Annotations without the splits at some addresses.
///
/// # Errors
///
/// `NoMemory` where memory was refused.
pub fn without_splits(
    alloc: Global,
    said: &Annotations,
    gone: &[u16],
) -> Result<Annotations, FlowFault> {
    let mut notes = notes_of(alloc, said)?;
    notes.splits.retain(|split| !gone.contains(&split.at));
    Ok(with_notes(said, notes))
}

/// Whether two annotations have a split, a loop or a cell at one address.
pub fn clash(one: &Annotations, other: &Annotations) -> bool {
    one.splits().iter().any(|split| other.splits().iter().any(|same| same.at == split.at))
        || one
            .loops()
            .iter()
            .any(|note| other.loops().iter().any(|same| same.at == note.at))
        || one
            .cells()
            .iter()
            .any(|cell| other.cells().iter().any(|same| same.at == cell.at))
}

/// Annotations with another region of the stack.
///
/// # Errors
///
/// `NoMemory` where memory was refused.
pub fn with_region(
    alloc: Global,
    said: &Annotations,
    region: Region,
) -> Result<Annotations, FlowFault> {
    let notes = notes_of(alloc, said)?;
    Ok(Annotations::of(region, said.budget(), said.board(), notes))
}

/// Annotations with a routine of this budget.
///
/// # Errors
///
/// `NoMemory` where memory was refused.
pub fn with_budget(
    alloc: Global,
    said: &Annotations,
    budget: u16,
) -> Result<Annotations, FlowFault> {
    let notes = notes_of(alloc, said)?;
    Ok(Annotations::of(said.region(), Some(budget), said.board(), notes))
}
