// What was found as plain annotations.

use crate::inference::{Inference, VISITS};
use address_map::Rom;
use analysis::{FlowFault, Task, facts_at};
use annotations::{Annotations, FactNote, Notes};
use cert_fields::Facts;
use explored_plans::{Family, copy_of_split};
use inferred_rows::{ContextPoint, Guide, Manner};
use inferring::{found_rows_with, loosened};
use row_worklist::{RowEdge, Setting, Watch, Worklist};
use std::alloc::Global;

/// The most facts of an address.
const FACTS: usize = 4;

/// What was found as plain annotations, with the facts of an address for all of its rows; None where contexts or more
/// than four facts at an address were found. Whether `check` accepts the ROM with them is not known yet.
///
/// # Errors
///
/// `NoMemory` where memory was refused.
pub fn plain_annotations(
    alloc: Global,
    found: &Inference,
) -> Result<Option<Annotations>, FlowFault> {
    if !has_plain_form(found) {
        return Ok(None);
    }
    let mut facts = Vec::from_slice(alloc, found.base.given.facts.as_slice())?;
    for (number, own) in found.judged.guide().facts.iter() {
        let address = ContextPoint::of(*number).address;
        add_facts(&mut facts, address, own)?;
    }
    facts.sort_by_key(|note| note.at)?;
    for note in facts.as_slice() {
        if facts_at(&facts, note.at).len() > FACTS {
            return Ok(None);
        }
    }
    let said = found.explored.plan.annotations(alloc, &found.base)?;
    Ok(Some(with_facts(alloc, &said, facts)?))
}

/// The same annotations with other facts, which are sorted by address.
fn with_facts(
    alloc: Global,
    said: &Annotations,
    facts: Vec<FactNote>,
) -> Result<Annotations, FlowFault> {
    let mut notes = Notes {
        inlines: Vec::from_slice(alloc, said.inlines())?,
        splits: Vec::new(alloc),
        facts,
        loops: Vec::from_slice(alloc, said.loops())?,
        cells: Vec::from_slice(alloc, said.cells())?,
    };
    for split in said.splits() {
        notes.splits.push(copy_of_split(alloc, split)?)?;
    }
    Ok(Annotations::of(said.region(), said.budget(), said.board(), notes))
}

/// The same annotations without the fact at a place in their list.
///
/// # Errors
///
/// `NoMemory` where memory was refused.
pub fn without_fact(
    alloc: Global,
    said: &Annotations,
    place: usize,
) -> Result<Annotations, FlowFault> {
    let mut facts = Vec::new(alloc);
    for (at, note) in said.facts().iter().enumerate() {
        if at != place {
            facts.push(*note)?;
        }
    }
    with_facts(alloc, said, facts)
}

/// The rows that an analysis with plain annotations finds, and the steps between them. It widens less than that of
/// `check`.
#[derive(Drop)]
pub struct PlainRows {
    list: Box<Worklist>,
    edges: Vec<RowEdge>,
}

impl PlainRows {
    /// The rows by these annotations; None if there are too many.
    ///
    /// # Errors
    ///
    /// `NoMemory` where memory was refused.
    pub fn of(
        alloc: Global,
        rom: &Rom,
        found: &Inference,
        said: &Annotations,
    ) -> Result<Option<PlainRows>, FlowFault> {
        let map = found.base.board.map(rom.len());
        let Some(task) = Task::of(rom, &map, said) else {
            return Ok(None);
        };
        let guide = Guide::none(alloc);
        let setting = plain_setting(&task, &guide);
        let rows = found.explored.list.judged_rows();
        let list = found_rows_with(alloc, setting, VISITS, rows, Watch::Nothing);
        rows_and_edges(alloc, setting, list)
    }

    /// The rows by these annotations, which lack a fact of an address that those of the rows here have. None if a row
    /// is refused; then `check` does not accept the ROM with them.
    ///
    /// # Errors
    ///
    /// `NoMemory` where memory was refused.
    pub fn without_fact(
        &self,
        alloc: Global,
        rom: &Rom,
        found: &Inference,
        said: &Annotations,
        at: u16,
    ) -> Result<Option<PlainRows>, FlowFault> {
        let map = found.base.board.map(rom.len());
        let Some(task) = Task::of(rom, &map, said) else {
            return Ok(None);
        };
        let guide = Guide::none(alloc);
        let setting = plain_setting(&task, &guide);
        let list = loosened(alloc, setting, VISITS, &self.list, &self.edges, at);
        rows_and_edges(alloc, setting, list)
    }
}

/// An analysis by plain annotations alone.
fn plain_setting<'s>(task: &'s Task<'s>, guide: &'s Guide) -> Setting<'s> {
    Setting {
        task,
        guide,
        manner: Manner {
            explores: false,
            relates: false,
        },
    }
}

/// The rows that an analysis found, with the steps between them; None if it came to its limit.
fn rows_and_edges(
    alloc: Global,
    setting: Setting,
    found: Result<Box<Worklist>, FlowFault>,
) -> Result<Option<PlainRows>, FlowFault> {
    match found {
        Ok(list) => {
            let edges = list.edges(alloc, setting)?;
            Ok(Some(PlainRows { list, edges }))
        }
        Err(FlowFault::Limit) => Ok(None),
        Err(FlowFault::NoMemory) => Err(FlowFault::NoMemory),
    }
}

/// Whether all that was given and found can be said without the keys that only a writer that infers reads.
fn has_plain_form(found: &Inference) -> bool {
    let given = found.base.given;
    given.contexts.is_empty()
        && given.turns.is_empty()
        && given.facts.iter().all(|note| note.part.is_none())
        && given.loops.iter().all(|note| !note.rises)
        && found
            .explored
            .plan
            .findings
            .iter()
            .all(|finding| match &finding.family {
                Family::Calls(_) | Family::Turns(_) => false,
                Family::Loop(note) => !note.rises,
                Family::Inlines(_) | Family::Split(_) | Family::Cells(_) => true,
            })
}

/// Adds the facts of a row at an address, each once.
fn add_facts(facts: &mut Vec<FactNote>, at: u16, own: &Facts) -> Result<(), FlowFault> {
    for fact in own.as_slice() {
        let is_there = facts.iter().any(|note| note.at == at && note.fact == *fact);
        if !is_there {
            facts.push(FactNote {
                at,
                fact: *fact,
                part: None,
            })?;
        }
    }
    Ok(())
}
