// The parts of a certificate.

use crate::calls::RankedDepth;
use crate::fault::WriterFault;
use crate::layout::Layout;
use abs_state::FlagFact;
use analysis::{Flow, Noted, ProgramPoint, Task, facts_at};
use annotations::{Annotations, FactNote};
use cert_fields::{Facts, stays_within};
use cert_form::SPLIT_LIMIT;
use certificate::{BoardMap, Proc, Row, Split, Version};
use flag_letters::FlagParts;
use stack_shape::Shape;
use std::alloc::Global;

/// The most facts of a row.
const FACTS: usize = 4;

/// The version that the annotations need: 2 if there are cells or the board is the raised one.
pub(crate) fn version_of(said: &Annotations) -> Version {
    match said.board() {
        BoardMap::Galaxian if said.cells().is_empty() => Version::One,
        BoardMap::Galaxian | BoardMap::Raised => Version::Two,
    }
}

/// The version that the annotations need, but no less than another one.
pub(crate) fn version_from(said: &Annotations, least: Version) -> Version {
    match (version_of(said), least) {
        (_, Version::Three) | (Version::Three, _) => Version::Three,
        (Version::One, Version::One) => Version::One,
        _ => Version::Two,
    }
}

/// The splits at addresses that have rows.
pub(crate) fn splits_of(
    alloc: Global,
    task: &Task,
    flow: &Flow,
    layout: &Layout,
) -> Result<Vec<Split>, WriterFault> {
    let mut splits = Vec::new(alloc);
    let mut last = None;
    for (number, _) in flow.rows().iter() {
        let place = ProgramPoint::of(*number);
        let here = Some((place.proc, place.address));
        if here != last {
            if let Some(note) = task.split_at(place.address) {
                if splits.len() >= SPLIT_LIMIT {
                    return Err(WriterFault::Limit);
                }
                splits.push(Split {
                    proc: layout.id_of(place.proc),
                    address: place.address,
                    register: note.register,
                })?;
            }
        }
        last = here;
    }
    Ok(splits)
}

/// Whether no address with a row has more than four facts.
pub(crate) fn facts_fit(said: &Annotations, flow: &Flow) -> bool {
    for (number, _) in flow.rows().iter() {
        if facts_at(said.facts(), ProgramPoint::of(*number).address).len() > FACTS {
            return false;
        }
    }
    true
}

/// The facts of a row with this shape: those at its address that name only slots of the shape.
fn facts_of(notes: &[FactNote], shape: &Shape) -> Facts {
    let mut facts = Facts::none();
    for note in notes {
        if stays_within(&note.fact, shape.len()) {
            let _room = facts.push(note.fact);
        }
    }
    facts
}

/// What a row of a certificate of this version says of the flags: flag parts in version 3, and a flag fact before that.
fn flags_of(version: Version, noted: &Noted) -> (Option<FlagFact>, FlagParts) {
    match version {
        Version::One | Version::Two => (noted.state.flag, FlagParts::empty()),
        Version::Three => (None, noted.parts.copied()),
    }
}

fn row_of(
    version: Version,
    said: &Annotations,
    flow: &Flow,
    layout: &Layout,
    place: ProgramPoint,
    noted: &Noted,
) -> Row {
    let (flag, parts) = flags_of(version, noted);
    let mut state = noted.state.copied();
    state.flag = flag;
    let facts = match flow.facts_of(place.number()) {
        Some(facts) => facts.copied(),
        None => facts_of(facts_at(said.facts(), place.address), &noted.state.shape),
    };
    Row {
        proc: layout.id_of(place.proc),
        address: place.address,
        state,
        parts,
        facts,
        potential: None,
    }
}

/// The rows that an analysis found, for a certificate of this version, without potentials.
pub(crate) fn rows_of(
    alloc: Global,
    version: Version,
    said: &Annotations,
    flow: &Flow,
    layout: &Layout,
) -> Result<Vec<Row>, WriterFault> {
    let mut rows = Vec::new(alloc);
    for (number, noted) in flow.rows().iter() {
        let place = ProgramPoint::of(*number);
        rows.push(row_of(version, said, flow, layout, place, noted))?;
    }
    Ok(rows)
}

/// The procedures with their ranks, without depths and times.
pub(crate) fn procs_of(
    alloc: Global,
    layout: &Layout,
    under: &[RankedDepth],
) -> Result<Vec<Proc>, WriterFault> {
    let mut procs = Vec::new(alloc);
    for id in 0..under.len() {
        procs.push(layout.proc(id, under[id].rank))?;
    }
    Ok(procs)
}
