// Splits of the annotations that a change of the source has outdated.

ghost use Rattle.std.specs.Prelude.{◌≡◌, length};

use abs_step::Reason;
use address_map::{Map, Rom};
use analysis::{FlowFault, Task};
use annotations::{Annotations, Given, SplitNote};
use explanation_texts::add_head;
use explanations::{Explored, Refusal};
use explored_plans::copy_of_split;
use inferred_rows::{ContextPoint, Guide};
use inferring::found_rows;
use intervals::ByteRange;
use refusal_texts::{Wording, add_lacking, add_line};
use std::alloc::Global;
use tried_notes::{plain_setting, without_splits};

/// The text about outdated splits, and the annotations without them.
#[derive(Drop)]
pub struct Outdated {
    pub text: String,
    pub left: Annotations,
}

/// The outdated splits of annotations: a state that comes to such a split is in none of its parts, and one of its parts
/// is for no state. None if there is no such split. The map is for a ROM of this length.
///
/// # Errors
///
/// `NoMemory` where memory was refused.
pub fn outdated_in(
    rom: &Rom,
    map: &Map,
    said: &Annotations,
    with: &Wording,
    visits: u32,
) -> Result<Option<Outdated>, FlowFault>
    requires { map.now.rom_len ≡ length rom.now }
{
    let alloc = with.alloc;
    if said.splits().is_empty() {
        return Ok(None);
    }
    let Some(task) = Task::of(rom, map, said) else {
        return Ok(None);
    };
    let guide = Guide::none(alloc);
    let setting = plain_setting(&task, &guide);
    let list = match found_rows(alloc, setting, visits) {
        Ok(list) => list,
        Err(FlowFault::Limit) => return Ok(None),
        Err(FlowFault::NoMemory) => return Err(FlowFault::NoMemory),
    };
    told(said, with, &Explored::of(alloc, setting, &list)?)
}

/// The same, as an analysis shows it.
fn told(
    said: &Annotations,
    with: &Wording,
    explored: &Explored,
) -> Result<Option<Outdated>, FlowFault> {
    let alloc = with.alloc;
    let mut text = String::new(alloc);
    let mut gone: Vec<u16> = Vec::new(alloc);
    for (number, row) in explored.list.rows().iter() {
        if !row.drops {
            continue;
        }
        for (at, _) in explored.lacking(alloc, *number)? {
            if !gone.contains(&at) && is_outdated(explored, at) {
                add_outdated(&mut text, with, explored, *number, at)?;
                gone.push(at)?;
            }
        }
    }
    if gone.is_empty() {
        return Ok(None);
    }
    let left = without_splits(alloc, said, &gone)?;
    Ok(Some(Outdated { text, left }))
}

/// Whether a split has a part for no state.
fn is_outdated(explored: &Explored, at: u16) -> bool {
    let Some(split) = explored.task.split_at(at) else {
        return false;
    };
    split
        .parts
        .iter()
        .any(|part| !is_reached(explored, split, part))
}

/// Whether a state that comes to a split is in a part of it.
fn is_reached(explored: &Explored, split: &SplitNote, part: &ByteRange) -> bool {
    explored.list.rows().iter().any(|(number, row)| {
        let range = row.state.byte(split.register);
        let is_in = part.low() <= range.low() && range.high() <= part.high();
        is_in && ContextPoint::of(*number).address == split.at
    })
}

/// Adds the text about a row that leads to an outdated split.
fn add_outdated(
    text: &mut String,
    with: &Wording,
    explored: &Explored,
    row: u64,
    at: u16,
) -> Result<(), FlowFault> {
    let refusal = Refusal {
        row: Some(row),
        address: ContextPoint::of(row).address,
        reason: Reason::NotCovered,
    };
    add_head(text, with, &refusal)?;
    let _some = add_lacking(text, with, explored, row)?;
    let place = with.place(at);
    add_line(
        text,
        format_args!(
            "try: leave out the split at {place}, which has parts for no value that comes there; the rest is said without it"
        ),
    )?;
    text.push_str("  see: galcert explain 12\n")?;
    Ok(())
}

/// What annotations give to a search.
///
/// # Errors
///
/// `NoMemory` where memory was refused.
pub fn given_by(alloc: Global, said: &Annotations) -> Result<Given, FlowFault> {
    let mut splits: Vec<SplitNote> = Vec::new(alloc);
    for split in said.splits() {
        splits.push(copy_of_split(alloc, split)?)?;
    }
    Ok(Given {
        inlines: Vec::from_slice(alloc, said.inlines())?,
        splits,
        facts: Vec::from_slice(alloc, said.facts())?,
        loops: Vec::from_slice(alloc, said.loops())?,
        cells: Vec::from_slice(alloc, said.cells())?,
        ..Given::nothing(alloc)
    })
}
