// Whether annotations take a refusal away, by analyses of them.

ghost use Rattle.std.specs.Prelude.{◌≡◌, length};

use crate::merging::has_fact;
use abs_step::Reason;
use address_map::{Map, Rom};
use analysis::{Flow, FlowFault, ProgramPoint, Task};
use annotations::{Annotations, FactNote};
use cert_writer::{WriterFault, certify};
use explanations::{RowSteps, unshown_rows};
use inferred_rows::{ContextPoint, Guide, Manner};
use inferring::found_rows;
use row_worklist::{Setting, Worklist};
use std::alloc::Global;

/// An analysis that goes on after refusals and keeps no relations, as `check` sees a ROM.
pub fn plain_setting<'s>(task: &'s Task<'s>, guide: &'s Guide) -> Setting<'s> {
    Setting {
        task,
        guide,
        manner: Manner {
            explores: true,
            relates: false,
        },
    }
}

/// Whether the rows at an address are there, and none is refused.
fn is_clean_at(list: &Worklist, address: u16) -> bool {
    let mut is_there = false;
    for (number, row) in list.rows().iter() {
        if ContextPoint::of(*number).address == address {
            if row.reason.is_some() || row.drops {
                return false;
            }
            is_there = true;
        }
    }
    is_there
}

/// A question to annotations that are tried.
#[derive(Clone, Copy)]
pub struct TrialGoal<'a> {
    /// The address that is to be refused no more.
    pub address: u16,
    /// The facts that stood there before; the others are added.
    pub before: &'a [FactNote],
    /// The most visits of rows in one analysis.
    pub visits: u32,
}

/// What an analysis that goes on after refusals shows of annotations.
#[derive(Drop)]
struct ShownNotes {
    /// The addresses that are not refused, rising.
    clean: Vec<u16>,
    /// Whether each annotated fact follows at each step to its address.
    is_shown: bool,
}

/// The facts of annotations that were not there before.
fn added_facts(
    alloc: Global,
    said: &Annotations,
    before: &[FactNote],
) -> Result<Vec<FactNote>, FlowFault> {
    let mut added: Vec<FactNote> = Vec::new(alloc);
    for note in said.facts() {
        if !has_fact(before, note) {
            added.push(*note)?;
        }
    }
    Ok(added)
}

/// The addresses without the bad ones, rising, each once.
fn without_bad(addresses: Vec<u16>, bad: Vec<u16>) -> Vec<u16> {
    let (mut left, mut bad) = (addresses, bad);
    bad.sort_unstable();
    left.retain(|at| bad.binary_search(at).is_err());
    left.sort_unstable();
    left.dedup();
    left
}

/// The addresses at which no row of a list is refused, in rising order. `unshown` has the rows from which a fact does
/// not follow, in rising order.
fn clean_addresses(alloc: Global, list: &Worklist, unshown: &[u64]) -> Result<Vec<u16>, FlowFault> {
    let mut all: Vec<u16> = Vec::new(alloc);
    let mut bad: Vec<u16> = Vec::new(alloc);
    for (number, row) in list.rows().iter() {
        let address = ContextPoint::of(*number).address;
        let is_bad = row.reason.is_some() || row.drops || unshown.binary_search(number).is_ok();
        if is_bad {
            bad.push(address)?;
        } else {
            all.push(address)?;
        }
    }
    Ok(without_bad(all, bad))
}

/// What an analysis that goes on after refusals shows of annotations; None if the asked address is refused, or a fact
/// that is added does not follow.
fn seen_with(
    alloc: Global,
    task: &Task,
    said: &Annotations,
    asked: TrialGoal,
) -> Result<Option<ShownNotes>, FlowFault> {
    let guide = Guide::none(alloc);
    let setting = plain_setting(task, &guide);
    let list = match found_rows(alloc, setting, asked.visits) {
        Ok(list) => list,
        Err(FlowFault::Limit) => return Ok(None),
        Err(FlowFault::NoMemory) => return Err(FlowFault::NoMemory),
    };
    if !is_clean_at(&list, asked.address) {
        return Ok(None);
    }
    if said.facts().is_empty() {
        let clean = clean_addresses(alloc, &list, &[])?;
        return Ok(Some(ShownNotes {
            clean,
            is_shown: true,
        }));
    }
    let edges = list.edges(alloc, setting)?;
    let steps = RowSteps {
        list: &list,
        edges: edges.as_slice(),
    };
    seen_on(alloc, steps, said, asked.before)
}

/// The same for the steps of an analysis in which the asked address is not refused.
fn seen_on(
    alloc: Global,
    steps: RowSteps,
    said: &Annotations,
    before: &[FactNote],
) -> Result<Option<ShownNotes>, FlowFault> {
    let added = added_facts(alloc, said, before)?;
    if !unshown_rows(alloc, steps, said.facts(), &added)?.is_empty() {
        return Ok(None);
    }
    let unshown = unshown_rows(alloc, steps, said.facts(), said.facts())?;
    let clean = clean_addresses(alloc, steps.list, &unshown)?;
    Ok(Some(ShownNotes {
        clean,
        is_shown: unshown.is_empty(),
    }))
}

/// The addresses that are not refused with these annotations, rising; None if the asked address is refused. The map is
/// for a ROM of this length.
///
/// # Errors
///
/// `NoMemory` where memory was refused.
pub fn clean_with(
    alloc: Global,
    bytes: &[u8],
    rom: &Rom,
    map: &Map,
    said: &Annotations,
    asked: TrialGoal,
) -> Result<Option<Vec<u16>>, FlowFault>
    requires { map.now.rom_len ≡ length rom.now }
{
    let Some(task) = Task::of(rom, map, said) else {
        return Ok(None);
    };
    let Some(seen) = seen_with(alloc, &task, said, asked)? else {
        return Ok(None);
    };
    let flow = match Flow::run(alloc, &task) {
        Ok(flow) => flow,
        Err(FlowFault::Limit) => return Ok(None),
        Err(FlowFault::NoMemory) => return Err(FlowFault::NoMemory),
    };
    let bad = refused_addresses(alloc, &flow)?;
    if bad.contains(&asked.address) {
        return Ok(None);
    }
    if bad.is_empty() && !is_written_otherwise(alloc, bytes, said, asked.address, seen.is_shown)? {
        return Ok(None);
    }
    Ok(Some(without_bad(seen.clean, bad)))
}

/// The addresses of the refused rows of the analysis of `check`.
fn refused_addresses(alloc: Global, flow: &Flow) -> Result<Vec<u16>, FlowFault> {
    let mut refused: Vec<u16> = Vec::new(alloc);
    for (number, row) in flow.rows().iter() {
        if row.reason.is_some() {
            refused.push(ProgramPoint::of(*number).address)?;
        }
    }
    Ok(refused)
}

/// Whether the writer neither refuses an address, nor, where all facts follow, a row that is not covered.
fn is_written_otherwise(
    alloc: Global,
    bytes: &[u8],
    said: &Annotations,
    address: u16,
    is_shown: bool,
) -> Result<bool, FlowFault> {
    match certify(alloc, bytes, said) {
        Err(WriterFault::Refused(refused)) => {
            let may_be = refused.reason != Reason::NotCovered || !is_shown;
            Ok(refused.address != address && may_be)
        }
        Err(WriterFault::NoMemory) => Err(FlowFault::NoMemory),
        Ok(_) | Err(_) => Ok(true),
    }
}

/// Whether the answer of `check` with these annotations is another one than a reason at an address.
///
/// # Errors
///
/// `NoMemory` where memory was refused.
pub fn answers_otherwise(
    alloc: Global,
    bytes: &[u8],
    said: &Annotations,
    address: u16,
    reason: Reason,
) -> Result<bool, FlowFault> {
    match certify(alloc, bytes, said) {
        Err(WriterFault::Refused(refused)) => {
            Ok(refused.address != address || refused.reason != reason)
        }
        Err(WriterFault::NoMemory) => Err(FlowFault::NoMemory),
        Ok(_) | Err(_) => Ok(true),
    }
}

/// Whether the cycle of rows at an address is bounded with these annotations.
///
/// # Errors
///
/// `NoMemory` where memory was refused.
pub fn is_bounded(
    alloc: Global,
    bytes: &[u8],
    said: &Annotations,
    at: u16,
) -> Result<bool, FlowFault> {
    match certify(alloc, bytes, said) {
        Err(WriterFault::LoopUnbounded(other)) => Ok(other != at),
        Err(WriterFault::Refused(refused)) => Ok(refused.reason != Reason::Time),
        Err(WriterFault::NoMemory) => Err(FlowFault::NoMemory),
        Ok(_) | Err(_) => Ok(true),
    }
}
