// What a search has found so far.

use crate::base::Base;
use abs_state::KeptCell;
use analysis::FlowFault;
use annotations::{Annotations, LoopNote, Notes, SplitNote, TurnNote};
use inferred_rows::Guide;
use intervals::ByteRange;
use loop_bounds::Variable;
use std::alloc::Global;
use z80_decode::Register8;

/// Notes that were found together, and stay or go together.
#[derive(Drop)]
pub enum Family {
    /// The addresses of inline calls.
    Inlines(Vec<u16>),
    Split(SplitNote),
    Loop(LoopNote),
    /// All kept cells.
    Cells(Vec<KeptCell>),
    /// The addresses of calls whose states are distinguished in the callee.
    Calls(Vec<u16>),
    Turns(TurnNote),
}

/// A family, and for which refused row or loop it was found.
#[derive(Drop)]
pub struct Finding {
    pub family: Family,
    /// The address of that row, or of the loop's head.
    pub wanted_at: u16,
}

/// What was found so far, in order.
#[derive(Drop)]
pub struct Plan {
    pub findings: Vec<Finding>,
}

/// A copy of a split.
///
/// # Errors
///
/// `NoMemory` where memory was refused.
pub fn copy_of_split(alloc: Global, split: &SplitNote) -> Result<SplitNote, FlowFault> {
    split_of(
        alloc,
        split.at,
        split.register,
        split.parts.as_slice(),
        split.until,
    )
}

/// The split of a register at an address into parts.
///
/// # Errors
///
/// `NoMemory` where memory was refused.
pub fn split_of(
    alloc: Global,
    at: u16,
    register: Register8,
    parts: &[ByteRange],
    until: u16,
) -> Result<SplitNote, FlowFault> {
    Ok(SplitNote {
        at,
        register,
        parts: Vec::from_slice(alloc, parts)?,
        until,
    })
}

impl Family {
    /// A copy.
    fn copied(&self, alloc: Global) -> Result<Family, FlowFault> {
        Ok(match self {
            Family::Inlines(calls) => Family::Inlines(Vec::from_slice(alloc, calls.as_slice())?),
            Family::Split(split) => Family::Split(copy_of_split(alloc, split)?),
            Family::Loop(note) => Family::Loop(*note),
            Family::Cells(cells) => Family::Cells(Vec::from_slice(alloc, cells.as_slice())?),
            Family::Calls(calls) => Family::Calls(Vec::from_slice(alloc, calls.as_slice())?),
            Family::Turns(note) => Family::Turns(*note),
        })
    }
}

impl Finding {
    /// A copy.
    fn copied(&self, alloc: Global) -> Result<Finding, FlowFault> {
        Ok(Finding {
            family: self.family.copied(alloc)?,
            wanted_at: self.wanted_at,
        })
    }
}

impl Plan {
    /// Nothing found.
    pub fn empty(alloc: Global) -> Plan {
        Plan {
            findings: Vec::new(alloc),
        }
    }

    /// A copy.
    ///
    /// # Errors
    ///
    /// `NoMemory` where memory was refused.
    pub fn copied(&self, alloc: Global) -> Result<Plan, FlowFault> {
        let mut findings = Vec::new(alloc);
        for finding in self.findings.as_slice() {
            findings.push(finding.copied(alloc)?)?;
        }
        Ok(Plan { findings })
    }

    /// A copy in which the parts of each split rise.
    ///
    /// # Errors
    ///
    /// `NoMemory` where memory was refused.
    pub fn in_order(&self, alloc: Global) -> Result<Plan, FlowFault> {
        let mut plan = self.copied(alloc)?;
        for finding in &mut plan.findings {
            if let Family::Split(split) = &mut finding.family {
                split.parts.sort_unstable_by_key(|part| part.low());
            }
        }
        Ok(plan)
    }

    /// A copy with one more family.
    ///
    /// # Errors
    ///
    /// `NoMemory` where memory was refused.
    pub fn with(&self, alloc: Global, family: Family, wanted_at: u16) -> Result<Plan, FlowFault> {
        let mut plan = self.copied(alloc)?;
        plan.findings.push(Finding { family, wanted_at })?;
        Ok(plan)
    }

    /// A copy without the family at a place.
    ///
    /// # Errors
    ///
    /// `NoMemory` where memory was refused.
    pub fn without(&self, alloc: Global, place: usize) -> Result<Plan, FlowFault> {
        let mut findings = Vec::new(alloc);
        let mut at = 0usize;
        for finding in self.findings.as_slice() {
            if at != place {
                findings.push(finding.copied(alloc)?)?;
            }
            at = at.saturating_add(1);
        }
        Ok(Plan { findings })
    }

    /// Whether another plan, which was made of this one by adding families, has only bounds of loops more.
    pub fn adds_loops(&self, other: &Plan) -> bool {
        let before = self.findings.len();
        other.findings.len() > before
            && other
                .findings
                .iter()
                .skip(before)
                .all(|finding| matches!(&finding.family, Family::Loop(_)))
    }

    /// Whether the family at a place is the bound of a loop.
    pub fn is_loop(&self, place: usize) -> bool {
        match self.findings.get(place) {
            Some(finding) => matches!(&finding.family, Family::Loop(_)),
            None => false,
        }
    }

    /// A copy without the families of cells.
    ///
    /// # Errors
    ///
    /// `NoMemory` where memory was refused.
    pub fn without_cells(&self, alloc: Global) -> Result<Plan, FlowFault> {
        let mut findings = Vec::new(alloc);
        for finding in self.findings.as_slice() {
            if !matches!(&finding.family, Family::Cells(_)) {
                findings.push(finding.copied(alloc)?)?;
            }
        }
        Ok(Plan { findings })
    }

    /// A copy without the splits and the loops at an address.
    ///
    /// # Errors
    ///
    /// `NoMemory` where memory was refused.
    pub fn without_at(&self, alloc: Global, address: u16) -> Result<Plan, FlowFault> {
        let mut findings = Vec::new(alloc);
        for finding in self.findings.as_slice() {
            let is_there = match &finding.family {
                Family::Split(split) => split.at == address,
                Family::Loop(note) => note.at == address,
                _ => false,
            };
            if !is_there {
                findings.push(finding.copied(alloc)?)?;
            }
        }
        Ok(Plan { findings })
    }

    /// What this plan and the given notes say together.
    ///
    /// # Errors
    ///
    /// `NoMemory` where memory was refused.
    pub fn annotations(&self, alloc: Global, base: &Base) -> Result<Annotations, FlowFault> {
        let mut notes = Notes {
            inlines: Vec::from_slice(alloc, base.given.inlines.as_slice())?,
            splits: Vec::new(alloc),
            facts: Vec::from_slice(alloc, base.given.facts.as_slice())?,
            loops: Vec::new(alloc),
            cells: Vec::from_slice(alloc, base.given.cells.as_slice())?,
        };
        for split in base.given.splits.as_slice() {
            notes.splits.push(copy_of_split(alloc, split)?)?;
        }
        for note in base.given.loops.as_slice() {
            add_loop(&mut notes.loops, note)?;
        }
        for finding in self.findings.as_slice() {
            add_notes(alloc, &mut notes, &finding.family)?;
        }
        notes.inlines.sort_unstable();
        notes.inlines.dedup();
        notes.splits.sort_unstable_by_key(|split| split.at);
        notes.loops.sort_unstable_by_key(|note| note.at);
        notes.loops.dedup_by_key(|note| note.at);
        notes.cells.sort_unstable_by_key(|cell| cell.at);
        notes.cells.dedup_by_key(|cell| cell.at);
        Ok(Annotations::of(base.region, base.budget, base.board, notes))
    }

    /// What this plan and the given notes say beyond annotations.
    ///
    /// # Errors
    ///
    /// `NoMemory` where memory was refused.
    pub fn guide(&self, alloc: Global, base: &Base) -> Result<Guide, FlowFault> {
        let mut guide = Guide::none(alloc);
        guide
            .calls
            .extend_from_slice(base.given.contexts.as_slice())?;
        guide.turns.extend_from_slice(base.given.turns.as_slice())?;
        guide
            .ranges
            .extend_from_slice(base.given.ranges.as_slice())?;
        for finding in self.findings.as_slice() {
            match &finding.family {
                Family::Calls(calls) => guide.calls.extend_from_slice(calls.as_slice())?,
                Family::Turns(note) => guide.turns.push(*note)?,
                _ => {}
            }
        }
        guide.calls.sort_unstable();
        guide.calls.dedup();
        guide.turns.sort_unstable_by_key(|note| note.head);
        guide.turns.dedup_by_key(|note| note.head);
        Ok(guide)
    }

    /// Whether there is a split at an address.
    pub fn has_split(&self, base: &Base, address: u16) -> bool {
        base.given.splits.iter().any(|split| split.at == address)
            || self.findings.iter().any(|finding| match &finding.family {
                Family::Split(split) => split.at == address,
                _ => false,
            })
    }

    /// Whether there is a loop at an address.
    pub fn has_loop(&self, base: &Base, address: u16) -> bool {
        base.given.loops.iter().any(|note| note.at == address)
            || self.findings.iter().any(|finding| match &finding.family {
                Family::Loop(note) => note.at == address,
                _ => false,
            })
    }
}

/// Adds the notes of a family.
fn add_notes(alloc: Global, notes: &mut Notes, family: &Family) -> Result<(), FlowFault> {
    match family {
        Family::Inlines(calls) => add_inlines(&mut notes.inlines, calls),
        Family::Split(split) => add_split(alloc, &mut notes.splits, split),
        Family::Loop(note) => add_loop(&mut notes.loops, note),
        Family::Cells(cells) => add_cells(&mut notes.cells, cells),
        Family::Calls(_) | Family::Turns(_) => Ok(()),
    }
}

fn add_inlines(inlines: &mut Vec<u16>, calls: &Vec<u16>) -> Result<(), FlowFault> {
    inlines.extend_from_slice(calls.as_slice())?;
    Ok(())
}

/// Adds a split, if there is none at its address.
fn add_split(
    alloc: Global,
    splits: &mut Vec<SplitNote>,
    split: &SplitNote,
) -> Result<(), FlowFault> {
    if !splits.iter().any(|other| other.at == split.at) {
        splits.push(copy_of_split(alloc, split)?)?;
    }
    Ok(())
}

fn add_loop(loops: &mut Vec<LoopNote>, note: &LoopNote) -> Result<(), FlowFault> {
    // The type is named, since the prover looks for it among those that the module names.
    let counter: Variable = note.counter;
    loops.push(LoopNote { counter, ..*note })?;
    Ok(())
}

fn add_cells(cells: &mut Vec<KeptCell>, more: &Vec<KeptCell>) -> Result<(), FlowFault> {
    cells.extend_from_slice(more.as_slice())?;
    Ok(())
}
