// What guides an inferring analysis, beside annotations.

use analysis::FlowFault;
use annotations::{RangeNote, TurnNote};
use cert_fields::Facts;
use flag_letters::FlagParts;
use loop_bounds::Linear;
use std::alloc::Global;
use std::collections::BTreeMap;

/// How an inferring analysis goes about.
#[derive(Clone, Copy)]
pub struct Manner {
    /// Whether it goes on after a reason that leaves successors.
    pub explores: bool,
    /// Whether it keeps linear relations and tightens rows by them.
    pub relates: bool,
}

/// What guides an inferring analysis: the facts and flag parts of rows, and which states are distinguished.
#[derive(Drop)]
pub struct Guide {
    /// The facts of rows, by the numbers of their places.
    pub facts: BTreeMap<u64, Facts>,
    /// The flag parts of rows, by the numbers of their places.
    pub parts: BTreeMap<u64, FlagParts>,
    /// The addresses of calls whose states are distinguished in the callee, rising.
    pub calls: Vec<u16>,
    /// Loops whose turns are distinguished, by rising head.
    pub turns: Vec<TurnNote>,
    /// Ranges that no widening leaves, by rising address.
    pub ranges: Vec<RangeNote>,
}

impl Guide {
    /// A guide that distinguishes nothing.
    pub fn none(alloc: Global) -> Guide {
        Guide {
            facts: BTreeMap::new(alloc),
            parts: BTreeMap::new(alloc),
            calls: Vec::new(alloc),
            turns: Vec::new(alloc),
            ranges: Vec::new(alloc),
        }
    }

    /// A copy.
    ///
    /// # Errors
    ///
    /// `NoMemory` where memory was refused.
    pub fn copied(&self, alloc: Global) -> Result<Guide, FlowFault> {
        let mut facts = BTreeMap::new(alloc);
        for (row, own) in self.facts.iter() {
            facts.insert(*row, own.copied())?;
        }
        let mut parts = BTreeMap::new(alloc);
        for (row, own) in self.parts.iter() {
            parts.insert(*row, own.copied())?;
        }
        let mut calls = Vec::new(alloc);
        for call in self.calls.as_slice() {
            calls.push(*call)?;
        }
        let mut turns = Vec::new(alloc);
        for turn in self.turns.as_slice() {
            turns.push(*turn)?;
        }
        let mut ranges = Vec::new(alloc);
        for range in self.ranges.as_slice() {
            ranges.push(*range)?;
        }
        Ok(Guide {
            facts,
            parts,
            calls,
            turns,
            ranges,
        })
    }

    /// The facts of the row at the place with this number.
    pub fn facts_of(&self, number: u64) -> &[Linear] {
        match self.facts.get(&number) {
            Some(facts) => facts.as_slice(),
            None => &[],
        }
    }

    /// The flag parts of the row at the place with this number.
    pub fn parts_of(&self, number: u64) -> FlagParts {
        match self.parts.get(&number) {
            Some(parts) => parts.copied(),
            None => FlagParts::empty(),
        }
    }

    /// The ranges at an address.
    pub fn ranges_at(&self, address: u16) -> &[RangeNote] {
        let first = self.ranges.partition_point(|note| note.at < address);
        let after = self.ranges.partition_point(|note| note.at <= address);
        match self.ranges.get(first..after) {
            Some(ranges) => ranges,
            None => &[],
        }
    }

    /// The context that a call from an address gives to its callee; 0 for none.
    pub fn context_of_call(&self, address: u16) -> u16 {
        let place = self.calls.partition_point(|at| *at < address);
        match self.calls.get(place) {
            Some(at) if *at == address => (place.min(0x7FFF) as u16).saturating_add(1),
            _ => 0,
        }
    }

    /// The context of a state in `context` that goes from an address to another of its procedure.
    pub fn context_of_jump(&self, from: u16, to: u16, context: u16) -> u16 {
        let mut first = (self.calls.len().min(0x7FFF) as u16).saturating_add(1);
        let mut now = context;
        for note in self.turns.as_slice() {
            let last = first.saturating_add(note.turns).saturating_sub(1);
            let is_in = first <= now && now <= last;
            if to == note.head {
                now = if is_in && from >= note.head {
                    now.saturating_add(1).min(last)
                } else {
                    first
                };
            } else if to == note.until && is_in {
                now = 0;
            }
            first = last.saturating_add(1);
        }
        now
    }
}
