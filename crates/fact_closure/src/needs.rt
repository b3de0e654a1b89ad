// Facts and flag parts that rows need.

use analysis::FlowFault;
use cert_fields::Facts;
use flag_letters::{FlagPart, FlagParts};
use inferred_rows::Guide;
use loop_bounds::Linear;
use std::alloc::Global;
use std::collections::BTreeMap;

/// Facts and flag parts of rows, by the numbers of the rows.
#[derive(Drop)]
pub(crate) struct Needs {
    pub facts: BTreeMap<u64, Facts>,
    pub parts: BTreeMap<u64, FlagParts>,
}

impl Needs {
    /// Nothing is needed.
    pub(crate) fn none(alloc: Global) -> Needs {
        Needs {
            facts: BTreeMap::new(alloc),
            parts: BTreeMap::new(alloc),
        }
    }

    pub(crate) fn is_empty(&self) -> bool {
        self.facts.is_empty() && self.parts.is_empty()
    }

    /// How many rows need facts, and how many need parts, together.
    pub(crate) fn len(&self) -> usize {
        self.facts.len().saturating_add(self.parts.len())
    }

    /// Adds what else is needed.
    pub(crate) fn merge(&mut self, more: &Needs) -> Result<(), FlowFault> {
        merge_facts(&mut self.facts, &more.facts)?;
        merge_parts(&mut self.parts, &more.parts)
    }
}

/// Adds to a guide what rows need.
pub(crate) fn guide_by(guide: &mut Guide, needs: &Needs) -> Result<(), FlowFault> {
    merge_facts(&mut guide.facts, &needs.facts)?;
    merge_parts(&mut guide.parts, &needs.parts)
}

/// Adds facts to those of a table.
fn merge_facts(
    table: &mut BTreeMap<u64, Facts>,
    more: &BTreeMap<u64, Facts>,
) -> Result<(), FlowFault> {
    for (row, facts) in more.iter() {
        for fact in facts.as_slice() {
            add_fact(table, *row, *fact)?;
        }
    }
    Ok(())
}

/// Adds flag parts to those of a table.
fn merge_parts(
    table: &mut BTreeMap<u64, FlagParts>,
    more: &BTreeMap<u64, FlagParts>,
) -> Result<(), FlowFault> {
    for (row, parts) in more.iter() {
        for part in parts.parts() {
            add_part(table, *row, *part)?;
        }
    }
    Ok(())
}

/// Adds a fact to a row. It stays without the fact if it has four already.
pub(crate) fn add_fact(
    table: &mut BTreeMap<u64, Facts>,
    row: u64,
    fact: Linear,
) -> Result<(), FlowFault> {
    if let Some(facts) = table.get_mut(&row) {
        let _room = facts.push(fact);
        return Ok(());
    }
    let mut facts = Facts::none();
    let _room = facts.push(fact);
    table.insert(row, facts)?;
    Ok(())
}

/// Adds a flag part to those of a row, if it has fewer than eight and not this one.
pub(crate) fn add_part(
    table: &mut BTreeMap<u64, FlagParts>,
    row: u64,
    part: FlagPart,
) -> Result<(), FlowFault> {
    if let Some(parts) = table.get_mut(&row) {
        if !parts.is_full() && !parts.parts().contains(&part) {
            parts.push(part);
        }
        return Ok(());
    }
    let mut parts = FlagParts::empty();
    parts.push(part);
    table.insert(row, parts)?;
    Ok(())
}
