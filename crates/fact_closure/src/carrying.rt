// A fact at the head of a loop, carried over the loop.

use crate::closure::{FACTS, IncomingSteps, STEPS, has};
use crate::needs::add_fact;
use analysis::FlowFault;
use annotations::FactNote;
use cert_fields::Facts;
use derived_parts::linear_before;
use inferred_rows::ContextPoint;
use loop_bounds::Linear;
use row_worklist::{RowEdge, Worklist};
use std::alloc::Global;
use std::collections::BTreeMap;

/// A fact that holds at the head of a loop, and is to be carried over the loop.
#[derive(Clone, Copy)]
pub struct LoopFact {
    /// The address of the head.
    pub head: u16,
    /// The address of the loop's last instruction. The loop lies between the two.
    pub last: u16,
    pub fact: Linear,
}

/// Facts of rows, by their numbers.
type RowFacts = BTreeMap<u64, Facts>;

/// The facts at the other addresses of a loop from which its fact follows at the head: by address, each once. They are
/// found backward from the head, over the steps between the rows of the loop. Steps that leave nothing known of a
/// variable lead no further.
///
/// # Errors
///
/// `NoMemory` where memory was refused.
pub fn carried_facts(
    alloc: Global,
    list: &Worklist,
    edges: Vec<RowEdge>,
    wanted: &LoopFact,
) -> Result<Vec<FactNote>, FlowFault> {
    let incoming = IncomingSteps::of(edges);
    let mut table = BTreeMap::new(alloc);
    let mut todo = Vec::new(alloc);
    for (number, _) in list.rows().iter() {
        if ContextPoint::of(*number).address == wanted.head {
            todo.push((*number, wanted.fact))?;
        }
    }
    for _ in 0..STEPS {
        let Some((row, fact)) = todo.pop() else {
            break;
        };
        for edge in incoming.to(row) {
            if let Some(before) = before_edge(list, edge, wanted, &fact) {
                if adds(&mut table, edge.from, before)? {
                    todo.push((edge.from, before))?;
                }
            }
        }
    }
    notes_of(alloc, &table)
}

/// What a fact after a step between two rows of a loop was before it; None if it is the head's step, or says nothing
/// there.
fn before_edge(
    list: &Worklist,
    edge: &RowEdge,
    wanted: &LoopFact,
    fact: &Linear,
) -> Option<Linear> {
    let from = ContextPoint::of(edge.from).address;
    let lowest = wanted.head.min(wanted.last);
    let highest = wanted.head.max(wanted.last);
    if from == wanted.head || from < lowest || highest < from {
        return None;
    }
    let source = list.row(edge.from)?;
    let before = linear_before(fact, &edge.effect, &source.state)?;
    if before.terms().is_empty() {
        None
    } else {
        Some(before)
    }
}

/// Adds a fact to those of a row; false if the row has it, or has no room.
fn adds(table: &mut RowFacts, row: u64, fact: Linear) -> Result<bool, FlowFault> {
    let facts = table.get(&row);
    let is_full = match facts {
        Some(facts) => facts.as_slice().len() >= FACTS,
        None => false,
    };
    if is_full || has(facts, &fact) {
        return Ok(false);
    }
    add_fact(table, row, fact)?;
    Ok(true)
}

/// The facts of rows by their addresses, each once.
fn notes_of(alloc: Global, table: &RowFacts) -> Result<Vec<FactNote>, FlowFault> {
    let mut notes: Vec<FactNote> = Vec::new(alloc);
    for (number, facts) in table.iter() {
        let at = ContextPoint::of(*number).address;
        for fact in facts.as_slice() {
            if !notes.iter().any(|note| note.at == at && note.fact == *fact) {
                notes.push(FactNote {
                    at,
                    fact: *fact,
                    part: None,
                })?;
            }
        }
    }
    notes.sort_by_key(|note| note.at)?;
    Ok(notes)
}
