// The control-flow graph of each procedure, by addresses.

use analysis::FlowFault;
use inferred_rows::ContextPoint;
use judged_rows::ArrivingKind;
use row_worklist::RowEdge;
use std::alloc::Global;
use std::collections::BTreeSet;

/// The control-flow graph of each procedure: which address leads to which. A call leads to the address after it.
#[derive(Drop)]
pub struct FlowGraph {
    next: BTreeSet<u64>,
    previous: BTreeSet<u64>,
}

/// A number for a step of a procedure; those from one address are adjacent.
fn step_number(proc: u32, from: u16, to: u16) -> u64 {
    u64::from(proc % 0x2_0000) * 0x1_0000_0000 + u64::from(from) * 0x1_0000 + u64::from(to)
}

impl FlowGraph {
    /// The graph of these steps between rows.
    ///
    /// # Errors
    ///
    /// `NoMemory` where memory was refused.
    pub fn of(alloc: Global, edges: &[RowEdge]) -> Result<FlowGraph, FlowFault> {
        let mut graph = FlowGraph {
            next: BTreeSet::new(alloc),
            previous: BTreeSet::new(alloc),
        };
        for edge in edges {
            if edge.kind != ArrivingKind::Call {
                let (from, to) = (ContextPoint::of(edge.from), ContextPoint::of(edge.to));
                graph
                    .next
                    .insert(step_number(from.proc, from.address, to.address))?;
                graph
                    .previous
                    .insert(step_number(from.proc, to.address, from.address))?;
            }
        }
        Ok(graph)
    }

    /// The addresses to which an address of a procedure leads, rising.
    ///
    /// # Errors
    ///
    /// `NoMemory` where memory was refused.
    pub fn next(&self, alloc: Global, proc: u32, address: u16) -> Result<Vec<u16>, FlowFault> {
        neighbours(alloc, &self.next, proc, address)
    }

    /// The addresses of a procedure that lead to an address, rising.
    ///
    /// # Errors
    ///
    /// `NoMemory` where memory was refused.
    pub fn previous(&self, alloc: Global, proc: u32, address: u16) -> Result<Vec<u16>, FlowFault> {
        neighbours(alloc, &self.previous, proc, address)
    }

    /// The addresses of a procedure from which an address is reached in at most `most` steps, nearest first; of those
    /// at one distance the highest first.
    ///
    /// # Errors
    ///
    /// `NoMemory` where memory was refused.
    pub fn before(
        &self,
        alloc: Global,
        proc: u32,
        address: u16,
        most: u16,
    ) -> Result<Vec<u16>, FlowFault> {
        let mut seen = BTreeSet::new(alloc);
        seen.insert(address)?;
        let mut all = Vec::new(alloc);
        let mut front = Vec::new(alloc);
        front.push(address)?;
        for _ in 0..most {
            let mut found = Vec::new(alloc);
            for at in front.as_slice() {
                for before in self.previous(alloc, proc, *at)?.iter().rev() {
                    if seen.insert(*before)? {
                        found.push(*before)?;
                        all.push(*before)?;
                    }
                }
            }
            if found.is_empty() {
                return Ok(all);
            }
            front = found;
        }
        Ok(all)
    }

    /// How many steps each address of a procedure is from an address, for those that it reaches; by rising address.
    ///
    /// # Errors
    ///
    /// `NoMemory` where memory was refused.
    pub fn distances(
        &self,
        alloc: Global,
        proc: u32,
        address: u16,
    ) -> Result<Vec<(u16, u16)>, FlowFault> {
        let mut seen = BTreeSet::new(alloc);
        seen.insert(address)?;
        let mut all = Vec::new(alloc);
        all.push((address, 0))?;
        let mut front = Vec::new(alloc);
        front.push(address)?;
        for distance in 1..=u16::MAX {
            let mut found = Vec::new(alloc);
            for at in front.as_slice() {
                for next in self.next(alloc, proc, *at)? {
                    if seen.insert(next)? {
                        found.push(next)?;
                        all.push((next, distance))?;
                    }
                }
            }
            if found.is_empty() {
                break;
            }
            front = found;
        }
        all.sort_unstable_by_key(|(at, _)| *at);
        Ok(all)
    }
}

fn neighbours(
    alloc: Global,
    steps: &BTreeSet<u64>,
    proc: u32,
    address: u16,
) -> Result<Vec<u16>, FlowFault> {
    let mut found = Vec::new(alloc);
    let first = step_number(proc, address, 0);
    for step in steps.range(first..=first.saturating_add(0xFFFF)) {
        found.push((*step % 0x1_0000) as u16)?;
    }
    Ok(found)
}
