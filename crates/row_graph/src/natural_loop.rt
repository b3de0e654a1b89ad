// The loops of a procedure.

use crate::flow_graph::FlowGraph;
use analysis::FlowFault;
use std::alloc::Global;
use std::collections::BTreeSet;

/// A loop of a procedure: the addresses on cycles through its head that reach one of its back branches without it.
#[derive(Drop)]
pub struct NaturalLoop {
    pub head: u16,
    /// The addresses from which a branch leads back to the head, rising.
    pub sources: Vec<u16>,
    /// The addresses of the loop, the head among them.
    pub body: BTreeSet<u16>,
}

/// More steps than a depth-first search of a procedure takes.
const STEPS: u32 = 1_000_000;

/// The loops of a procedure, those with the fewest addresses first.
///
/// # Errors
///
/// `NoMemory` where memory was refused.
pub fn loops_of(
    alloc: Global,
    graph: &FlowGraph,
    proc: u32,
    entry: u16,
) -> Result<Vec<NaturalLoop>, FlowFault> {
    let mut backs = back_branches(alloc, graph, proc, entry)?;
    backs.sort_unstable();
    let mut loops: Vec<NaturalLoop> = Vec::new(alloc);
    for (head, source) in backs.as_slice() {
        let is_new = match loops.last() {
            Some(last) => last.head != *head,
            None => true,
        };
        if is_new {
            let mut body = BTreeSet::new(alloc);
            body.insert(*head)?;
            loops.push(NaturalLoop {
                head: *head,
                sources: Vec::new(alloc),
                body,
            })?;
        }
        if let Some(last) = loops.last_mut() {
            last.sources.push(*source)?;
            last.add_body(alloc, graph, proc, *source)?;
        }
    }
    loops.sort_unstable_by_key(|found| (found.body.len(), found.head));
    Ok(loops)
}

impl NaturalLoop {
    /// Whether an address lies in the loop.
    pub fn contains(&self, address: u16) -> bool {
        self.body.contains(&address)
    }

    /// Whether each address of a loop lies in this one, which has more.
    pub fn is_around(&self, inner: &NaturalLoop) -> bool {
        self.body.len() > inner.body.len() && inner.body.iter().all(|at| self.body.contains(at))
    }

    /// Adds the addresses from which a back branch is reached without the head.
    fn add_body(
        &mut self,
        alloc: Global,
        graph: &FlowGraph,
        proc: u32,
        source: u16,
    ) -> Result<(), FlowFault> {
        let mut todo = Vec::new(alloc);
        todo.push(source)?;
        for _ in 0..STEPS {
            let Some(at) = todo.pop() else {
                return Ok(());
            };
            if self.body.insert(at)? {
                for before in graph.previous(alloc, proc, at)? {
                    todo.push(before)?;
                }
            }
        }
        Ok(())
    }

    /// The addresses to which the loop leads, those after its last address first, then by rising address.
    ///
    /// # Errors
    ///
    /// `NoMemory` where memory was refused.
    pub fn exits(
        &self,
        alloc: Global,
        graph: &FlowGraph,
        proc: u32,
    ) -> Result<Vec<u16>, FlowFault> {
        let mut found = BTreeSet::new(alloc);
        let mut last = 0;
        for at in self.body.iter() {
            last = last.max(*at);
            for next in graph.next(alloc, proc, *at)? {
                if !self.body.contains(&next) {
                    found.insert(next)?;
                }
            }
        }
        let mut exits = Vec::new(alloc);
        for at in found.iter() {
            exits.push(*at)?;
        }
        exits.sort_unstable_by_key(|at| (*at < last, *at));
        Ok(exits)
    }
}

/// A visit of the depth-first search: an address, and those to which it leads and that are not visited yet.
#[derive(Drop)]
struct SearchStep {
    address: u16,
    left: Vec<u16>,
}

/// The branches back to an address on the path of a depth-first search: the head, and where the branch stands.
fn back_branches(
    alloc: Global,
    graph: &FlowGraph,
    proc: u32,
    entry: u16,
) -> Result<Vec<(u16, u16)>, FlowFault> {
    let mut seen = BTreeSet::new(alloc);
    let mut path = BTreeSet::new(alloc);
    let mut stack = Vec::new(alloc);
    let mut backs = Vec::new(alloc);
    seen.insert(entry)?;
    path.insert(entry)?;
    stack.push(step_from(alloc, graph, proc, entry)?)?;
    for _ in 0..STEPS {
        let Some(step) = stack.last_mut() else {
            return Ok(backs);
        };
        let address = step.address;
        match step.left.pop() {
            Some(next) => {
                if path.contains(&next) {
                    backs.push((next, address))?;
                } else if seen.insert(next)? {
                    path.insert(next)?;
                    stack.push(step_from(alloc, graph, proc, next)?)?;
                }
            }
            None => {
                path.remove(&address);
                let _done = stack.pop();
            }
        }
    }
    Ok(backs)
}

/// The visit of an address. The lowest of those to which it leads is the last of the list, and comes first.
fn step_from(
    alloc: Global,
    graph: &FlowGraph,
    proc: u32,
    address: u16,
) -> Result<SearchStep, FlowFault> {
    let mut left = graph.next(alloc, proc, address)?;
    left.reverse();
    Ok(SearchStep { address, left })
}
