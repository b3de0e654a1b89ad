// How often the dearest way of the NMI routine comes by an instruction.

use address_map::{ROM_LIMIT, Starts};
use folded_walks::{ItemKind, ProcWalk, Walks};
use std::alloc::{AllocError, Global};

/// For each address, how often the way comes by.
#[derive(Drop)]
pub struct Ways {
    counts: Vec<u64>,
    /// The instructions in loops whose turns are not known.
    looped: Starts,
}

impl Ways {
    /// What the ways of procedures come to, each as often as the whole way comes to its procedure.
    pub fn of(alloc: Global, walks: Option<&Walks>) -> Result<Ways, AllocError> {
        let mut ways = Ways {
            counts: vec![in alloc; 0u64; usize::from(ROM_LIMIT)]?,
            looped: Starts::new(),
        };
        if let Some(walks) = walks {
            for total in walks.totals() {
                if let Some(walk) = walks.walk(total.proc) {
                    ways.take(walk, total.times);
                }
            }
        }
        Ok(ways)
    }

    /// Takes the way of a procedure to which the whole way comes so many times.
    fn take(&mut self, walk: &ProcWalk, times: u64) {
        for step in &walk.steps {
            match step.kind {
                ItemKind::Accepted | ItemKind::Whole(_) => {}
                ItemKind::Run(_, _) | ItemKind::Call(_, _, _) => self.add(step.address, times),
                ItemKind::Loop(number) => {
                    if let Some(found) = walk.loops.get(number) {
                        for address in &found.addresses {
                            match found.turns {
                                Some(turns) => {
                                    let turns = u64::from(turns.count);
                                    self.add(*address, times.saturating_mul(turns));
                                }
                                None => if *address < ROM_LIMIT {
                                    self.looped.insert(*address);
                                },
                            }
                        }
                    }
                }
            }
        }
    }

    fn add(&mut self, address: u16, times: u64) {
        if let Some(count) = self.counts.get_mut(usize::from(address)) {
            *count = count.saturating_add(times);
        }
    }

    /// How often the way comes by an instruction.
    pub fn count(&self, address: u16) -> u64 {
        self.counts.get(usize::from(address)).copied().unwrap_or(0)
    }

    /// Whether an instruction is in a loop whose turns are not known.
    pub fn is_looped(&self, address: u16) -> bool {
        self.looped.contains(address)
    }
}
