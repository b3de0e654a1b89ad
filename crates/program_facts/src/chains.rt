// The deepest chains of calls.

use abs_step::{Next, NextKind};
use call_graph::ProcId;
use check_cover::callee_at;
use check_ways::Subject;
use listing::View;
use std::alloc::{AllocError, Global};

/// A link of the deepest chain: a procedure, the bytes of stack that it has there, and where it calls the next one.
#[derive(Clone, Copy)]
pub struct ChainLink {
    pub proc: ProcId,
    /// Bytes on the stack in this procedure, its return address included.
    pub own: u32,
    /// The address of the call or, of the last link, of the instruction with so many bytes.
    pub address: u16,
    /// The procedure that is called.
    pub callee: Option<ProcId>,
    /// The bytes of the whole chain from here.
    depth: u32,
}

/// For each procedure, where its stack is deepest.
#[derive(Drop)]
pub struct Chains {
    links: Vec<Option<ChainLink>>,
}

impl Chains {
    /// The deepest chains of a program.
    pub fn of(alloc: Global, view: &View) -> Result<Chains, AllocError> {
        let accepted = view.accepted();
        let certificate = accepted.certificate();
        let mut chains = Chains {
            links: vec![in alloc; None; certificate.procs().len()]?,
        };
        for id in 0..certificate.row_count() {
            if let Some(subject) = Subject::of(accepted.rom(), accepted.map(), certificate, id) {
                chains.take(alloc, &subject);
            }
        }
        Ok(chains)
    }

    /// Takes what a row has on the stack, and what its successors have.
    fn take(&mut self, alloc: Global, subject: &Subject) {
        let base = if subject.row.proc == 0 { 0u32 } else { 2u32 };
        let own = base.saturating_add(u32::from(subject.row.shape.bytes()));
        let here = ChainLink {
            proc: subject.row.proc,
            own,
            address: subject.row.address,
            callee: None,
            depth: own,
        };
        self.keep(here);
        if let Ok(nexts) = subject.step(alloc) {
            for next in nexts.as_slice() {
                self.take_next(subject, base, here, next);
            }
        }
    }

    fn take_next(&mut self, subject: &Subject, base: u32, here: ChainLink, next: &Next) {
        match next.kind {
            NextKind::Jump => {
                let own = base.saturating_add(u32::from(next.state.shape.bytes()));
                self.keep(ChainLink {
                    own,
                    depth: own,
                    ..here
                });
            }
            NextKind::Call => {
                if let Some(callee) = callee_at(subject.certificate, next.address) {
                    self.keep(ChainLink {
                        callee: Some(callee.number),
                        depth: here.own.saturating_add(u32::from(callee.proc.depth)),
                        ..here
                    });
                }
            }
            NextKind::Exit => {}
        }
    }

    /// Keeps a link if it is deeper than the one before, or a call as deep.
    fn keep(&mut self, link: ChainLink) {
        let Some(before) = self.links.get_mut(usize::from(link.proc)) else {
            return;
        };
        let is_better = match before {
            Some(before) => {
                before.depth < link.depth
                    || before.depth == link.depth
                        && before.callee.is_none()
                        && link.callee.is_some()
            }
            None => true,
        };
        if is_better {
            *before = Some(link);
        }
    }

    /// The deepest chain from a procedure, down to the one that calls no other there.
    pub fn from(&self, alloc: Global, proc: ProcId) -> Result<Vec<ChainLink>, AllocError> {
        let mut chain = Vec::new(alloc);
        let mut at = Some(proc);
        for _ in 0..self.links.len() {
            let Some(next) = at else {
                break;
            };
            let Some(link) = self.links.get(usize::from(next)).copied().flatten() else {
                break;
            };
            chain.push(link)?;
            at = link.callee;
        }
        Ok(chain)
    }
}
