// The survey of an accepted certificate.

use crate::calls::{CallPlace, CallPlaces};
use crate::kept::KeptPairs;
use crate::reads::ReadRanges;
use crate::rows::RowsByAddress;
use abs_step::{Next, NextKind};
use address_map::{ROM_LIMIT, Starts};
use call_graph::ProcId;
use cert_checker::Accepted;
use check_cover::callee_at;
use check_ways::Subject;
use data_reads::data_reads;
use std::alloc::{AllocError, Global};
use z80_decode::Instr;

/// What the rows of an accepted certificate say together about its program.
#[derive(Drop)]
pub struct Survey {
    rows: RowsByAddress,
    calls: CallPlaces,
    /// For each procedure, what all its exits keep; None before the first exit.
    kept: Vec<Option<KeptPairs>>,
    heads: Starts,
    /// The targets of jumps from a higher address.
    turned_to: Starts,
    code: Starts,
    read: Starts,
}

impl Survey {
    /// Surveys an accepted certificate. The time is that of a step for each row. Err if memory is refused.
    pub fn of(alloc: Global, accepted: &Accepted) -> Result<Survey, AllocError> {
        let certificate = accepted.certificate();
        let mut survey = Survey {
            rows: RowsByAddress::of(alloc, certificate)?,
            calls: CallPlaces::new(alloc),
            kept: Vec::new(alloc),
            heads: Starts::new(),
            turned_to: Starts::new(),
            code: Starts::new(),
            read: Starts::new(),
        };
        for proc in certificate.procs() {
            survey.kept.push(None)?;
            mark(&mut survey.heads, proc.entry);
        }
        let mut reads = ReadRanges::new(alloc)?;
        for id in 0..certificate.row_count() {
            if let Some(subject) = Subject::of(accepted.rom(), accepted.map(), certificate, id) {
                survey.take_instr(&subject, &mut reads);
                survey.take_nexts(alloc, &subject)?;
            }
        }
        survey.calls.finish()?;
        survey.mark_first_of_runs(accepted);
        survey.read = reads.addresses();
        Ok(survey)
    }

    /// Takes the instruction of a row: its bytes, what it reads, and the place after it if it is a call.
    fn take_instr(&mut self, subject: &Subject, reads: &mut ReadRanges) {
        let Ok(instr) = &subject.decoded else {
            return;
        };
        for address in subject.row.address..subject.behind {
            mark(&mut self.code, address);
        }
        for range in data_reads(instr, subject.row.pairs) {
            if let Some(range) = range {
                reads.add(range);
            }
        }
        if let Instr::Call(_) | Instr::CallIf(_, _) | Instr::Restart(_) = instr {
            mark(&mut self.heads, subject.behind);
        }
    }

    /// Takes the successors of a row.
    fn take_nexts(&mut self, alloc: Global, subject: &Subject) -> Result<(), AllocError> {
        let Ok(nexts) = subject.step(alloc) else {
            return Ok(());
        };
        for next in nexts.as_slice() {
            self.take_next(subject, next)?;
        }
        Ok(())
    }

    fn take_next(&mut self, subject: &Subject, next: &Next) -> Result<(), AllocError> {
        match next.kind {
            NextKind::Jump => {
                if next.address != subject.behind && next.address != subject.row.address {
                    mark(&mut self.heads, next.address);
                    if subject.row.address > next.address {
                        mark(&mut self.turned_to, next.address);
                    }
                }
                Ok(())
            }
            NextKind::Call => match callee_at(subject.certificate, next.address) {
                Some(callee) => self.calls.add(CallPlace {
                    callee: callee.number,
                    caller: subject.row.proc,
                    address: subject.row.address,
                }),
                None => Ok(()),
            },
            NextKind::Exit => {
                let left = KeptPairs::at_exit(&next.state.pairs);
                if let Some(kept) = self.kept.get_mut(usize::from(subject.row.proc)) {
                    *kept = Some(match *kept {
                        Some(before) => before.and(left),
                        None => left,
                    });
                }
                Ok(())
            }
        }
    }

    /// Marks the instructions into which no instruction before them falls.
    fn mark_first_of_runs(&mut self, accepted: &Accepted) {
        let mut behind = ROM_LIMIT;
        for address in 0..ROM_LIMIT {
            if let Some(bytes) = accepted.code().bytes_at(address) {
                if address != behind {
                    self.heads.insert(address);
                }
                behind = address.saturating_add(bytes.len() as u16);
            }
        }
    }

    /// The rows by address.
    pub fn rows(&self) -> &RowsByAddress {
        &self.rows
    }

    /// The calls of the program.
    pub fn calls(&self) -> &CallPlaces {
        &self.calls
    }

    /// The pairs that a procedure gives back at each of its exits; None if it has no exit.
    pub fn kept(&self, proc: ProcId) -> Option<KeptPairs> {
        match self.kept.get(usize::from(proc)) {
            Some(kept) => *kept,
            None => None,
        }
    }

    /// Whether an instruction with a row is the head of a run: the entry of a procedure, the target of a jump from
    /// elsewhere, the place after a call, or one into which no instruction falls.
    pub fn is_head(&self, address: u16) -> bool {
        self.heads.contains(address)
    }

    /// Whether a jump from a higher address leads to an instruction.
    pub fn is_turned_to(&self, address: u16) -> bool {
        self.turned_to.contains(address)
    }

    /// Whether a byte of the ROM lies in an instruction with a row.
    pub fn is_code(&self, address: u16) -> bool {
        self.code.contains(address)
    }

    /// Whether an instruction may read a byte of the ROM as data. A range of 4,096 addresses or more does not count.
    pub fn is_read(&self, address: u16) -> bool {
        self.read.contains(address)
    }
}

/// Adds an address to a set, if it is below 4000h.
fn mark(set: &mut Starts, address: u16) {
    if address < ROM_LIMIT {
        set.insert(address);
    }
}
