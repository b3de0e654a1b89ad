// What a remedy is for, and remedies that change the region or the budget.

use crate::looking::Remedy;
use abs_step::Reason;
use address_map::{Region, Rom};
use analysis::FlowFault;
use annotations::{Annotations, Given};
use cert_lines::{BoardMap, WORK_LEN};
use cert_writer::certify;
use check_rules::nmi_of;
use explanations::{Explored, Refusal};
use explored_plans::Base;
use inferred_rows::ContextPoint;
use inferring::stack_depth;
use std::alloc::Global;
use t_states::MAX_BUDGET;
use tried_notes::{answers_otherwise, with_budget, with_region, without_facts};

/// What a remedy is for: a ROM, its annotations, and the analysis of them.
#[derive(Clone, Copy)]
pub struct Case<'r> {
    pub alloc: Global,
    pub bytes: &'r [u8],
    pub said: &'r Annotations,
    pub explored: &'r Explored<'r>,
    /// The most visits of rows in one analysis.
    pub visits: u32,
}

impl<'r> Case<'r> {
    /// The region of the first LD SP,nn, if the refusal goes with it.
    pub(crate) fn other_region(
        &self,
        refusal: &Refusal,
        top: Option<u16>,
    ) -> Result<Remedy, FlowFault> {
        let Some(rom) = Rom::of(self.bytes) else {
            return Ok(Remedy::Unknown);
        };
        let top = match top {
            Some(top) => top,
            None => first_top(self.alloc, &rom, self.said.board())?,
        };
        let region = Region {
            low: top.saturating_sub(0x80),
            top,
        };
        self.if_region_helps(refusal, region)
    }

    /// A region, if a refusal goes with it.
    fn if_region_helps(&self, refusal: &Refusal, region: Region) -> Result<Remedy, FlowFault> {
        let said = with_region(self.alloc, self.said, region)?;
        let is_better = answers_otherwise(
            self.alloc,
            self.bytes,
            &said,
            refusal.address,
            refusal.reason,
        )? && answers_otherwise(self.alloc, self.bytes, &said, 0, Reason::Region)?;
        if is_better {
            Ok(Remedy::Stack(region))
        } else {
            Ok(Remedy::Unknown)
        }
    }

    /// The region whose top is the word of an LD SP,nn, if the refusal goes with it.
    pub(crate) fn other_top(&self, refusal: &Refusal) -> Result<Remedy, FlowFault> {
        match self.explored.instr_at(refusal.address) {
            Some(z80_decode::Instr::LoadPair(z80_decode::Register16::Sp, top)) => {
                self.other_region(refusal, Some(top))
            }
            _ => Ok(Remedy::Unknown),
        }
    }

    /// The region with the same top that has just room for what the program needs, if the refusal goes with it.
    pub(crate) fn deep_enough(&self, refusal: &Refusal) -> Result<Remedy, FlowFault> {
        let depth = stack_depth(self.alloc, self.explored.list)?.max(2);
        let top = self.said.region().top;
        if depth > u32::from(WORK_LEN) {
            return Ok(Remedy::Unknown);
        }
        let region = Region {
            low: top.saturating_sub(depth as u16),
            top,
        };
        if region.low == self.said.region().low {
            return Ok(Remedy::Unknown);
        }
        self.if_region_helps(refusal, region)
    }

    /// The time that the NMI routine takes, as its budget.
    pub(crate) fn long_enough(&self) -> Result<Remedy, FlowFault> {
        let said = with_budget(self.alloc, self.said, MAX_BUDGET as u16)?;
        match certify(self.alloc, self.bytes, &said) {
            Ok(accepted) => {
                let time = match nmi_of(accepted.certificate()) {
                    Some(proc) => proc.time.unwrap_or(0),
                    None => 0,
                };
                Ok(Remedy::Budget(time.min(MAX_BUDGET) as u16))
            }
            Err(cert_writer::WriterFault::NoMemory) => Err(FlowFault::NoMemory),
            Err(_) => Ok(Remedy::Unknown),
        }
    }

    /// The annotations without the facts of an entry, if the refusal goes then.
    pub(crate) fn without_facts_there(&self, refusal: &Refusal) -> Result<Remedy, FlowFault> {
        let at = refusal.address;
        if !self.said.facts().iter().any(|note| note.at == at) {
            return Ok(Remedy::Unknown);
        }
        let mut gone = Vec::new(self.alloc);
        gone.push(at)?;
        let said = without_facts(self.alloc, self.said, &gone)?;
        if answers_otherwise(self.alloc, self.bytes, &said, at, refusal.reason)? {
            Ok(Remedy::WithoutFacts(gone))
        } else {
            Ok(Remedy::Unknown)
        }
    }

    /// Whether a loop's head and an address lie in one loop.
    pub(crate) fn is_around(&self, head: u16, at: u16) -> Result<bool, FlowFault> {
        for (number, _) in self.explored.list.rows().iter() {
            let point = ContextPoint::of(*number);
            if point.address == at {
                for found in self.explored.loops(self.alloc, point.proc)? {
                    if found.contains(at) && found.contains(head) {
                        return Ok(true);
                    }
                }
            }
        }
        Ok(false)
    }
}

/// The word of the first LD SP,nn, or the end of the board's work RAM where there is none.
fn first_top(alloc: Global, rom: &Rom, board: BoardMap) -> Result<u16, FlowFault> {
    let mut given = Given::nothing(alloc);
    given.board = Some(board);
    let base = Base::deduced(alloc, rom, &given)?;
    Ok(base.region.top)
}
