// How the items of a way are made of its parts.

use crate::folding::folded;
use crate::items::{Item, ItemKind, LoopItem, ProcWalk};
use abs_step::NextKind;
use call_graph::ProcId;
use cert_checker::Accepted;
use certificate::{Proc, RowId};
use check_cover::callee_at;
use check_ways::{Subject, cost_before};
use dearest_way::{DearestWay, WayFault, WayPart, comparisons, dearest};
use listing::View;
use std::alloc::{AllocError, Global};

/// The most comparisons for the ways of a procedure and of those that it calls.
pub(crate) const COMPARISONS: u64 = 100_000_000;

/// The dearest way of a procedure; None if it has no time. `left` is how many comparisons it may take, less what it
/// takes afterwards. If it would take more, the way is the whole procedure.
pub(crate) fn walk_of(
    alloc: Global,
    view: &View,
    proc: ProcId,
    left: &mut u64,
) -> Result<Option<ProcWalk>, AllocError> {
    let accepted = view.accepted();
    let (rom, certificate) = (accepted.rom(), accepted.certificate());
    let Some(procedure) = certificate.proc(proc) else {
        return Ok(None);
    };
    let Some(time) = procedure.time else {
        return Ok(None);
    };
    let mut walk = ProcWalk {
        proc,
        sum: 0,
        steps: Vec::new(alloc),
        items: Vec::new(alloc),
        loops: Vec::new(alloc),
        segments: Vec::new(alloc),
    };
    match comparisons(alloc, rom, certificate, proc, *left) {
        Some(count) => {
            *left = left.saturating_sub(count);
            match dearest(alloc, rom, certificate, proc) {
                Ok(way) => {
                    walk.add_acceptance(&procedure)?;
                    walk.add_way(alloc, view, &way)?;
                    walk.sum = way.sum;
                }
                Err(WayFault::NoWay) => {}
                Err(WayFault::Untimed) => return Ok(None),
                Err(WayFault::NoMemory) => return Err(AllocError),
            }
        }
        None => {
            let before = walk.add_acceptance(&procedure)?;
            walk.add_whole(alloc, view, &procedure, time.saturating_sub(before))?;
            walk.sum = time;
        }
    }
    walk.segments = folded(alloc, &walk.items)?;
    Ok(Some(walk))
}

impl ProcWalk {
    /// Adds a step that is an item for itself.
    fn add(&mut self, item: Item) -> Result<(), AllocError> {
        self.steps.push(item)?;
        self.items.push(item)?;
        Ok(())
    }

    /// Adds the acceptance of an NMI before its routine. The result is its T-states.
    fn add_acceptance(&mut self, procedure: &Proc) -> Result<u32, AllocError> {
        let before = cost_before(procedure.kind);
        if before > 0 {
            self.add(Item {
                kind: ItemKind::Accepted,
                address: procedure.entry,
                cost: before,
            })?;
        }
        Ok(before)
    }

    /// Adds the whole procedure as one item.
    fn add_whole(
        &mut self,
        alloc: Global,
        view: &View,
        procedure: &Proc,
        cost: u32,
    ) -> Result<(), AllocError> {
        let certificate = view.accepted().certificate();
        let rows = certificate.rows_of(self.proc);
        let mut found = LoopItem {
            row: certificate.rows_at(self.proc, procedure.entry).start,
            addresses: Vec::new(alloc),
            turns: None,
            callees: callees_of(alloc, view, self.proc)?,
        };
        for row in rows.start..rows.end {
            if let Some(at) = certificate.address(row) {
                if found.addresses.last() != Some(&at) {
                    found.addresses.push(at)?;
                }
            }
        }
        let number = self.loops.len();
        self.loops.push(found)?;
        self.add(Item {
            kind: ItemKind::Whole(number),
            address: procedure.entry,
            cost,
        })
    }

    /// Adds the items of a way.
    fn add_way(&mut self, alloc: Global, view: &View, way: &DearestWay) -> Result<(), AllocError> {
        let mut loops = way.loops.iter();
        for part in &way.parts {
            if part.left_by.is_some() {
                let rows = match loops.next() {
                    Some(rows) => rows.as_slice(),
                    None => &[],
                };
                self.add_loop(alloc, view, part, rows)?;
            } else {
                self.add_row(alloc, view, part)?;
            }
        }
        Ok(())
    }

    /// Adds a row: a call, or one more instruction of a run.
    fn add_row(&mut self, alloc: Global, view: &View, part: &WayPart) -> Result<(), AllocError> {
        let accepted = view.accepted();
        let Some(address) = accepted.certificate().address(part.row) else {
            return Ok(());
        };
        if let Some((callee, time)) = callee_of(alloc, accepted, part) {
            return self.add(Item {
                kind: ItemKind::Call(callee, part.cost.saturating_sub(time), time),
                address,
                cost: part.cost,
            });
        }
        let step = Item {
            kind: ItemKind::Run(address, 1),
            address,
            cost: part.cost,
        };
        let is_broken = view.survey().is_turned_to(address);
        if !is_broken && self.join(accepted, address, part.cost) {
            self.steps.push(step)?;
            return Ok(());
        }
        self.add(step)
    }

    /// Adds an instruction to the run that ends before it, if there is one.
    fn join(&mut self, accepted: &Accepted, address: u16, cost: u32) -> bool {
        let Some(item) = self.items.last_mut() else {
            return false;
        };
        let ItemKind::Run(last, count) = item.kind else {
            return false;
        };
        if address_after(accepted, last) != Some(address) {
            return false;
        }
        item.kind = ItemKind::Run(address, count.saturating_add(1));
        item.cost = item.cost.saturating_add(cost);
        true
    }

    /// Adds a loop with these rows.
    fn add_loop(
        &mut self,
        alloc: Global,
        view: &View,
        part: &WayPart,
        rows: &[RowId],
    ) -> Result<(), AllocError> {
        let accepted = view.accepted();
        let Some(address) = accepted.certificate().address(part.row) else {
            return Ok(());
        };
        let mut found = LoopItem {
            row: part.row,
            addresses: Vec::new(alloc),
            turns: part.turns,
            callees: Vec::new(alloc),
        };
        for row in rows {
            if let Some(at) = accepted.certificate().address(*row) {
                found.addresses.push(at)?;
            }
            add_callees(alloc, accepted, *row, &mut found.callees)?;
        }
        found.addresses.sort()?;
        found.addresses.dedup();
        found.callees.sort()?;
        found.callees.dedup();
        let number = self.loops.len();
        self.loops.push(found)?;
        self.add(Item {
            kind: ItemKind::Loop(number),
            address,
            cost: part.cost,
        })
    }
}

/// The procedures that a procedure calls, rising.
fn callees_of(alloc: Global, view: &View, proc: ProcId) -> Result<Vec<ProcId>, AllocError> {
    let mut callees = Vec::new(alloc);
    let mut number: ProcId = 0;
    for _ in view.accepted().certificate().procs() {
        let places = view.survey().calls().of(number);
        if places.iter().any(|place| place.caller == proc) {
            callees.push(number)?;
        }
        number = number.saturating_add(1);
    }
    Ok(callees)
}

/// The address after the instruction at an address.
fn address_after(accepted: &Accepted, address: u16) -> Option<u16> {
    let bytes = accepted.code().bytes_at(address)?;
    address.checked_add(bytes.len() as u16)
}

/// The procedure that a row calls on its way, with its time; None if the way goes on without a call.
fn callee_of(alloc: Global, accepted: &Accepted, part: &WayPart) -> Option<(ProcId, u32)> {
    let subject = Subject::of(
        accepted.rom(),
        accepted.map(),
        accepted.certificate(),
        part.row,
    )?;
    let nexts = subject.step(alloc).ok()?;
    for next in nexts.as_slice() {
        if next.kind == NextKind::Call {
            let callee = callee_at(subject.certificate, next.address)?;
            let time = callee.proc.time.unwrap_or(0);
            if time.saturating_add(u32::from(next.cost)) == part.cost {
                return Some((callee.number, time));
            }
        }
    }
    None
}

/// Adds the procedures that a row calls.
fn add_callees(
    alloc: Global,
    accepted: &Accepted,
    row: RowId,
    callees: &mut Vec<ProcId>,
) -> Result<(), AllocError> {
    let Some(subject) = Subject::of(accepted.rom(), accepted.map(), accepted.certificate(), row)
    else {
        return Ok(());
    };
    let Ok(nexts) = subject.step(alloc) else {
        return Ok(());
    };
    for next in nexts.as_slice() {
        if next.kind == NextKind::Call {
            if let Some(callee) = callee_at(subject.certificate, next.address) {
                callees.push(callee.number)?;
            }
        }
    }
    Ok(())
}
