// The refused rows, in the order in which they are explained.

use crate::explored::Explored;
use abs_step::Reason;
use analysis::FlowFault;
use inferred_rows::ContextPoint;
use row_worklist::Worklist;
use std::alloc::Global;
use z80_decode::Instr;

/// A refused address, and why it is refused.
#[derive(Clone, Copy)]
pub struct Refusal {
    /// The number of the first refused row there; None where the reason is one of the whole.
    pub row: Option<u64>,
    pub address: u16,
    pub reason: Reason,
}

/// How many rows without an instruction, to which computed jumps lead, come before the others.
const ASTRAY: usize = 3;

/// Whether a reason is one of the whole certificate.
fn is_of_whole(reason: Reason) -> bool {
    matches!(
        reason,
        Reason::Rom | Reason::Region | Reason::Entry | Reason::StackDepth | Reason::Budget
    )
}

/// The number of the first row at an address.
fn row_at(list: &Worklist, address: u16) -> Option<u64> {
    for (number, _) in list.rows().iter() {
        if ContextPoint::of(*number).address == address {
            return Some(*number);
        }
    }
    None
}

/// The refused rows of an analysis, one for each address, by their places. The one that the writer reports comes first,
/// and then the first to which computed jumps lead and where no instruction is.
/// A row that only sends a state which is in no row is left out: that follows from another refusal. `unshown` has the
/// rows, rising, that lead to a fact which does not follow.
///
/// # Errors
///
/// `NoMemory` where memory was refused.
pub fn refusals_of(
    alloc: Global,
    explored: &Explored,
    first: Option<(u16, Reason)>,
    unshown: &[u64],
) -> Result<Vec<Refusal>, FlowFault> {
    let list = explored.list;
    let mut found: Vec<Refusal> = Vec::new(alloc);
    if let Some((address, reason)) = first {
        let row = if is_of_whole(reason) {
            None
        } else {
            refused_at(list, address, reason)
        };
        found.push(Refusal {
            row,
            address,
            reason,
        })?;
    }
    add_jumps_astray(explored, &mut found)?;
    for (number, row) in list.rows().iter() {
        let reason = match row.reason {
            Some(reason) => reason,
            None if row.drops && !explored.lacking(alloc, *number)?.is_empty() =>
                Reason::NotCovered,
            None if unshown.binary_search(number).is_ok() => Reason::NotCovered,
            None => continue,
        };
        let address = ContextPoint::of(*number).address;
        if !found.iter().any(|other| other.address == address) {
            found.push(Refusal {
                row: Some(*number),
                address,
                reason,
            })?;
        }
    }
    Ok(found)
}

/// Adds the first rows without an instruction to which computed jumps lead: much that is refused may follow from these.
fn add_jumps_astray(explored: &Explored, found: &mut Vec<Refusal>) -> Result<(), FlowFault> {
    let before = found.len();
    for (number, row) in explored.list.rows().iter() {
        let Some(Reason::Decode(fault)) = row.reason else {
            continue;
        };
        if !is_jumped_to(explored, *number) || found.len().saturating_sub(before) >= ASTRAY {
            continue;
        }
        let address = ContextPoint::of(*number).address;
        if !found.iter().any(|other| other.address == address) {
            found.push(Refusal {
                row: Some(*number),
                address,
                reason: Reason::Decode(fault),
            })?;
        }
    }
    Ok(())
}

/// Whether a computed jump leads to a row.
fn is_jumped_to(explored: &Explored, number: u64) -> bool {
    explored.incoming(number).iter().any(|edge| {
        let from = ContextPoint::of(edge.from).address;
        matches!(explored.instr_at(from), Some(Instr::JumpTo(_)))
    })
}

/// The first row at an address that is refused for a reason, or else the first row there.
fn refused_at(list: &Worklist, address: u16, reason: Reason) -> Option<u64> {
    for (number, row) in list.rows().iter() {
        if ContextPoint::of(*number).address == address && row.reason == Some(reason) {
            return Some(*number);
        }
    }
    row_at(list, address)
}
