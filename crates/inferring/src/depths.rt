// The bytes of stack that an explored ROM needs.

use analysis::{FlowFault, MAIN, NMI};
use inferred_rows::ContextPoint;
use row_worklist::Worklist;
use std::alloc::Global;
use std::collections::BTreeMap;

/// More procedures than a certificate can have: no chain of calls without a cycle is longer.
const LONGEST: u32 = 1_025;

/// The greatest depth that is told.
const DEEPEST: u32 = 65_535;

/// The bytes of an activation: those of its slots and, except for main, two for its return address.
fn bytes_of(proc: u32, slots: u16) -> u32 {
    let slots = u32::from(slots);
    if proc == MAIN {
        slots
    } else {
        slots.saturating_add(2)
    }
}

/// The most bytes of stack that main code and the NMI routine need together by the rows found, at most 65,535.
///
/// # Errors
///
/// `NoMemory` where memory was refused.
pub fn stack_depth(alloc: Global, list: &Worklist) -> Result<u32, FlowFault> {
    let mut depths: BTreeMap<u32, u32> = BTreeMap::new(alloc);
    for (number, row) in list.rows().iter() {
        let proc = ContextPoint::of(*number).proc;
        let bytes = bytes_of(proc, row.bytes);
        let before = depths.get(&proc).copied().unwrap_or(0);
        depths.insert(proc, before.max(bytes))?;
    }
    let calls = list.calls(alloc)?;
    for _ in 0..LONGEST {
        let mut changed = false;
        for (callee, number) in calls.as_slice() {
            let caller = ContextPoint::of(*number).proc;
            let slots = match list.row(*number) {
                Some(row) => row.state.shape.bytes(),
                None => 0,
            };
            let below = depths.get(callee).copied().unwrap_or(0);
            let deep = bytes_of(caller, slots).saturating_add(below).min(DEEPEST);
            let before = depths.get(&caller).copied().unwrap_or(0);
            if deep > before {
                depths.insert(caller, deep)?;
                changed = true;
            }
        }
        if !changed {
            break;
        }
    }
    let main = depths.get(&MAIN).copied().unwrap_or(0);
    let routine = depths.get(&NMI).copied().unwrap_or(0);
    Ok(main.saturating_add(routine).min(DEEPEST))
}
