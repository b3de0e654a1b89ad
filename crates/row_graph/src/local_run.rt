// Runs of a procedure from one state.

use abs_state::AbsState;
use abs_step::NextKind;
use analysis::{FlowFault, Task, joined, sub_of};
use board_fetch::fetch;
use derived_parts::common_parts;
use flag_letters::FlagParts;
use inferred_rows::ContextPoint;
use intervals::Domain;
use row_worklist::{Worklist, parts_by, told_at};
use std::alloc::Global;
use std::collections::{BTreeMap, BTreeSet};
use std::rc::Rc;

/// After how many joins an address takes no more states.
const JOINS: u16 = 24;

/// What comes to an address: a state, and what is known of the flags there.
#[derive(Drop)]
pub struct LocalRow {
    pub state: AbsState,
    pub parts: FlagParts,
}

impl LocalRow {
    /// A state, of whose flags nothing more is known.
    pub fn of(state: &AbsState) -> LocalRow {
        LocalRow {
            state: state.copied(),
            parts: FlagParts::empty(),
        }
    }
}

/// A run of a procedure from one state: the states that come to each address, joined.
#[derive(Drop)]
pub struct LocalRun<'w> {
    task: &'w Task<'w>,
    /// The analysis whose exits of callees count.
    list: &'w Worklist,
    proc: u32,
    rows: BTreeMap<u16, Rc<LocalRow>>,
    joins: BTreeMap<u16, u16>,
    waiting: BTreeSet<u16>,
}

impl<'w> LocalRun<'w> {
    /// A run that has not begun.
    pub fn new(alloc: Global, task: &'w Task<'w>, list: &'w Worklist, proc: u32) -> LocalRun<'w> {
        LocalRun {
            task,
            list,
            proc,
            rows: BTreeMap::new(alloc),
            joins: BTreeMap::new(alloc),
            waiting: BTreeSet::new(alloc),
        }
    }

    /// What came to an address, joined, if anything did.
    pub fn row(&self, address: u16) -> Option<&LocalRow> {
        match self.rows.get(&address) {
            Some(row) => Some(row.as_ref()),
            None => None,
        }
    }

    /// A state comes to an address.
    ///
    /// # Errors
    ///
    /// `NoMemory` where memory was refused.
    pub fn arrive(
        &mut self,
        alloc: Global,
        address: u16,
        arriving: LocalRow,
    ) -> Result<(), FlowFault> {
        let arrived = match self.rows.get(&address) {
            Some(row) => match self.joined_at(address, row.as_ref(), &arriving) {
                Some(both) => Rc::new(alloc, both)?,
                None => return Ok(()),
            },
            None => Rc::new(alloc, arriving)?,
        };
        if self.rows.insert(address, arrived)?.is_some() {
            let joins = self.joins.get(&address).copied().unwrap_or(0);
            self.joins.insert(address, joins.saturating_add(1))?;
        }
        self.waiting.insert(address)?;
        Ok(())
    }

    /// The join of what is at an address and what comes there; None if that changes nothing, or the address takes no
    /// more.
    fn joined_at(&self, address: u16, row: &LocalRow, arriving: &LocalRow) -> Option<LocalRow> {
        let (one, other) = (&row.state, &arriving.state);
        let parts = common_parts(&row.parts, &arriving.parts);
        let is_had = one.mode == other.mode
            && one.armed == other.armed
            && one.covers(other)
            && parts == row.parts;
        if is_had || self.joins.get(&address).copied().unwrap_or(0) >= JOINS {
            return None;
        }
        let state = joined(one, other, self.task.cells().len())?;
        if one.covers(&state) && parts == row.parts {
            None
        } else {
            Some(LocalRow { state, parts })
        }
    }

    /// The lowest waiting address, which waits no more.
    pub fn take_waiting(&mut self) -> Option<u16> {
        self.waiting.pop_first()
    }

    /// What an address of the run sends to addresses of its procedure.
    ///
    /// # Errors
    ///
    /// `NoMemory` where memory was refused.
    pub fn sent(&self, alloc: Global, address: u16) -> Result<Vec<(u16, LocalRow)>, FlowFault> {
        let mut sent = Vec::new(alloc);
        if let Some(row) = self.rows.get(&address) {
            let row = row.as_ref();
            let place = ContextPoint::at(self.proc, address);
            send(
                alloc, self.task, self.list, place, &row.state, &row.parts, &mut sent,
            )?;
        }
        Ok(sent)
    }

    /// What an address sends to addresses of the procedure comes there.
    ///
    /// # Errors
    ///
    /// `NoMemory` where memory was refused.
    pub fn go_on(&mut self, alloc: Global, address: u16) -> Result<(), FlowFault> {
        for (to, row) in self.sent(alloc, address)? {
            self.arrive(alloc, to, row)?;
        }
        Ok(())
    }

    /// Goes on until no address waits, but not beyond `goal`. The result is whether it came to its end within `most`
    /// steps.
    ///
    /// # Errors
    ///
    /// `NoMemory` where memory was refused.
    pub fn run_to(&mut self, alloc: Global, goal: u16, most: u32) -> Result<bool, FlowFault> {
        for _ in 0..most {
            let Some(address) = self.take_waiting() else {
                return Ok(true);
            };
            if address == goal {
                continue;
            }
            self.go_on(alloc, address)?;
        }
        Ok(false)
    }
}

/// Adds what a state with flag parts at a place sends to addresses of its procedure. After a call these are the states
/// from each exit of the callee. A restart leaves the procedure.
///
/// # Errors
///
/// `NoMemory` where memory was refused.
pub(crate) fn send(
    alloc: Global,
    task: &Task,
    list: &Worklist,
    place: ContextPoint,
    state: &AbsState,
    parts: &FlagParts,
    sent: &mut Vec<(u16, LocalRow)>,
) -> Result<(), FlowFault> {
    let address = place.address;
    let judged = list.judged_at(alloc, task, place.plain(), state, parts)?;
    let judged = judged.as_ref();
    let Some(nexts) = &judged.nexts else {
        return Ok(());
    };
    let told = told_at(task, address, judged.operand, state, parts);
    for next in nexts.as_slice() {
        match next.kind {
            NextKind::Jump if judged.restarts => {}
            NextKind::Jump => {
                let parts = parts_by(&[], state, &told, &next.effect, &next.moved, &next.state);
                let row = LocalRow {
                    state: next.state.copied(),
                    parts,
                };
                sent.push((next.address, row))?;
            }
            NextKind::Call => {
                let Ok((_, len)) = fetch(task.rom(), address) else {
                    continue;
                };
                let after = address.wrapping_add(u16::from(len));
                let callee = sub_of(next.address);
                for exit in list.exits_of(alloc, callee)? {
                    sent.push((after, LocalRow::of(&next.state.after_call(&exit))))?;
                }
            }
            NextKind::Exit => {}
        }
    }
    Ok(())
}
