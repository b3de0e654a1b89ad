// The worklist solver: the rows found so far, and the places that wait.

ghost use Rattle.std.specs.Prelude.{◌≡◌, ◌+◌, ◌*◌};

use crate::facts::facts_at;
use crate::fault::FlowFault;
use crate::noted::Noted;
use crate::program_point::{MAIN, NMI, ProgramPoint, sub_of};
use crate::task::Task;
use crate::ways::ways_on;
use abs_state::AbsState;
use abs_step::{Next, NextKind, Nexts, Reason};
use board_fetch::fetch;
use cert_fields::Facts;
use cert_form::{PROC_LIMIT, ROW_LIMIT};
use std::alloc::Global;
use std::collections::{BTreeMap, BTreeSet};
use z80_moves::NMI_ADDRESS;

/// More turns than there can be: each row changes at most 10,000 times before its ranges are full, and a few times
/// after that.
const TURNS: u64 = 65_535 * 12_000;

/// The rows found so far, the called procedures, and the places that wait.
#[derive(Drop)]
pub struct Flow {
    rows: BTreeMap<u64, Noted>,
    /// The places whose successors are to be computed.
    waiting: BTreeSet<u64>,
    /// The entries of called procedures.
    entries: BTreeSet<u16>,
    /// The number of a called procedure, with the place of a call of it.
    calls: BTreeSet<u128>,
    /// The numbers of timed procedures: the NMI routine and all that it calls.
    timed: BTreeSet<u32>,
    /// The facts of rows that have others than those of their addresses.
    facts: BTreeMap<u64, Facts>,
    is_inferred: bool,
}

/// A factor that leaves room for the place of a caller.
const CALLERS: u128 = 0x1_0000_0000_0000_0000;

/// A modulus for the number of a procedure.
const PROCEDURES: u128 = 0x1_0000_0000;

/// A number for a call; calls of one procedure have adjacent numbers.
fn call_number(callee: u32, caller: u64) -> u128
    ensures { result ≡ callee * 0x10000000000000000 + caller }
{
    u128::from(callee) * CALLERS + u128::from(caller)
}

impl Flow {
    /// Computes the fixpoint from the entries of main and of the NMI routine, if there is one (docs/ANALYSIS.md,
    /// "Rows").
    ///
    /// # Errors
    ///
    /// `Limit` if there are more than 65,535 rows or 1,024 procedures; `NoMemory` where memory was refused.
    pub fn run(alloc: Global, task: &Task) -> Result<Flow, FlowFault> {
        let mut flow = Flow::begin(alloc, task)?;
        for _ in 0..TURNS {
            match flow.waiting.pop_first() {
                Some(number) => flow.go_on(alloc, task, number)?,
                None => return Ok(flow),
            }
        }
        Err(FlowFault::Limit)
    }

    /// What another analysis found: its rows with their facts, the entries of called procedures, the calls, each with
    /// the number of the called procedure and the place of a row that calls it, and the numbers of timed procedures.
    ///
    /// # Errors
    ///
    /// `NoMemory` where memory was refused.
    pub fn of(
        alloc: Global,
        rows: BTreeMap<u64, Noted>,
        facts: BTreeMap<u64, Facts>,
        entries: BTreeSet<u16>,
        calls: &[(u32, u64)],
        timed: BTreeSet<u32>,
    ) -> Result<Flow, FlowFault> {
        let mut numbers = BTreeSet::new(alloc);
        for (callee, caller) in calls {
            numbers.insert(call_number(*callee, *caller))?;
        }
        Ok(Flow {
            rows,
            waiting: BTreeSet::new(alloc),
            entries,
            calls: numbers,
            timed,
            facts,
            is_inferred: true,
        })
    }

    /// The facts of the row at the place with this number, if they are others than those of its address.
    pub fn facts_of(&self, number: u64) -> Option<&Facts> {
        self.facts.get(&number)
    }

    /// Whether another analysis found this.
    pub fn is_inferred(&self) -> bool {
        self.is_inferred
    }

    /// The rows at the entries, which wait.
    fn begin(alloc: Global, task: &Task) -> Result<Flow, FlowFault> {
        let mut flow = Flow {
            rows: BTreeMap::new(alloc),
            waiting: BTreeSet::new(alloc),
            entries: BTreeSet::new(alloc),
            calls: BTreeSet::new(alloc),
            timed: BTreeSet::new(alloc),
            facts: BTreeMap::new(alloc),
            is_inferred: false,
        };
        let main = ProgramPoint {
            proc: MAIN,
            address: 0,
            part: 0,
        };
        flow.arrive(task, main, &AbsState::of_main())?;
        if task.has_routine() {
            flow.timed.insert(NMI)?;
            let nmi = ProgramPoint {
                proc: NMI,
                address: NMI_ADDRESS,
                part: 0,
            };
            flow.arrive(task, nmi, &task.routine_state())?;
        }
        Ok(flow)
    }

    /// The rows, ordered by the numbers of their places.
    pub fn rows(&self) -> &BTreeMap<u64, Noted> {
        &self.rows
    }

    /// The row at the place with this number.
    pub fn row(&self, number: u64) -> Option<&Noted> {
        self.rows.get(&number)
    }

    /// The calls: the number of the called procedure, and the place of the row that calls it. The error is refused
    /// memory.
    pub fn calls(&self, alloc: Global) -> Result<Vec<(u32, u64)>, FlowFault> {
        let mut calls = Vec::new(alloc);
        for call in self.calls.iter() {
            calls.push((
                (*call / CALLERS % PROCEDURES) as u32,
                (*call % CALLERS) as u64,
            ))?;
        }
        Ok(calls)
    }

    /// The entries of called procedures, rising.
    pub fn entries(&self) -> &BTreeSet<u16> {
        &self.entries
    }

    /// Whether a procedure, by its number, is timed.
    pub fn is_timed(&self, proc: u32) -> bool {
        self.timed.contains(&proc)
    }

    /// The first row to which a reason applies that makes it lead nowhere, with that reason.
    pub fn first_refused(&self) -> Option<(ProgramPoint, Reason)> {
        for (number, row) in self.rows.iter() {
            if let Some(reason) = row.reason {
                return Some((ProgramPoint::of(*number), reason));
            }
        }
        None
    }

    /// A state comes to an address of a procedure. At a split, each part gets what the state has of it.
    fn arrive(
        &mut self,
        task: &Task,
        place: ProgramPoint,
        state: &AbsState,
    ) -> Result<(), FlowFault> {
        let Some(split) = task.split_at(place.address) else {
            let part = if task.is_until(place.address) {
                0
            } else {
                place.part
            };
            return self.take(task, ProgramPoint { part, ..place }, state);
        };
        let mut part = 0u16;
        for range in split.parts.as_slice() {
            part = part.saturating_add(1);
            let mut cut = state.copied();
            if cut.cut_byte(split.register, *range) {
                self.take(task, ProgramPoint { part, ..place }, &cut)?;
            }
        }
        Ok(())
    }

    /// A state comes to a place. If its row changes, it waits.
    fn take(
        &mut self,
        task: &Task,
        place: ProgramPoint,
        state: &AbsState,
    ) -> Result<(), FlowFault> {
        let number = place.number();
        let facts = facts_at(task.said().facts(), place.address);
        if let Some(row) = self.rows.get_mut(&number) {
            if !row.take(state, facts, task.cells().len()) {
                return Ok(());
            }
        } else {
            if self.rows.len() >= ROW_LIMIT {
                return Err(FlowFault::Limit);
            }
            self.rows.insert(number, Noted::first(state, facts))?;
        }
        self.waiting.insert(number)?;
        Ok(())
    }

    /// Computes the successors of a row.
    fn go_on(&mut self, alloc: Global, task: &Task, number: u64) -> Result<(), FlowFault> {
        let Some(row) = self.rows.get(&number) else {
            return Ok(());
        };
        let place = ProgramPoint::of(number);
        let state = row.state.copied();
        match ways_on(alloc, task, place, self.is_timed(place.proc), &state) {
            Ok(nexts) => {
                self.note_bytes(number, bytes_among(&state, nexts.as_slice()));
                self.note(alloc, number, None, exit_among(nexts.as_slice()))?;
                self.lead(alloc, task, place, &nexts)
            }
            Err(reason) => self.note(alloc, number, Some(reason), None),
        }
    }

    /// Stores the most bytes of stack that a row and its successors have.
    fn note_bytes(&mut self, number: u64, bytes: u16) {
        if let Some(row) = self.rows.get_mut(&number) {
            row.bytes = bytes;
        }
    }

    /// Stores why a row leads nowhere, and in which state it leaves its procedure. If the latter is new, the
    /// procedure's callers wait.
    fn note(
        &mut self,
        alloc: Global,
        number: u64,
        reason: Option<Reason>,
        exit: Option<AbsState>,
    ) -> Result<(), FlowFault> {
        let Some(row) = self.rows.get_mut(&number) else {
            return Ok(());
        };
        row.reason = reason;
        if row.leaves_as(&exit) {
            return Ok(());
        }
        row.exit = exit;
        self.wake_callers(alloc, ProgramPoint::of(number).proc)
    }

    /// Lets the rows that call a procedure wait.
    fn wake_callers(&mut self, alloc: Global, callee: u32) -> Result<(), FlowFault> {
        let mut callers = Vec::new(alloc);
        for call in self
            .calls
            .range(call_number(callee, 0)..=call_number(callee, u64::MAX))
        {
            callers.push((*call % CALLERS) as u64)?;
        }
        for caller in callers {
            self.waiting.insert(caller)?;
        }
        Ok(())
    }

    /// The states of a row's successors come to their places.
    fn lead(
        &mut self,
        alloc: Global,
        task: &Task,
        place: ProgramPoint,
        nexts: &Nexts,
    ) -> Result<(), FlowFault> {
        for next in nexts.as_slice() {
            match next.kind {
                NextKind::Jump => {
                    let to = ProgramPoint {
                        address: next.address,
                        ..place
                    };
                    self.arrive(task, to, &next.state)?;
                }
                NextKind::Call => self.call(alloc, task, place, next)?,
                NextKind::Exit => {}
            }
        }
        Ok(())
    }

    /// A row calls: its state comes to the callee's entry, and each exit of the callee comes back.
    fn call(
        &mut self,
        alloc: Global,
        task: &Task,
        place: ProgramPoint,
        next: &Next,
    ) -> Result<(), FlowFault> {
        let callee = sub_of(next.address);
        self.enter(next.address)?;
        self.calls.insert(call_number(callee, place.number()))?;
        self.time_callee(alloc, place.proc, callee)?;
        let entry = ProgramPoint {
            proc: callee,
            address: next.address,
            part: 0,
        };
        self.arrive(task, entry, &next.state.callee())?;
        let Ok((_, len)) = fetch(task.rom(), place.address) else {
            return Ok(());
        };
        let back = ProgramPoint {
            address: place.address.wrapping_add(u16::from(len)),
            ..place
        };
        for exit in self.exits_of(alloc, callee)? {
            self.arrive(task, back, &next.state.after_call(&exit))?;
        }
        Ok(())
    }

    /// Adds a called procedure.
    fn enter(&mut self, entry: u16) -> Result<(), FlowFault> {
        self.entries.insert(entry)?;
        // Main and perhaps the NMI routine come in addition to these.
        if self.entries.len() >= PROC_LIMIT {
            return Err(FlowFault::Limit);
        }
        Ok(())
    }

    /// A callee of a timed procedure is timed. If that is new, all its rows wait.
    fn time_callee(&mut self, alloc: Global, caller: u32, callee: u32) -> Result<(), FlowFault> {
        if !self.timed.contains(&caller) || self.timed.contains(&callee) {
            return Ok(());
        }
        self.timed.insert(callee)?;
        let mut rows = Vec::new(alloc);
        for (number, _) in self.rows.range(
            ProgramPoint::first_of(callee)..=ProgramPoint::last_of(callee),
        ) {
            rows.push(*number)?;
        }
        for number in rows {
            self.waiting.insert(number)?;
        }
        Ok(())
    }

    /// The states in which a procedure is left, in the order of its rows.
    fn exits_of(&self, alloc: Global, proc: u32) -> Result<Vec<AbsState>, FlowFault> {
        let mut exits = Vec::new(alloc);
        for (_, row) in self
            .rows
            .range(ProgramPoint::first_of(proc)..=ProgramPoint::last_of(proc))
        {
            if let Some(exit) = &row.exit {
                exits.push(exit.copied())?;
            }
        }
        Ok(exits)
    }
}

/// The state of the exit among the successors, if there is one.
fn exit_among(nexts: &[Next]) -> Option<AbsState> {
    for next in nexts {
        if next.kind == NextKind::Exit {
            return Some(next.state.copied());
        }
    }
    None
}

/// The most bytes of stack in a state and in those of its successors.
fn bytes_among(state: &AbsState, nexts: &[Next]) -> u16 {
    let mut most = state.shape.bytes();
    for next in nexts {
        most = most.max(next.state.shape.bytes());
    }
    most
}
