// The worklist of an inferring analysis.

ghost use Rattle.std.specs.Prelude.{◌≡◌, ◌+◌, ◌*◌};

use crate::judged_steps::{bytes_of, nexts_of, parts_told, space_after, state_at_exit, told_by};
use crate::setting::{Setting, Watch};
use abs_state::AbsState;
use abs_step::{Next, NextKind, Reason};
use affine::Space;
use analysis::{FlowFault, JudgedRow, MAIN, NMI, ProgramPoint, Task, facts_at, sub_of};
use board_fetch::fetch;
use cert_form::{PROC_LIMIT, ROW_LIMIT};
use cert_lines::Version;
use flag_letters::FlagParts;
use inferred_rows::{
    ArrivingParts, CLASSES, ContextPoint, InferredRow, JoinOutcome, NO_ROW, Thresholds, Tightening,
    are_joined, pointer_of,
};
use intervals::ByteRange;
use judged_rows::{Arriving, ArrivingKind, JudgedRows, Sent, SentState};
use loop_bounds::Effect;
use std::alloc::Global;
use std::collections::{BTreeMap, BTreeSet};
use std::rc::Rc;
use z80_moves::NMI_ADDRESS;

/// A step from a row to another.
#[derive(Clone, Copy)]
pub struct RowEdge {
    /// The number of the place that it leaves.
    pub from: u64,
    /// The number of the place that it comes to.
    pub to: u64,
    /// How each variable comes from those of the row that it leaves; constants have priority.
    pub effect: Effect,
    /// The same without that priority.
    pub moved: Effect,
    pub kind: ArrivingKind,
}

/// The rows found so far, the called procedures, and the places that wait.
#[derive(Drop)]
pub struct Worklist {
    pub(crate) rows: BTreeMap<u64, Rc<InferredRow>>,
    pub(crate) waiting: BTreeSet<u64>,
    /// The entries of called procedures.
    entries: BTreeSet<u16>,
    /// The number of a called procedure, with the place of a call of it.
    calls: BTreeSet<u128>,
    /// The states in which rows leave their procedures, by the rows' numbers.
    pub(crate) exits: BTreeMap<u64, AbsState>,
    /// The numbers of timed procedures.
    pub(crate) timed: BTreeSet<u32>,
    pub(crate) thresholds: Thresholds,
    judged: JudgedRows,
    /// Which refused row ends the analysis.
    pub(crate) watched: Watch,
}

/// A factor that leaves room for the place of a caller.
const CALLERS: u128 = 0x1_0000_0000_0000_0000;

/// A modulus for the number of a procedure.
const PROCEDURES: u128 = 0x1_0000_0000;

/// A number for a call; calls of one procedure have adjacent numbers.
fn call_number(callee: u32, caller: u64) -> u128
    ensures { result ≡ callee * 0x10000000000000000 + caller }
{
    u128::from(callee) * CALLERS + u128::from(caller)
}

impl Worklist {
    /// Nothing found yet, and nothing watched.
    ///
    /// # Errors
    ///
    /// `NoMemory` where memory was refused.
    pub fn empty(
        alloc: Global,
        setting: Setting,
        judged: JudgedRows,
    ) -> Result<Box<Worklist>, FlowFault> {
        let thresholds = Thresholds::of(alloc, setting.task.map(), setting.task.said().region())?;
        let list = Worklist {
            rows: BTreeMap::new(alloc),
            waiting: BTreeSet::new(alloc),
            entries: BTreeSet::new(alloc),
            calls: BTreeSet::new(alloc),
            exits: BTreeMap::new(alloc),
            timed: BTreeSet::new(alloc),
            thresholds,
            judged,
            watched: Watch::Nothing,
        };
        Ok(Box::new(alloc, list)?)
    }

    /// The rows at the entries of main and of the NMI routine, if there is one. They wait.
    ///
    /// # Errors
    ///
    /// `Limit` if there are more than 65,535 rows; `NoMemory` where memory was refused.
    pub fn begin(
        alloc: Global,
        setting: Setting,
        judged: JudgedRows,
    ) -> Result<Box<Worklist>, FlowFault> {
        let mut list = Worklist::empty(alloc, setting, judged)?;
        list.begin_entries(alloc, setting)?;
        Ok(list)
    }

    /// The states at the entries of main and of the NMI routine come to their places.
    ///
    /// # Errors
    ///
    /// `Limit` if there are more than 65,535 rows; `NoMemory` where memory was refused.
    pub fn begin_entries(&mut self, alloc: Global, setting: Setting) -> Result<(), FlowFault> {
        let state = AbsState::of_main();
        let main = entering(ContextPoint::at(MAIN, 0), &state);
        let untold = ArrivingParts::none();
        self.take(alloc, setting, &main, &Space::full(), &untold, true)?;
        if setting.task.has_routine() {
            self.timed.insert(NMI)?;
            let state = setting.task.routine_state();
            let nmi = entering(ContextPoint::at(NMI, NMI_ADDRESS), &state);
            self.take(alloc, setting, &nmi, &Space::full(), &untold, true)?;
        }
        Ok(())
    }

    /// Takes over the calls of another analysis by rows that are not lost, and the entries that they call.
    ///
    /// # Errors
    ///
    /// `NoMemory` where memory was refused.
    pub fn keep_calls(&mut self, before: &Worklist, lost: &BTreeSet<u64>) -> Result<(), FlowFault> {
        for call in before.calls.iter() {
            let caller = (*call % CALLERS) as u64;
            if !lost.contains(&caller) {
                self.calls.insert(*call)?;
                let callee = (*call / CALLERS % PROCEDURES) as u32;
                let entry = callee.saturating_sub(sub_of(0)).min(0xFFFF) as u16;
                self.entries.insert(entry)?;
            }
        }
        Ok(())
    }

    /// The rows, ordered by the numbers of their places.
    pub fn rows(&self) -> &BTreeMap<u64, Rc<InferredRow>> {
        &self.rows
    }

    /// The row at the place with this number.
    pub fn row(&self, number: u64) -> Option<&InferredRow> {
        match self.rows.get(&number) {
            Some(row) => Some(row.as_ref()),
            None => None,
        }
    }

    /// Whether a procedure, by its number, is timed.
    pub fn is_timed(&self, proc: u32) -> bool {
        self.timed.contains(&proc)
    }

    /// The entries of called procedures, rising.
    pub fn entries(&self) -> &BTreeSet<u16> {
        &self.entries
    }

    /// The places of the rows that call a procedure.
    ///
    /// # Errors
    ///
    /// `NoMemory` where memory was refused.
    pub fn callers_of(&self, alloc: Global, callee: u32) -> Result<Vec<u64>, FlowFault> {
        let mut callers = Vec::new(alloc);
        for call in self
            .calls
            .range(call_number(callee, 0)..=call_number(callee, u64::MAX))
        {
            callers.push((*call % CALLERS) as u64)?;
        }
        Ok(callers)
    }

    /// The calls: the number of the called procedure, and the place of a row that calls it.
    ///
    /// # Errors
    ///
    /// `NoMemory` where memory was refused.
    pub fn calls(&self, alloc: Global) -> Result<Vec<(u32, u64)>, FlowFault> {
        let mut calls = Vec::new(alloc);
        for call in self.calls.iter() {
            calls.push((
                (*call / CALLERS % PROCEDURES) as u32,
                (*call % CALLERS) as u64,
            ))?;
        }
        Ok(calls)
    }

    /// A state comes to a place, and `told` says what it tells of the flags. If its row changes, it waits. `widens`
    /// says whether a bound that moved often is widened. The result is whether some row has the state.
    ///
    /// # Errors
    ///
    /// `Limit` if there are more than 65,535 rows; `NoMemory` where memory was refused.
    pub fn take(
        &mut self,
        alloc: Global,
        setting: Setting,
        arriving: &Arriving,
        space: &Space,
        told: &ArrivingParts,
        widens: bool,
    ) -> Result<bool, FlowFault> {
        for class in 0..CLASSES {
            let number = ContextPoint {
                class,
                ..arriving.to
            }
            .number();
            match self.add_to_row(alloc, setting, number, arriving, space, told, widens)? {
                Some(JoinOutcome::Same) => return Ok(true),
                Some(JoinOutcome::Changed) => {
                    self.waiting.insert(number)?;
                    return Ok(true);
                }
                Some(JoinOutcome::Unjoined) => {}
                None => {
                    self.begin_row(alloc, setting, number, arriving, space, told)?;
                    return Ok(true);
                }
            }
        }
        Ok(false)
    }

    /// Adds the row of the first state that comes to a place.
    fn begin_row(
        &mut self,
        alloc: Global,
        setting: Setting,
        number: u64,
        arriving: &Arriving,
        space: &Space,
        told: &ArrivingParts,
    ) -> Result<(), FlowFault> {
        if self.rows.len() >= ROW_LIMIT {
            return Err(FlowFault::Limit);
        }
        let mut pointer = None;
        if let Ok((instr, _)) = fetch(setting.task.rom(), arriving.to.address) {
            self.thresholds.add(&instr)?;
            pointer = pointer_of(&instr);
        }
        let by = tightening(setting, number, arriving.to.address, &self.thresholds);
        let row = if setting.manner.relates {
            InferredRow::first(alloc, arriving.state(), space, told, pointer, &by)?
        } else {
            let given = ArrivingParts {
                parts: setting.guide.parts_of(number),
                from: NO_ROW,
            };
            InferredRow::first(alloc, arriving.state(), space, &given, pointer, &by)?
        };
        self.rows.insert(number, Rc::new(alloc, row)?)?;
        self.waiting.insert(number)?;
        Ok(())
    }

    /// Joins a state to a row; None if there is no such row. A row that other analyses have too is copied only if it
    /// changes.
    fn add_to_row(
        &mut self,
        alloc: Global,
        setting: Setting,
        number: u64,
        arriving: &Arriving,
        space: &Space,
        told: &ArrivingParts,
        widens: bool,
    ) -> Result<Option<JoinOutcome>, FlowFault> {
        let by = tightening(setting, number, arriving.to.address, &self.thresholds);
        let Some(row) = self.rows.get_mut(&number) else {
            return Ok(None);
        };
        let state = arriving.state();
        let is_shared = Rc::strong_count(row) != 1;
        if is_shared && widens && row.has_all(state, space, told, &by) {
            return Ok(Some(JoinOutcome::Same));
        }
        let row = own(alloc, row)?;
        let outcome = if widens {
            row.take(state, space, told, &by)?
        } else {
            row.add(state, space, told, &by)?
        };
        Ok(Some(outcome))
    }

    /// Visits a row: its successors come to their places, and what was found of it is noted.
    ///
    /// # Errors
    ///
    /// `Limit` if there are more than 65,535 rows or 1,024 procedures, or the row is watched and refused; `NoMemory`
    /// where memory was refused.
    pub fn visit(&mut self, alloc: Global, setting: Setting, number: u64) -> Result<(), FlowFault> {
        let Some(row) = self.rows.get(&number) else {
            return Ok(());
        };
        let row = row.clone()?;
        let point = ContextPoint::of(number);
        let judged = self.judged_row_at(alloc, setting.task, number, row.as_ref())?;
        if self.watched.is_at(point.address) && judged.reason.is_some() {
            return Err(FlowFault::Limit);
        }
        let drops = self.lead(alloc, setting, number, row.as_ref(), judged.as_ref())?;
        let found = Findings {
            reason: judged.reason,
            bytes: bytes_of(setting.manner, row.as_ref(), judged.as_ref()),
            drops,
        };
        self.note(alloc, number, found)
    }

    /// A judged row leads to its successors. The result is whether a state to which it leads is in no part of a split,
    /// or in no row.
    fn lead(
        &mut self,
        alloc: Global,
        setting: Setting,
        number: u64,
        row: &InferredRow,
        judged: &JudgedRow,
    ) -> Result<bool, FlowFault> {
        let point = ContextPoint::of(number);
        self.note_calls(alloc, setting, point, judged)?;
        let sent = self.sent_by(alloc, setting, point, judged)?;
        if self.leave(number, state_at_exit(setting.manner, judged))? {
            for caller in self.callers_of(alloc, point.proc)? {
                self.waiting.insert(caller)?;
            }
        }
        let mut drops = !sent.lacking.is_empty();
        let step = told_by(setting, number, row, judged);
        for arriving in sent.states.as_slice() {
            let space = space_after(setting.manner, &row.space, &step, arriving);
            let told = parts_told(number, row, &step, arriving);
            if !self.take(alloc, setting, arriving, &space, &told, true)? {
                drops = true;
            }
        }
        Ok(drops)
    }

    /// Judges a state with flag parts at a place.
    ///
    /// # Errors
    ///
    /// `NoMemory` where memory was refused.
    pub fn judged_at(
        &self,
        alloc: Global,
        task: &Task,
        place: ProgramPoint,
        state: &AbsState,
        parts: &FlagParts,
    ) -> Result<Rc<JudgedRow>, FlowFault> {
        let timed = self.is_timed(place.proc);
        self.judged.judged(alloc, task, place, timed, state, parts)
    }

    /// Judges a row, with its flag parts.
    ///
    /// # Errors
    ///
    /// `NoMemory` where memory was refused.
    pub fn judged_row_at(
        &self,
        alloc: Global,
        task: &Task,
        number: u64,
        row: &InferredRow,
    ) -> Result<Rc<JudgedRow>, FlowFault> {
        let place = ContextPoint::of(number).plain();
        self.judged_at(alloc, task, place, &row.state, &row.parts)
    }

    /// The rows that were judged, for other analyses of the ROM on the same map.
    pub fn judged_rows(&self) -> &JudgedRows {
        &self.judged
    }

    /// What a judged row sends on.
    ///
    /// # Errors
    ///
    /// `NoMemory` where memory was refused.
    pub fn sent_by<'j>(
        &self,
        alloc: Global,
        setting: Setting,
        point: ContextPoint,
        judged: &'j JudgedRow,
    ) -> Result<Sent<'j>, FlowFault> {
        let mut sent = Sent::none(alloc);
        for next in nexts_of(setting.manner, judged) {
            sent.add_next(
                alloc,
                setting.task,
                setting.guide,
                point,
                next,
                judged.restarts,
            )?;
            if next.kind == NextKind::Call {
                self.send_call(alloc, setting, point, next, &mut sent)?;
            }
        }
        Ok(sent)
    }

    /// Adds what a call sends: to the callee's entry, and from each of its exits back.
    fn send_call(
        &self,
        alloc: Global,
        setting: Setting,
        point: ContextPoint,
        next: &Next,
        sent: &mut Sent<'_>,
    ) -> Result<(), FlowFault> {
        sent.add_call(alloc, setting.task, setting.guide, point, next)?;
        let Ok((_, len)) = fetch(setting.task.rom(), point.address) else {
            return Ok(());
        };
        let after = point.address.wrapping_add(u16::from(len));
        let callee = sub_of(next.address);
        for (_, exit) in self.exits.range(
            ContextPoint::first_of(callee)..=ContextPoint::last_of(callee),
        ) {
            sent.add_return(alloc, setting.task, setting.guide, point, after, next, exit)?;
        }
        Ok(())
    }

    /// Notes the calls of a judged row.
    ///
    /// # Errors
    ///
    /// `Limit` if there are more than 1,024 procedures; `NoMemory` where memory was refused.
    pub fn note_calls(
        &mut self,
        alloc: Global,
        setting: Setting,
        point: ContextPoint,
        judged: &JudgedRow,
    ) -> Result<(), FlowFault> {
        for next in nexts_of(setting.manner, judged) {
            if next.kind == NextKind::Call {
                self.call(alloc, point, next)?;
            }
        }
        Ok(())
    }

    /// Notes a call.
    fn call(&mut self, alloc: Global, point: ContextPoint, next: &Next) -> Result<(), FlowFault> {
        let callee = sub_of(next.address);
        self.entries.insert(next.address)?;
        if self.entries.len() >= PROC_LIMIT {
            return Err(FlowFault::Limit);
        }
        self.calls.insert(call_number(callee, point.number()))?;
        if !self.timed.contains(&point.proc) || self.timed.contains(&callee) {
            return Ok(());
        }
        self.timed.insert(callee)?;
        let mut rows = Vec::new(alloc);
        for (number, _) in self.rows.range(
            ContextPoint::first_of(callee)..=ContextPoint::last_of(callee),
        ) {
            rows.push(*number)?;
        }
        for number in rows {
            self.waiting.insert(number)?;
        }
        Ok(())
    }

    /// Notes what was found of a row.
    ///
    /// # Errors
    ///
    /// `NoMemory` where memory was refused.
    pub fn note(&mut self, alloc: Global, number: u64, found: Findings) -> Result<(), FlowFault> {
        let Some(row) = self.rows.get_mut(&number) else {
            return Ok(());
        };
        let is_noted = row.reason == found.reason
            && row.bytes == found.bytes
            && row.drops == found.drops;
        if is_noted {
            return Ok(());
        }
        let row = own(alloc, row)?;
        row.reason = found.reason;
        row.bytes = found.bytes;
        row.drops = found.drops;
        Ok(())
    }

    /// Notes the state in which a row leaves its procedure, if it does. The result is whether it changed.
    ///
    /// # Errors
    ///
    /// `NoMemory` where memory was refused.
    pub fn leave(&mut self, number: u64, exit: Option<&AbsState>) -> Result<bool, FlowFault> {
        let same = match (self.exits.get(&number), exit) {
            (None, None) => true,
            (Some(old), Some(new)) => old.covers(new) && new.covers(old),
            _ => false,
        };
        if same {
            return Ok(false);
        }
        match exit {
            Some(exit) => {
                self.exits.insert(number, exit.copied())?;
            }
            None => {
                self.exits.remove(&number);
            }
        }
        Ok(true)
    }

    /// The states in which a procedure is left, in the order of its rows.
    ///
    /// # Errors
    ///
    /// `NoMemory` where memory was refused.
    pub fn exits_of(&self, alloc: Global, proc: u32) -> Result<Vec<AbsState>, FlowFault> {
        let mut exits = Vec::new(alloc);
        for (_, exit) in self
            .exits
            .range(ContextPoint::first_of(proc)..=ContextPoint::last_of(proc))
        {
            exits.push(exit.copied())?;
        }
        Ok(exits)
    }

    /// The state in which the row at the place with this number leaves its procedure, if it does.
    pub fn exit_at(&self, number: u64) -> Option<&AbsState> {
        self.exits.get(&number)
    }

    /// The entries of called procedures, and the numbers of timed ones.
    pub fn into_procedures(self) -> (BTreeSet<u16>, BTreeSet<u32>) {
        (self.entries, self.timed)
    }

    /// The addresses of splits to which a row sends a state that is not in parts as a whole, with the register's range.
    ///
    /// # Errors
    ///
    /// `NoMemory` where memory was refused.
    pub fn lacking(
        &self,
        alloc: Global,
        setting: Setting,
        number: u64,
    ) -> Result<Vec<(u16, ByteRange)>, FlowFault> {
        let Some(row) = self.rows.get(&number) else {
            return Ok(Vec::new(alloc));
        };
        let point = ContextPoint::of(number);
        let judged = self.judged_row_at(alloc, setting.task, number, row.as_ref())?;
        let Sent { lacking, .. } = self.sent_by(alloc, setting, point, judged.as_ref())?;
        Ok(lacking)
    }

    /// The steps between the rows.
    ///
    /// # Errors
    ///
    /// `NoMemory` where memory was refused.
    pub fn edges(&self, alloc: Global, setting: Setting) -> Result<Vec<RowEdge>, FlowFault> {
        let mut edges = Vec::new(alloc);
        for (number, row) in self.rows.iter() {
            let point = ContextPoint::of(*number);
            let judged = self.judged_row_at(alloc, setting.task, *number, row.as_ref())?;
            let sent = self.sent_by(alloc, setting, point, judged.as_ref())?;
            for arriving in sent.states.as_slice() {
                if let Some(to) = self.number_of(setting.task, arriving) {
                    edges.push(RowEdge {
                        from: *number,
                        to,
                        effect: arriving.effect,
                        moved: arriving.moved,
                        kind: arriving.kind,
                    })?;
                }
            }
        }
        Ok(edges)
    }

    /// The number of the place whose row has a state that arrives.
    pub fn number_of(&self, task: &Task, arriving: &Arriving) -> Option<u64> {
        for class in 0..CLASSES {
            let number = ContextPoint {
                class,
                ..arriving.to
            }
            .number();
            let row = self.rows.get(&number)?;
            if are_joined(&row.state, arriving.state(), task.cells().len()) {
                return Some(number);
            }
        }
        None
    }
}

/// What tightens a row.
fn tightening<'t>(
    setting: Setting<'t>,
    number: u64,
    address: u16,
    thresholds: &'t Thresholds,
) -> Tightening<'t> {
    Tightening {
        said: facts_at(setting.task.said().facts(), address),
        ranges: setting.guide.ranges_at(address),
        part: ContextPoint::of(number).part,
        found: setting.guide.facts_of(number),
        relates: setting.manner.relates,
        has_flag_facts: setting.task.version() != Version::Three,
        thresholds,
        cells: setting.task.cells().len(),
    }
}

/// A copy of a row. A function of its own, since room for a row is cleared when it begins.
#[inline(never)]
fn copy_of(alloc: Global, row: &InferredRow) -> Result<Rc<InferredRow>, FlowFault> {
    Ok(Rc::new(alloc, row.copied(alloc)?)?)
}

/// A row to write to. One that other analyses have too is copied first.
fn own(alloc: Global, row: &mut Rc<InferredRow>) -> Result<&mut InferredRow, FlowFault> {
    if Rc::strong_count(row) != 1 {
        *row = copy_of(alloc, row.as_ref())?;
    }
    match Rc::get_mut(row) {
        Some(row) => Ok(row),
        None => Err(FlowFault::NoMemory),
    }
}

/// What is noted of a row: the lowest reason against it, the bytes of slots, and whether it drops a state.
#[derive(Clone, Copy)]
pub struct Findings {
    pub reason: Option<Reason>,
    pub bytes: u16,
    pub drops: bool,
}

/// A state at an entry.
fn entering<'s>(to: ContextPoint, state: &'s AbsState) -> Arriving<'s> {
    Arriving {
        to,
        state: SentState::Lent(state),
        effect: Effect::unchanged(),
        moved: Effect::unchanged(),
        kind: ArrivingKind::Jump,
    }
}
