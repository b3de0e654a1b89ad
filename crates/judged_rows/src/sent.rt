// The states that a judged row sends to other rows: by jumps, to the entries of callees, and back from their exits.

use abs_draft::settled;
use abs_state::AbsState;
use abs_step::{Next, NextKind};
use analysis::{FlowFault, MAIN, Task, sub_of};
use annotations::SplitNote;
use check_steps::{effect_back, restarted};
use inferred_rows::{ContextPoint, Guide};
use intervals::ByteRange;
use loop_bounds::Effect;
use std::alloc::Global;

/// Why a state arrives.
#[derive(Clone, Copy, PartialEq, Eq)]
pub enum ArrivingKind {
    /// A step within a procedure.
    Jump,
    /// A call: it comes to the callee's entry.
    Call,
    /// A return: it comes back from an exit of a callee.
    Return,
}

/// A state that is sent on: a successor's own one, or one that was made of it.
#[derive(Drop)]
pub enum SentState<'j> {
    Lent(&'j AbsState),
    Made(Box<AbsState>),
}

/// A state that arrives at a place. Its class is not known yet.
#[derive(Drop)]
pub struct Arriving<'j> {
    pub to: ContextPoint,
    pub state: SentState<'j>,
    /// How each variable comes from the variables of the row that it left; constants have priority.
    pub effect: Effect,
    /// The same without that priority.
    pub moved: Effect,
    pub kind: ArrivingKind,
}

/// A place, and what comes there beside a state.
#[derive(Clone, Copy)]
struct Sending<'e> {
    to: ContextPoint,
    effect: &'e Effect,
    moved: &'e Effect,
    kind: ArrivingKind,
}

impl<'j> Arriving<'j> {
    /// The state itself.
    pub fn state(&self) -> &AbsState {
        match &self.state {
            SentState::Lent(state) => state,
            SentState::Made(state) => state.as_ref(),
        }
    }
}

/// The states that a judged row sends on.
#[derive(Drop)]
pub struct Sent<'j> {
    pub states: Vec<Arriving<'j>>,
    /// The addresses of splits to which a state goes that is not in parts as a whole, with the register's range.
    pub lacking: Vec<(u16, ByteRange)>,
}

impl<'j> Sent<'j> {
    /// No states.
    pub fn none(alloc: Global) -> Sent<'j> {
        Sent {
            states: Vec::new(alloc),
            lacking: Vec::new(alloc),
        }
    }

    /// Adds the state of a jump from a place to an address of its procedure; of a restart, to an address of main.
    fn add_jump(
        &mut self,
        alloc: Global,
        task: &Task,
        guide: &Guide,
        from: ContextPoint,
        next: &'j Next,
        restarts: bool,
    ) -> Result<(), FlowFault> {
        if restarts {
            return self.add_restart(alloc, task, next);
        }
        let to = ContextPoint {
            address: next.address,
            context: guide.context_of_jump(from.address, next.address, from.context),
            ..from
        };
        let sending = jump_to(to, next);
        match task.split_at(next.address) {
            Some(split) => self.add_parts(alloc, split, sending, &next.state),
            None => {
                let state = SentState::Lent(&next.state);
                self.push(within_part(task, sending), state)
            }
        }
    }

    /// Adds the state of a restart: it goes on in main, without words on the stack.
    fn add_restart(&mut self, alloc: Global, task: &Task, next: &Next) -> Result<(), FlowFault> {
        let state = Box::new(alloc, restarted(&next.state))?;
        let to = ContextPoint::at(MAIN, next.address);
        self.add_made(alloc, task, jump_to(to, next), state)
    }

    /// Adds the state of a call at the callee's entry.
    ///
    /// # Errors
    ///
    /// `NoMemory` where memory was refused.
    pub fn add_call(
        &mut self,
        alloc: Global,
        task: &Task,
        guide: &Guide,
        from: ContextPoint,
        next: &Next,
    ) -> Result<(), FlowFault> {
        let to = ContextPoint {
            context: guide.context_of_call(from.address),
            ..ContextPoint::at(sub_of(next.address), next.address)
        };
        let state = Box::new(alloc, next.state.callee())?;
        let sending = Sending {
            to,
            effect: &next.effect,
            moved: &next.moved,
            kind: ArrivingKind::Call,
        };
        self.add_made(alloc, task, sending, state)
    }

    /// Adds the state of a call that comes back from an exit of the callee, at the address after the call.
    ///
    /// # Errors
    ///
    /// `NoMemory` where memory was refused.
    pub fn add_return(
        &mut self,
        alloc: Global,
        task: &Task,
        guide: &Guide,
        from: ContextPoint,
        after: u16,
        next: &Next,
        exit: &AbsState,
    ) -> Result<(), FlowFault> {
        let state = Box::new(alloc, next.state.after_call(exit))?;
        let moved = effect_back(task.version(), &next.moved, exit);
        let effect = settled(
            &effect_back(task.version(), &next.effect, exit),
            state.as_ref(),
        );
        let to = ContextPoint {
            address: after,
            context: guide.context_of_jump(from.address, after, from.context),
            ..from
        };
        let sending = Sending {
            to,
            effect: &effect,
            moved: &moved,
            kind: ArrivingKind::Return,
        };
        self.add_made(alloc, task, sending, state)
    }

    /// Adds a state that was made of a successor's.
    fn add_made(
        &mut self,
        alloc: Global,
        task: &Task,
        sending: Sending,
        state: Box<AbsState>,
    ) -> Result<(), FlowFault> {
        match task.split_at(sending.to.address) {
            Some(split) => self.add_parts(alloc, split, sending, state.as_ref()),
            None => self.push(within_part(task, sending), SentState::Made(state)),
        }
    }

    /// Adds a state that arrives at a split, to each part that it has something of, cut to it.
    fn add_parts(
        &mut self,
        alloc: Global,
        split: &SplitNote,
        sending: Sending,
        state: &AbsState,
    ) -> Result<(), FlowFault> {
        let mut part = 0u16;
        for range in split.parts.as_slice() {
            part = part.saturating_add(1);
            if let Some(cut) = cut_to(alloc, state, split, *range)? {
                let to = ContextPoint { part, ..sending.to };
                self.push(Sending { to, ..sending }, SentState::Made(cut))?;
            }
        }
        let range = state.byte(split.register);
        if !are_all_in_parts(split, range) {
            self.lacking.push((split.at, range))?;
        }
        Ok(())
    }

    fn push(&mut self, sending: Sending, state: SentState<'j>) -> Result<(), FlowFault> {
        self.states.push(Arriving {
            to: sending.to,
            state,
            effect: *sending.effect,
            moved: *sending.moved,
            kind: sending.kind,
        })?;
        Ok(())
    }

    /// Adds the states of a successor that is no call. `restarts` says whether the row is a restart.
    ///
    /// # Errors
    ///
    /// `NoMemory` where memory was refused.
    pub fn add_next(
        &mut self,
        alloc: Global,
        task: &Task,
        guide: &Guide,
        from: ContextPoint,
        next: &'j Next,
        restarts: bool,
    ) -> Result<(), FlowFault> {
        match next.kind {
            NextKind::Jump => self.add_jump(alloc, task, guide, from, next, restarts),
            NextKind::Call | NextKind::Exit => Ok(()),
        }
    }
}

/// A jump to a place by a successor.
fn jump_to<'e>(to: ContextPoint, next: &'e Next) -> Sending<'e> {
    Sending {
        to,
        effect: &next.effect,
        moved: &next.moved,
        kind: ArrivingKind::Jump,
    }
}

/// What is sent to an address without a split: where a split ends, to no part.
fn within_part<'e>(task: &Task, sending: Sending<'e>) -> Sending<'e> {
    if !task.is_until(sending.to.address) {
        return sending;
    }
    let to = ContextPoint {
        part: 0,
        ..sending.to
    };
    Sending { to, ..sending }
}

/// A copy of a state cut to a range of a split's register; None if nothing is left.
fn cut_to(
    alloc: Global,
    state: &AbsState,
    split: &SplitNote,
    range: ByteRange,
) -> Result<Option<Box<AbsState>>, FlowFault> {
    if !may_meet(state.byte(split.register), range) {
        return Ok(None);
    }
    let mut cut = state.copied();
    if cut.cut_byte(split.register, range) {
        Ok(Some(Box::new(alloc, cut)?))
    } else {
        Ok(None)
    }
}

/// Whether two ranges have a byte in common.
fn may_meet(one: ByteRange, other: ByteRange) -> bool {
    one.low() <= other.high() && other.low() <= one.high()
}

/// Whether each value of a range of a split's register is in a part.
fn are_all_in_parts(split: &SplitNote, range: ByteRange) -> bool {
    for value in range.low()..=range.high() {
        if !split.parts.iter().any(|part| part.contains(value)) {
            return false;
        }
    }
    true
}
