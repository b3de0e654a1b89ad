// A row as the analysis knows it so far.

use crate::facts::tighten_by;
use crate::joining::{grown, joined, widest};
use abs_state::AbsState;
use abs_step::Reason;
use annotations::FactNote;
use flag_letters::FlagParts;

/// After how many joins that changed a row its bounds are widened.
const JOINS: u16 = 8;

/// After how many changes of a row its ranges become full, so that the analysis ends (docs/DECISIONS.md).
const CHANGES: u16 = 10_000;

/// A row as the analysis knows it so far.
#[derive(Drop)]
pub struct Noted {
    pub state: AbsState,
    /// The state in which the row leaves its procedure, if it does.
    pub exit: Option<AbsState>,
    /// The reason that makes the row lead nowhere, if one applies.
    pub reason: Option<Reason>,
    /// The most bytes of slots on the stack at the row and its successors, 0 to 128; the return address is not counted.
    pub bytes: u16,
    /// What is known of the flags at the row; nothing before version 3.
    pub parts: FlagParts,
    joins: u16,
}

impl Noted {
    /// The row of the first state that comes, tightened by the facts of its address.
    pub(crate) fn first(state: &AbsState, facts: &[FactNote]) -> Noted {
        let mut state = state.copied();
        tighten_by(facts, &mut state);
        Noted {
            state,
            exit: None,
            reason: None,
            bytes: 0,
            parts: FlagParts::empty(),
            joins: 0,
        }
    }

    /// A row with this state, exit, reason, number of bytes and flag parts, as another analysis found it.
    pub fn of(
        state: AbsState,
        exit: Option<AbsState>,
        reason: Option<Reason>,
        bytes: u16,
        parts: FlagParts,
    ) -> Noted {
        Noted {
            state,
            exit,
            reason,
            bytes,
            parts,
            joins: 0,
        }
    }

    /// Joins a state that comes to the row; there are `cells` kept cells. The result is whether the row changed.
    pub(crate) fn take(&mut self, state: &AbsState, facts: &[FactNote], cells: usize) -> bool {
        let Some(both) = joined(&self.state, state, cells) else {
            return false;
        };
        if self.state.covers(&both) {
            return false;
        }
        let left = self.changed(&both, facts);
        if self.state.covers(&left) && left.covers(&self.state) {
            return false;
        }
        self.joins = self.joins.saturating_add(1);
        self.state = left;
        true
    }

    /// The row's state after a join: widened after `JOINS` joins, full after `CHANGES`, and else as the join.
    fn changed(&self, both: &AbsState, facts: &[FactNote]) -> AbsState {
        if self.joins >= CHANGES {
            return widest(both);
        }
        let mut left = if self.joins < JOINS {
            both.copied()
        } else {
            grown(&self.state, both)
        };
        tighten_by(facts, &mut left);
        left
    }

    /// Whether the row's exit is the same as this one.
    pub(crate) fn leaves_as(&self, exit: &Option<AbsState>) -> bool {
        match (&self.exit, exit) {
            (None, None) => true,
            (Some(old), Some(new)) => old.covers(new) && new.covers(old),
            _ => false,
        }
    }
}
