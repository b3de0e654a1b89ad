// Covering, overlapping and joins of states.
ghost use Rattle.std.specs.Prelude.{◌≡◌, ◌↔◌, ◌⊎◌, IsTrue, IfSome, List};
ghost use Rattle.intervals.specs.Domain.{Entry};
ghost use Rattle.std.specs.List.{AllZip};
ghost use Rattle.abs_state.specs.Covers.{CoversState, KeepsSlot, KeepsState, OverlapsState, hull_of_states};
ghost use Rattle.abs_state.specs.Holds.{Holds};
ghost use Rattle.abs_state.specs.Seen.{Seen};
ghost use Rattle.abs_state.specs.declared.cell.KeptCell.{KeptCell};
ghost use Rattle.abs_state.specs.declared.state.AbsState.{AbsState as State};

use crate::fact::{covers_fact, hull_of_facts};
use crate::pairs::keeps_pair;
use crate::state::AbsState;
use stack_shape::Slot;

impl AbsState {
    /// Whether this state covers the other: its mode covers the other's, it has no more armed cells, each pair and each
    /// slot covers the other's, and its flag fact is the other's or none. Covering is a preorder. A state that covers
    /// another holds of every machine that the other holds of.
    pub fn covers(&self, other: &AbsState) -> bool
        ensures exact { IsTrue result ↔ CoversState self.now other.now }
        ensures reflexive { self.now ≡ other.now → IsTrue result }
        ensures transitive { IsTrue result → (third : State) → CoversState other.now third
            → CoversState self.now third }
        ensures widens { IsTrue result → (cells : List KeptCell) (entry : Entry) (m : Seen)
            → Holds other.now cells entry m
            → Holds self.now cells entry m }
    {
        self.covers_each(other)
    }

    fn covers_each(&self, other: &AbsState) -> bool
        ensures { IsTrue result ↔ CoversState self.now other.now }
    {
        self.mode.covers(other.mode)
            && self.armed <= other.armed
            && self.pairs.covers(&other.pairs)
            && covers_fact(self.flag, other.flag)
            && self.shape.covers(&other.shape)
    }

    /// Whether each origin of this state, of a pair or of a slot, is the other's, and its flag fact is the other's or
    /// none. The shapes have one length then. Ranges, mode and cells are not compared.
    pub fn keeps(&self, other: &AbsState) -> bool
        ensures { IsTrue result ↔ KeepsState self.now other.now }
    {
        self.pairs.keeps(&other.pairs)
            && covers_fact(self.flag, other.flag)
            && keeps_slots(self.shape.slots(), other.shape.slots())
    }

    /// Whether the shapes have one length and all pairs and slots overlap: their ranges share a value each.
    pub fn overlaps(&self, other: &AbsState) -> bool
        ensures { IsTrue result ↔ OverlapsState self.now other.now }
    {
        self.pairs.overlaps(&other.pairs) && self.shape.overlaps(&other.shape)
    }

    /// The join: the mode that covers both, the smaller number of armed cells, and the hull of each range. None if the
    /// shapes have different lengths, or one mode is `u` and the other `n`. The join covers both states.
    pub fn join(&self, other: &AbsState) -> Option<AbsState>
        ensures exact { result ≡ hull_of_states self.now other.now }
        ensures covers { IfSome result (λ both. CoversState both self.now
            × CoversState both other.now) }
        ensures holds { IfSome result (λ both. (cells : List KeptCell) (entry : Entry) (m : Seen)
            → Holds self.now cells entry m ⊎ Holds other.now cells entry m → Holds both cells entry m) }
    {
        let shape = self.shape.join(&other.shape)?;
        let mode = self.mode.join(other.mode)?;
        Some(AbsState {
            mode,
            armed: self.armed.min(other.armed),
            pairs: self.pairs.join(&other.pairs),
            flag: hull_of_facts(self.flag, other.flag),
            shape,
        })
    }
}

/// Whether there are as many slots, and each origin in the first list is also that of the slot at its place in the
/// second.
pub fn keeps_slots(mine: &[Slot], theirs: &[Slot]) -> bool
    ensures { IsTrue result ↔ AllZip KeepsSlot mine.now theirs.now }
{
    mine.len() == theirs.len()
        && mine
            .iter()
            .zip(theirs)
            .all(|(a, b)| keeps_pair(a.pair, b.pair))
}
