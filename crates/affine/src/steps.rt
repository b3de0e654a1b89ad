// Steps: what an effect leaves of a space.
ghost use Rattle.std.specs.Prelude.{◌≡◌, ◌≢◌, ℕ, ◌<◌, ℤ};
ghost use Rattle.loop_bounds.specs.declared.variable.Variable.{Variable};
ghost use Rattle.loop_bounds.specs.Variable.{rank_of};
ghost use Rattle.loop_bounds.specs.Effect.{Valuation, whole, change_of};
ghost use Rattle.affine.specs.Space.{LiesOn, KnowsAt, IsSameAt, IsEmptied, Forgets};
ghost use Rattle.affine.specs.Step.{CanLeave, IsMoved, IsTakenAt};

use crate::space::{DIRECTIONS, GREATEST_COORDINATE, Space};
use loop_bounds::{Change, Effect, Variable};
use tracked_variables::{
    TRACKED, TRACKED_REGISTERS, change_at, end_of, first_written, is_read, source, takes,
};

impl Space {
    /// What a step with this effect leaves, where the stack shape has `slots` slots after the step. Nothing is known
    /// then of slots from that number on, nor of slots that are not tracked.
    pub fn after(&self, effect: &Effect, slots: usize) -> Space
        ensures { (before : Valuation) (x : Variable → ℤ) → LiesOn self.now (whole before)
            → CanLeave effect.now before x → LiesOn result x }
    {
        let mut shared = *self;
        shared.share(effect, slots);
        let mut next = shared.taken(effect);
        next.keep_slots(slots);
        if next.is_settled() {
            next
        } else {
            next.repaired()
        }
    }

    /// The space with a pivot for each direction.
    pub(crate) fn repaired(&self) -> Space
        ensures { (x : Variable → ℤ) → LiesOn self.now x → LiesOn result x }
    {
        let mut tidy = *self;
        tidy.repair();
        if tidy.covers(self) {
            tidy
        } else {
            Space::full()
        }
    }

    /// Gives each unknown variable a direction of its own from which several variables take their value.
    pub(crate) fn share(&mut self, effect: &Effect, slots: usize)
        ensures { (x : Variable → ℤ) → LiesOn self.old x → LiesOn self.new x }
    {
        for rank in 0..TRACKED_REGISTERS {
            self.share_source(effect, rank, slots);
        }
        let first = first_written(effect);
        for rank in first..(first + 3).min(TRACKED) {
            self.share_source(effect, rank, slots);
        }
    }

    /// Gives the unknown variable from which the one of this rank takes its value a direction, if another has that
    /// value after the step too.
    fn share_source(&mut self, effect: &Effect, rank: usize, slots: usize)
        ensures { (x : Variable → ℤ) → LiesOn self.old x → LiesOn self.new x }
    {
        if let Some(variable) = source(&change_at(effect, rank)) {
            if self.is_shared(&variable, effect, rank, slots) {
                self.release(&variable);
            }
        }
    }

    /// Whether a variable is unknown, and its value goes to the variable of `rank` and to another one.
    fn is_shared(&self, variable: &Variable, effect: &Effect, rank: usize, slots: usize) -> bool {
        let from = usize::from(variable.rank());
        from != rank
            && !self.knows(from)
            && (is_read(effect, from, rank)
                || (from < end_of(slots) && takes(&change_at(effect, from), from)))
    }

    /// Gives an unknown variable a direction of its own, if there is room.
    fn release(&mut self, variable: &Variable)
        ensures { (x : Variable → ℤ) → LiesOn self.old x → LiesOn self.new x }
    {
        let rank = usize::from(variable.rank());
        let index = self.count;
        if index < DIRECTIONS && rank < TRACKED {
            let mut column = [0; DIRECTIONS];
            column[index] = 1;
            self.empty(index);
            self.set(rank, 0, column);
            self.pivots[index] = rank as u8;
            self.count = index + 1;
        }
    }

    /// Makes all coefficients of a direction 0.
    fn empty(&mut self, index: usize)
        requires { index < 8 }
        ensures { IsEmptied self.old self.new index }
    {
        for rank in 0..TRACKED {
            self.columns[rank][index] = 0;
        }
    }

    /// What a step with this effect leaves in each variable.
    pub(crate) fn taken(&self, effect: &Effect) -> Space
        ensures each { (v : Variable) → IsTakenAt self.now result (rank_of v)
            (change_of effect.now v) }
        ensures count { result.count ≡ self.now.count }
    {
        let mut next = *self;
        for rank in 0..TRACKED_REGISTERS {
            next.take(rank, change_at(effect, rank), self);
        }
        let first = first_written(effect);
        for rank in first..(first + 3).min(TRACKED) {
            next.take(rank, change_at(effect, rank), self);
        }
        next
    }

    /// Sets the variable of a rank to what a change leaves.
    fn take(&mut self, rank: usize, change: Change, from: &Space)
        requires { rank < 48 }
        ensures taken { IsTakenAt from.now self.new rank change }
        ensures others { (r : ℕ) → r < 48 → r ≢ rank → IsSameAt self.old self.new r }
        ensures count { self.new.count ≡ self.old.count }
    {
        match change {
            Change::Old(source) => self.copy(rank, from, source, 0),
            Change::Raised(source) => self.copy(rank, from, source, 1),
            Change::Lowered(source) => self.copy(rank, from, source, -1),
            Change::Constant(value) => self.set(rank, i32::from(value), [0; DIRECTIONS]),
            Change::Unknown => self.forget(rank),
        }
    }

    /// Sets the variable of a rank to another one's value plus a number.
    fn copy(&mut self, rank: usize, from: &Space, source: Variable, by: i32)
        requires rank { rank < 48 }
        ensures taken { KnowsAt self.new rank
            → IsMoved from.now self.new rank (rank_of source) by }
        ensures others { (r : ℕ) → r < 48 → r ≢ rank → IsSameAt self.old self.new r }
        ensures count { self.new.count ≡ self.old.count }
    {
        let source = usize::from(source.rank());
        if from.knows(source) {
            if let Some(value) = from.point[source].checked_add(by) {
                if value.unsigned_abs() <= GREATEST_COORDINATE {
                    self.set(rank, value, from.columns[source]);
                    return;
                }
            }
        }
        self.forget(rank);
    }

    /// Forgets the slots from a number on.
    pub(crate) fn keep_slots(&mut self, slots: usize)
        ensures { Forgets self.old self.new }
    {
        for rank in end_of(slots)..TRACKED {
            if self.knows(rank) {
                self.forget(rank);
            }
        }
    }
}
