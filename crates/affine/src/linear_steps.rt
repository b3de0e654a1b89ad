// Steps after which a variable is a linear of the variables before them.

use crate::space::{DIRECTIONS, GREATEST_COORDINATE, Space};
use loop_bounds::{Effect, Linear, Variable};
use tracked_variables::TRACKED;

/// A value and coefficients of directions.
#[derive(Clone, Copy)]
struct Combination {
    value: i32,
    column: [i16; DIRECTIONS],
}

impl Combination {
    /// Adds a multiple of what a space knows of the variable of a rank; None if it knows nothing, or a number gets too
    /// great.
    fn add(&mut self, from: &Space, rank: usize, factor: i32) -> Option<()> {
        if !from.knows(rank) {
            return None;
        }
        let value = from.point[rank].checked_mul(factor)?;
        self.value = self.value.checked_add(value)?;
        for index in 0..DIRECTIONS {
            let own = i32::from(self.column[index]);
            let more = i32::from(from.columns[rank][index]).checked_mul(factor)?;
            self.column[index] = i16::try_from(own.checked_add(more)?).ok()?;
        }
        if self.value.unsigned_abs() <= GREATEST_COORDINATE {
            Some(())
        } else {
            None
        }
    }
}

impl Space {
    /// What a step with this effect leaves after which one variable is a linear of the variables before the step. The
    /// stack shape has `slots` slots after it, as in `after`.
    pub fn after_linear(
        &self,
        effect: &Effect,
        slots: usize,
        variable: Variable,
        linear: &Linear,
    ) -> Space {
        let rank = usize::from(variable.rank());
        let mut shared = *self;
        shared.share(effect, slots);
        let mut next = shared.taken(effect);
        if rank < TRACKED {
            match shared.combination(linear) {
                Some(made) => next.set(rank, made.value, made.column),
                None => next.forget(rank),
            }
        }
        next.keep_slots(slots);
        if next.is_settled() {
            next
        } else {
            next.repaired()
        }
    }

    /// What the space knows of a linear.
    fn combination(&self, linear: &Linear) -> Option<Combination> {
        let mut made = Combination {
            value: linear.constant(),
            column: [0; DIRECTIONS],
        };
        for term in linear.terms() {
            made.add(self, usize::from(term.variable.rank()), term.coefficient)?;
        }
        Some(made)
    }
}
