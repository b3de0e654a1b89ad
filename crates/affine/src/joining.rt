// Joins: the least space with all values of two.
ghost use Rattle.std.specs.Prelude.{◌≡◌, ◌<◌, ℤ};
ghost use Rattle.std.specs.Bool.{OnTrue, OnFalse};
ghost use Rattle.loop_bounds.specs.declared.variable.Variable.{Variable};
ghost use Rattle.affine.specs.Space.{LiesOn, knowledge_of};

use crate::space::{DIRECTIONS, Space};
use tracked_variables::{TRACKED, Vector};

/// The greatest coefficient of a direction.
const GREATEST_COEFFICIENT: u32 = 32_767;

impl Space {
    /// Joins another space: all values of both then lie on this one. The result says whether it grew. It grows only
    /// finitely often.
    pub fn join(&mut self, other: &Space) -> bool
        ensures own { (x : Variable → ℤ) → LiesOn self.old x → LiesOn self.new x }
        ensures other { (x : Variable → ℤ) → LiesOn other.now x → LiesOn self.new x }
        ensures unchanged { OnFalse result (self.new ≡ self.old) }
        ensures grows { OnTrue result (knowledge_of self.new < knowledge_of self.old) }
    {
        if self.known == 0 || self.covers(other) {
            return false;
        }
        let grown = self.grown(other);
        if grown.knowledge() < self.knowledge() && grown.covers(self) && grown.covers(other) {
            *self = grown;
        } else {
            *self = Space::full();
        }
        true
    }

    /// Nine for each known variable, and one for each direction that is missing.
    fn knowledge(&self) -> usize
        ensures { result ≡ knowledge_of self.now }
    {
        9 * self.known.count_ones() as usize + (DIRECTIONS - self.count)
    }

    /// The join, as it is found.
    fn grown(&self, other: &Space) -> Space {
        let mut next = *self;
        next.restrict(other.known);
        for index in 0..other.count {
            next.insert(&other.direction(index));
        }
        match self.difference(other) {
            Some(difference) => next.insert(&difference),
            None => next = Space::full(),
        }
        next
    }

    /// Forgets all variables that are not in the mask.
    fn restrict(&mut self, mask: u64) {
        let lost = self.known & !mask;
        if lost != 0 {
            for rank in 0..TRACKED {
                if (lost >> rank) & 1 == 1 {
                    self.forget(rank);
                }
            }
            self.repair();
        }
    }

    /// Gives each direction a pivot that no other direction changes, where some have lost theirs.
    pub(crate) fn repair(&mut self) {
        let old = *self;
        for index in (0..old.count).rev() {
            if !old.has_pivot(index) && index < self.count {
                self.remove(index);
            }
        }
        for index in 0..old.count {
            if !old.has_pivot(index) {
                self.insert(&old.direction(index));
            }
        }
        self.settle();
    }

    /// Whether each direction has a pivot and changes at least two variables.
    pub(crate) fn is_settled(&self) -> bool {
        for index in 0..self.count {
            if !self.has_pivot(index) || self.direction(index).terms() < 2 {
                return false;
            }
        }
        true
    }

    /// Whether a direction has a pivot: something is known of that variable, and no other direction changes it.
    fn has_pivot(&self, index: usize) -> bool
        requires { index < 8 }
    {
        let pivot = usize::from(self.pivots[index]);
        if !self.knows(pivot) {
            return false;
        }
        for other in 0..self.count {
            if (self.columns[pivot][other] != 0) != (other == index) {
                return false;
            }
        }
        true
    }

    /// Removes a direction; the last one takes its place.
    fn remove(&mut self, index: usize)
        requires { index < self.old.count }
    {
        let last = self.count - 1;
        for rank in 0..TRACKED {
            self.columns[rank][index] = self.columns[rank][last];
            self.columns[rank][last] = 0;
        }
        self.pivots[index] = self.pivots[last];
        self.count = last;
    }

    /// Adds a vector to the directions, as far as there is room; else the variables that it changes are forgotten.
    fn insert(&mut self, vector: &Vector) {
        match self.remainder(vector) {
            Some(rest) => self.add(&rest.reduced()),
            None => *self = Space::full(),
        }
    }

    /// What the directions leave of a vector when its entries at their pivots are made 0.
    fn remainder(&self, vector: &Vector) -> Option<Vector> {
        let mut rest = vector.restricted(self.known);
        for index in 0..self.count {
            let pivot = usize::from(self.pivots[index]);
            if pivot < TRACKED && rest.entries[pivot] != 0 {
                rest = rest.without(&self.direction(index), pivot)?;
            }
        }
        Some(rest)
    }

    /// Adds a vector whose entries at the pivots are 0.
    fn add(&mut self, vector: &Vector) {
        let Some(pivot) = vector.least() else {
            return;
        };
        if self.count == DIRECTIONS || !fits(vector) || vector.terms() == 1 {
            self.forget_all(vector);
            self.settle();
            return;
        }
        for index in (0..self.count).rev() {
            if index < self.count && self.columns[pivot][index] != 0 {
                self.clear(index, vector, pivot);
            }
        }
        if self.count < DIRECTIONS {
            self.count += 1;
            self.pivots[self.count - 1] = pivot as u8;
            self.set_direction(self.count - 1, &vector.restricted(self.known));
        }
        self.settle();
    }

    /// Makes the coefficient of a direction at `pivot` 0 by the vector.
    fn clear(&mut self, index: usize, vector: &Vector, pivot: usize)
        requires { index < self.old.count }
    {
        match self.direction(index).without(vector, pivot) {
            Some(row) => {
                let row = row.reduced();
                if fits(&row) {
                    self.set_direction(index, &row);
                } else {
                    self.remove(index);
                    self.forget_all(&row);
                }
            }
            None => *self = Space::full(),
        }
    }

    /// Sets the coefficients of a direction.
    fn set_direction(&mut self, index: usize, vector: &Vector)
        requires { index < 8 }
    {
        for rank in 0..TRACKED {
            self.columns[rank][index] = i16::try_from(vector.entries[rank]).unwrap_or(0);
        }
    }

    /// Forgets the variables that a vector changes.
    fn forget_all(&mut self, vector: &Vector) {
        for rank in 0..TRACKED {
            if vector.entries[rank] != 0 {
                self.forget(rank);
            }
        }
    }

    /// Removes each direction that changes at most one variable; that variable is then forgotten.
    fn settle(&mut self) {
        for index in (0..self.count).rev() {
            if index < self.count {
                let row = self.direction(index);
                if row.terms() <= 1 {
                    self.remove(index);
                    self.forget_all(&row);
                } else {
                    self.set_direction(index, &row.reduced());
                }
            }
        }
    }
}

/// Whether each entry fits a direction.
fn fits(vector: &Vector) -> bool {
    vector
        .entries
        .iter()
        .all(|entry| entry.unsigned_abs() <= GREATEST_COEFFICIENT)
}
