// Whether a space has all values of another.
ghost use Rattle.std.specs.Prelude.{◌≡◌, ◌≢◌, ℕ, ◌<◌, ◌≤◌, ◌*◌, ◌^◌, ℤ, pos, ◌*ℤ◌, IsTrue, IfSome, All, unsigned_abs, slice_index_or};
ghost use Rattle.loop_bounds.specs.declared.variable.Variable.{Variable};
ghost use Rattle.loop_bounds.specs.Variable.{rank_of};
ghost use Rattle.affine.specs.Space.{combination, coefficient_at, IsSpanned, LiesOn};
ghost use Rattle.tracked_variables.specs.Vector.{entry_at};

use crate::space::{DIRECTIONS, Space};
use tracked_variables::{TRACKED, Vector, common_divisor, multiple};

/// The greatest scale.
const GREATEST_SCALE: u32 = 1_000_000;

/// The greatest factor of a direction, in size.
const GREATEST_MULTIPLE: u64 = 1 << 44;

/// A factor times a coefficient.
fn product(factor: i64, coefficient: i16) -> i64
    requires { unsigned_abs factor ≤ 2 ^ 44 }
    ensures value { result ≡ factor *ℤ coefficient }
    ensures size { unsigned_abs result ≤ 2 ^ 59 }
{
    factor * i64::from(coefficient)
}

impl Space {
    /// A number that the coefficient of each direction at its pivot divides, or None if it is too great.
    fn scale(&self) -> Option<i32>
        ensures { IfSome result (λ scale. (scale ≢ pos 0) × (unsigned_abs scale ≤ 1000000)) }
    {
        let mut scale: u32 = 1;
        for index in 0..self.count {
            let leading = match self.columns.get(usize::from(self.pivots[index])) {
                Some(column) => u32::from(column[index].unsigned_abs()),
                None => return None,
            };
            if leading != 1 {
                let divisor = common_divisor(scale, leading).max(1);
                scale = (scale / divisor).checked_mul(leading)?;
            }
        }
        if 0 < scale && scale <= GREATEST_SCALE {
            Some(scale as i32)
        } else {
            None
        }
    }

    /// The factors of the directions in `scale` times the vector, if it is a sum of multiples of them.
    fn factors(&self, vector: &Vector, scale: i32) -> Option<[i64; DIRECTIONS]>
        ensures { IfSome result (λ factors. All (λ f. unsigned_abs f ≤ 2 ^ 44) factors) }
    {
        let mut factors = [0; DIRECTIONS];
        for index in 0..self.count {
            let pivot = usize::from(self.pivots[index]);
            if pivot >= TRACKED {
                return None;
            }
            let multiple = i64::from(scale).checked_div(i64::from(self.columns[pivot][index]))?;
            let factor = multiple.checked_mul(i64::from(vector.entries[pivot]))?;
            if factor.unsigned_abs() > GREATEST_MULTIPLE {
                return None;
            }
            factors[index] = factor;
        }
        Some(factors)
    }

    /// The sum of the factors times the coefficients at the variable of a rank.
    fn combined(&self, factors: &[i64; DIRECTIONS], rank: usize) -> i64
        requires rank { rank < 48 }
        requires small { All (λ f. unsigned_abs f ≤ 2 ^ 44) factors.now }
        ensures { result ≡ combination self.now.count (λ i. slice_index_or factors.now i (pos 0))
            (coefficient_at self.now rank) }
    {
        let mut sum = 0;
        for index in 0..self.count {
            sum += product(factors[index], self.columns[rank][index]);
        }
        sum
    }

    /// Whether the vector is a sum of multiples of the directions, at the known variables. The answer may be no where a
    /// number grows too great.
    fn spans(&self, vector: &Vector) -> bool
        ensures { IsTrue result → IsSpanned self.now (λ v. entry_at vector.now (rank_of v)) }
    {
        let Some(scale) = self.scale() else {
            return false;
        };
        let Some(factors) = self.factors(vector, scale) else {
            return false;
        };
        for rank in 0..TRACKED {
            if self.knows(rank)
                && multiple(scale, vector.entries[rank]) != self.combined(&factors, rank)
            {
                return false;
            }
        }
        true
    }

    /// Whether each direction of the other space is a sum of multiples of the directions of this one.
    fn spans_directions(&self, other: &Space) -> bool
        ensures { IsTrue result → (i : ℕ) → i < other.now.count
            → IsSpanned self.now (λ v. coefficient_at other.now (rank_of v) i) }
    {
        for index in 0..other.count {
            if !self.spans(&other.direction(index)) {
                return false;
            }
        }
        true
    }

    /// Whether this space has all values of the other. The answer may be no where a number grows too great.
    pub(crate) fn covers(&self, other: &Space) -> bool
        ensures { IsTrue result → (x : Variable → ℤ) → LiesOn other.now x → LiesOn self.now x }
    {
        if self.known & !other.known != 0 {
            return false;
        }
        match self.difference(other) {
            Some(difference) => self.spans(&difference) && self.spans_directions(other),
            None => false,
        }
    }
}
