// One linear equality: its factors, and whether it holds on a space.
ghost use Rattle.std.specs.Prelude.{◌≡◌, ◌↔◌, ◌*◌, ◌<◌, ◌≤◌, ◌^◌, ◌*ℤ◌, length, All, IsTrue, unsigned_abs};
ghost use Rattle.loop_bounds.specs.Variable.{rank_of};
ghost use Rattle.loop_bounds.specs.Linear.{total};
ghost use Rattle.affine.specs.Space.{KnowsAt, coordinate_at, coefficient_at};
ghost use Rattle.affine.specs.Equality.{IsZeroOn};

use crate::space::Space;
use loop_bounds::{Linear, Term};
use tracked_variables::{common_divisor, multiple, variable};

/// The greatest coefficient of an equality, in size.
pub const GREATEST_FACTOR: u32 = 1_000;

/// The rank of a variable, and its factor.
pub(crate) type Factor = (usize, i64);

/// The greatest common divisor of the factors, with the sign of the first one. None if it is too great or 0.
fn divisor(factors: &[Factor]) -> Option<i64> {
    let mut divisor = 0;
    for (_, factor) in factors {
        divisor = common_divisor(u32::try_from(factor.unsigned_abs()).ok()?, divisor);
    }
    let (_, first) = factors.first()?;
    let divisor = i64::from(divisor);
    Some(if *first < 0 { -divisor } else { divisor })
}

impl Space {
    /// Factors other than 0 with which the coefficients of two variables sum to 0 in the first direction that changes
    /// one of them.
    pub(crate) fn ratio(&self, first: usize, second: usize) -> Option<(i64, i64)>
        requires first { first < 48 }
        requires second { second < 48 }
    {
        for index in 0..self.count {
            let at_first = i64::from(self.columns[first][index]);
            let at_second = i64::from(self.columns[second][index]);
            if at_first != 0 || at_second != 0 {
                return if at_first != 0 && at_second != 0 {
                    Some((at_second, -at_first))
                } else {
                    None
                };
            }
        }
        None
    }

    /// Factors other than 0 with which the coefficients of three variables sum to 0 in the first two directions that
    /// change them differently.
    pub(crate) fn balance(&self, one: usize, two: usize, three: usize) -> Option<[i64; 3]>
        requires one { one < 48 }
        requires two { two < 48 }
        requires three { three < 48 }
    {
        let mut base = [0; 3];
        for index in 0..self.count {
            let row = [
                i64::from(self.columns[one][index]),
                i64::from(self.columns[two][index]),
                i64::from(self.columns[three][index]),
            ];
            let cross = cross(&base, &row);
            if cross != [0; 3] {
                return if cross.contains(&0) {
                    None
                } else {
                    Some(cross)
                };
            }
            if base == [0; 3] {
                base = row;
            }
        }
        None
    }

    /// The linear that is 0 at the point, with these factors divided by their greatest common divisor. None if a number
    /// is too great.
    pub(crate) fn equality(&self, factors: &[Factor]) -> Option<Linear> {
        let divisor = divisor(factors)?;
        let mut constant: i64 = 0;
        for (rank, factor) in factors {
            let coefficient = factor.checked_div(divisor)?;
            let value = i64::from(*self.point.get(*rank)?);
            constant = constant.checked_sub(coefficient.checked_mul(value)?)?;
        }
        let mut linear = Linear::of_constant(i32::try_from(constant).ok()?)?;
        for (rank, factor) in factors {
            let coefficient = i32::try_from(factor.checked_div(divisor)?).ok()?;
            if coefficient.unsigned_abs() > GREATEST_FACTOR {
                return None;
            }
            linear = linear.with_term(Term {
                coefficient,
                variable: variable(*rank)?,
            })?;
        }
        Some(linear)
    }

    /// Whether the linear is 0 at all values that lie on the space.
    pub(crate) fn has_zero(&self, linear: &Linear) -> bool
        ensures { IsTrue result → IsZeroOn self.now linear.now }
    {
        if !self.knows_all(linear.terms()) {
            return false;
        }
        if i64::from(linear.constant()) + self.total_at_point(linear.terms()) != 0 {
            return false;
        }
        for index in 0..self.count {
            if self.total_along(linear.terms(), index) != 0 {
                return false;
            }
        }
        true
    }

    /// Whether something is known of each variable.
    fn knows_all(&self, terms: &[Term]) -> bool
        ensures { IsTrue result ↔ All (λ t. KnowsAt self.now (rank_of t.variable)) terms.now }
    {
        terms
            .iter()
            .all(|term| self.knows(usize::from(term.variable.rank())))
    }

    /// The sum of the terms at the point.
    fn total_at_point(&self, terms: &[Term]) -> i64
        requires few { length terms.now ≤ 3 }
        requires small { All (λ t. unsigned_abs t.coefficient ≤ 1000000) terms.now }
        requires known { All (λ t. KnowsAt self.now (rank_of t.variable)) terms.now }
        ensures value { result ≡ total (λ v. coordinate_at self.now (rank_of v)) terms.now }
        ensures size { unsigned_abs result ≤ 2 ^ 53 }
    {
        let mut sum = 0;
        for term in terms {
            let rank = usize::from(term.variable.rank());
            sum += multiple(term.coefficient, self.point[rank]);
        }
        sum
    }

    /// The sum of the terms at the coefficients of a direction.
    fn total_along(&self, terms: &[Term], index: usize) -> i64
        requires index { index < 8 }
        requires few { length terms.now ≤ 3 }
        requires small { All (λ t. unsigned_abs t.coefficient ≤ 1000000) terms.now }
        requires known { All (λ t. KnowsAt self.now (rank_of t.variable)) terms.now }
        ensures { result ≡ total (λ v. coefficient_at self.now (rank_of v) index) terms.now }
    {
        let mut sum = 0;
        for term in terms {
            let rank = usize::from(term.variable.rank());
            sum += multiple(term.coefficient, i32::from(self.columns[rank][index]));
        }
        sum
    }
}

/// The cross product.
fn cross(left: &[i64; 3], right: &[i64; 3]) -> [i64; 3] {
    [
        minor(left[1], right[2], left[2], right[1]),
        minor(left[2], right[0], left[0], right[2]),
        minor(left[0], right[1], left[1], right[0]),
    ]
}

/// The first two numbers' product less the other two's.
fn minor(a: i64, b: i64, c: i64, d: i64) -> i64 {
    a.saturating_mul(b).saturating_sub(c.saturating_mul(d))
}
