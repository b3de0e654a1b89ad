// The least and the greatest value of a linear, each variable ranging by itself.
ghost use Rattle.std.specs.Prelude.{◌≡◌, ◌*◌, ◌<◌, ◌≤◌, ◌^◌, length, All, ℤ, pos, ◌+ℤ◌, ◌*ℤ◌, ◌≤ℤ◌, unsigned_abs};
ghost use Rattle.intervals.specs.Range.{Within};
ghost use Rattle.loop_bounds.specs.Effect.{Valuation, whole};
ghost use Rattle.loop_bounds.specs.Form.{end_of, least_total};
ghost use Rattle.loop_bounds.specs.Linear.{value};
ghost use Rattle.loop_bounds.specs.Tighten.{greatest_total, top_of};
ghost use Rattle.loop_bounds.specs.declared.variable.Variable.{Variable};
ghost use Rattle.linear_limits.specs.Extremes.{least_value, greatest_value};

use intervals::WordRange;
use loop_bounds::{Linear, Ranges, Term};

/// The least and the greatest value of a linear.
#[derive(Clone, Copy)]
pub struct ValueSpan {
    pub least: i128,
    pub greatest: i128,
}

/// `coefficient` times `value`.
fn product(coefficient: i32, value: u16) -> i128
    ensures value { result ≡ coefficient *ℤ pos value }
    ensures size { unsigned_abs result ≤ 65535 * unsigned_abs coefficient }
{
    i128::from(coefficient) * i128::from(value)
}

/// The least product of `coefficient` and a value of the range.
pub(crate) fn least_product(coefficient: i32, range: WordRange) -> i128
    ensures value { result ≡ coefficient *ℤ pos (end_of range coefficient) }
    ensures order { range.low ≤ range.high }
    ensures size { unsigned_abs result ≤ 65535 * unsigned_abs coefficient }
{
    let (low, high) = (range.low(), range.high());
    product(coefficient, if coefficient >= 0 { low } else { high })
}

/// The greatest product of `coefficient` and a value of the range.
pub(crate) fn greatest_product(coefficient: i32, range: WordRange) -> i128
    ensures value { result ≡ coefficient *ℤ pos (top_of range coefficient) }
    ensures size { unsigned_abs result ≤ 65535 * unsigned_abs coefficient }
{
    let (low, high) = (range.low(), range.high());
    product(coefficient, if coefficient >= 0 { high } else { low })
}

/// The least and the greatest sum of the terms, each variable ranging by itself.
fn span<R: Ranges>(terms: &[Term], ranges: &R) -> (i128, i128)
    requires few { length terms.now ≤ 3 }
    requires small { All (λ t. unsigned_abs t.coefficient ≤ 1000000) terms.now }
    ensures least { result.0 ≡ least_total (R.range_of ranges.now) terms.now }
    ensures greatest { result.1 ≡ greatest_total (R.range_of ranges.now) terms.now }
    ensures least_size { unsigned_abs result.0 < 2 ^ 40 }
    ensures greatest_size { unsigned_abs result.1 < 2 ^ 40 }
{
    let (mut least, mut greatest) = (0, 0);
    for term in terms {
        let range = ranges.range(term.variable);
        least += least_product(term.coefficient, range);
        greatest += greatest_product(term.coefficient, range);
    }
    (least, greatest)
}

/// The least and the greatest value of a linear, each variable ranging by itself, also BC and B. No number wraps.
pub fn extremes<R: Ranges>(linear: &Linear, ranges: &R) -> ValueSpan
    ensures least { result.least ≡ least_value (R.range_of ranges.now) linear.now }
    ensures greatest { result.greatest ≡ greatest_value (R.range_of ranges.now) linear.now }
    ensures least_size { unsigned_abs result.least < 2 ^ 41 }
    ensures greatest_size { unsigned_abs result.greatest < 2 ^ 41 }
    ensures not_below { (x : Valuation) → ((v : Variable) → Within (R.range_of ranges.now v) (x v))
        → result.least ≤ℤ value (whole x) linear.now }
    ensures not_above { (x : Valuation) → ((v : Variable) → Within (R.range_of ranges.now v) (x v))
        → value (whole x) linear.now ≤ℤ result.greatest }
{
    let (least, greatest) = span(linear.terms(), ranges);
    let constant = i128::from(linear.constant());
    ValueSpan {
        least: constant + least,
        greatest: constant + greatest,
    }
}
