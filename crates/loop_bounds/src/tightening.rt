// Tightening: the cuts that a fact makes.
ghost use Rattle.std.specs.Prelude.{◌≡◌, ◌+◌, ◌*◌, ◌<◌, ◌≤◌, ◌^◌, length, All, ℤ, pos, ◌+ℤ◌, ◌-ℤ◌, ◌*ℤ◌, unsigned_abs, Some, None, IsTrue, MatchBool, slice_index_or, if◌then◌else◌};
ghost use Rattle.std.specs.Bool.{OnFalse};
ghost use Rattle.loop_bounds.specs.Linear.{value};
ghost use Rattle.loop_bounds.specs.Effect.{Valuation, whole};
ghost use Rattle.loop_bounds.specs.Form.{least_total};
ghost use Rattle.loop_bounds.specs.Tighten.{greatest_total, top_of, quotient_up, multiples_between, balancing, share_left, tightened, after_last_cut};

use crate::form::{least_multiple, multiple};
use crate::linear::{Linear, Term};
use crate::ranges::{Ranges, Tightenable};
use intervals::WordRange;

/// The least natural number whose product with `factor` is not below `value`.
fn quotient_up(value: i128, factor: u32) -> u128
    requires factor { 0 < factor }
    requires small { unsigned_abs value < 2 ^ 64 }
    ensures { result ≡ quotient_up value factor }
{
    if value > 0 {
        value.unsigned_abs().div_ceil(u128::from(factor))
    } else {
        0
    }
}

/// The values of a range whose product with `factor` lies from `from` to `to`.
fn multiples_between(from: i128, to: i128, factor: u32, range: WordRange) -> Option<WordRange>
    requires factor { 0 < factor }
    requires from { unsigned_abs from < 2 ^ 64 }
    ensures { result ≡ multiples_between from to factor range }
{
    if to < 0 {
        return None;
    }
    let low = u128::from(range.low()).max(quotient_up(from, factor));
    let high = u128::from(range.high()).min(to.unsigned_abs() / u128::from(factor));
    if low > high {
        return None;
    }
    WordRange::new(low as u16, high as u16)
}

/// The values of a range whose product with `coefficient` becomes 0 when some number from `low` to `high` is added.
fn balancing(coefficient: i32, low: i128, high: i128, range: WordRange) -> Option<WordRange>
    requires coefficient { 0 < unsigned_abs coefficient }
    requires low { unsigned_abs low < 2 ^ 64 }
    requires high { unsigned_abs high < 2 ^ 64 }
    ensures { result ≡ balancing coefficient low high range }
{
    let factor = coefficient.unsigned_abs();
    if coefficient > 0 {
        multiples_between(-high, -low, factor, range)
    } else {
        multiples_between(low, high, factor, range)
    }
}

/// The least and the greatest sum of the terms, each variable ranging by itself.
fn span<R: Ranges>(terms: &[Term], ranges: &R) -> (i128, i128)
    requires few { length terms.now ≤ 3 }
    requires small { All (λ t. unsigned_abs t.coefficient ≤ 1000000) terms.now }
    ensures least { result.0 ≡ least_total (R.range_of ranges.now) terms.now }
    ensures greatest { result.1 ≡ greatest_total (R.range_of ranges.now) terms.now }
    ensures least_size { unsigned_abs result.0 < 2 ^ 40 }
    ensures greatest_size { unsigned_abs result.1 < 2 ^ 40 }
{
    let (mut least, mut greatest) = (0, 0);
    for term in terms {
        let range = ranges.range(term.variable);
        least += least_multiple(term.coefficient, range);
        greatest += greatest_multiple(term.coefficient, range);
    }
    (least, greatest)
}

/// The greatest product of `coefficient` and a value of the range.
fn greatest_multiple(coefficient: i32, range: WordRange) -> i128
    ensures value { result ≡ coefficient *ℤ pos (top_of range coefficient) }
    ensures size { unsigned_abs result ≤ 65535 * unsigned_abs coefficient }
{
    let (low, high) = (range.low(), range.high());
    multiple(coefficient, if coefficient >= 0 { high } else { low })
}

/// What the constant and the other terms leave of the range of the term at `place`.
fn share_left<R: Ranges>(fact: &Linear, place: usize, term: &Term, ranges: &R) -> Option<WordRange>
    requires place { place < length fact.now.terms }
    requires term { term.now ≡ slice_index_or fact.now.terms place term.now }
    ensures { result ≡ share_left fact.now (R.range_of ranges.now) place term.now }
{
    let range = ranges.range(term.variable);
    let (least, greatest) = span(fact.terms(), ranges);
    let constant = i128::from(fact.constant());
    balancing(
        term.coefficient,
        without(constant, least, least_multiple(term.coefficient, range)),
        without(
            constant,
            greatest,
            greatest_multiple(term.coefficient, range),
        ),
        range,
    )
}

/// The constant plus a total minus one of its parts.
fn without(constant: i128, total: i128, part: i128) -> i128
    requires constant { unsigned_abs constant < 2 ^ 40 }
    requires total { unsigned_abs total < 2 ^ 40 }
    requires part { unsigned_abs part < 2 ^ 40 }
    ensures value { result ≡ constant +ℤ total -ℤ part }
    ensures size { unsigned_abs result < 2 ^ 64 }
{
    constant + total - part
}

/// Tightens a state by a fact: cuts each variable, in the order of the terms, to what the ranges of the others leave,
/// rounded inwards. Each cut sees the ones before it. Answers whether anything is left. If nothing is, the state has
/// the cuts made before the one that failed.
pub fn tighten<S: Tightenable>(fact: &Linear, state: &mut S) -> bool
    ensures exact { MatchBool result
        (tightened S.range_of S.cut_to fact.now state.old ≡ Some state.new)
        (tightened S.range_of S.cut_to fact.now state.old ≡ None) }
    ensures stopped { OnFalse result (state.new
        ≡ after_last_cut S.range_of S.cut_to fact.now state.old) }
    ensures keeps { (x : Valuation) → S.holds state.old x → value (whole x) fact.now ≡ pos 0
        → IsTrue result × S.holds state.new x }
{
    for (place, term) in fact.terms().iter().enumerate() {
        let Some(left) = share_left(fact, place, term, state) else {
            return false;
        };
        if !state.cut(term.variable, left) {
            return false;
        }
    }
    true
}
