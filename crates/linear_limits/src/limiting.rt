// Limits: the cuts that an inequality between a linear and 0 makes.
ghost use Rattle.std.specs.Prelude.{◌≡◌, ◌↔◌, ◌+◌, ◌<◌, ◌≤◌, ◌^◌, ◌-ℤ◌, unsigned_abs, Some, None, IsTrue, MatchBool};
ghost use Rattle.loop_bounds.specs.Effect.{Valuation, whole};
ghost use Rattle.loop_bounds.specs.Linear.{value};
ghost use Rattle.linear_limits.specs.Limit.{IsOnSide, reaches_side, limit_left, limited_by, limited};

use crate::products::{products_from, products_up_to};
use crate::spans::{extremes, greatest_product, least_product};
use intervals::WordRange;
use loop_bounds::{Linear, Ranges, Term, Tightenable};

/// The numbers on one side of 0.
#[derive(Clone, Copy)]
pub enum SideOfZero {
    /// Below 0.
    Below,
    /// 0 and above.
    NotBelow,
}

/// Whether some value of the linear lies on the side, each variable ranging by itself.
fn reaches_side<R: Ranges>(side: SideOfZero, linear: &Linear, ranges: &R) -> bool
    ensures { result ≡ reaches_side side linear.now (R.range_of ranges.now) }
{
    let extremes = extremes(linear, ranges);
    match side {
        SideOfZero::Below => extremes.least < 0,
        SideOfZero::NotBelow => extremes.greatest >= 0,
    }
}

/// `a` minus `b`.
fn difference(a: i128, b: i128) -> i128
    requires a { unsigned_abs a < 2 ^ 62 }
    requires b { unsigned_abs b < 2 ^ 62 }
    ensures value { result ≡ a -ℤ b }
    ensures size { unsigned_abs result ≤ unsigned_abs a + unsigned_abs b }
{
    a - b
}

/// What the constant and the other terms leave of a term's range.
fn limit_left<R: Ranges>(
    side: SideOfZero,
    linear: &Linear,
    term: &Term,
    ranges: &R,
) -> Option<WordRange>
    requires coefficient { 0 < unsigned_abs term.now.coefficient }
    requires small { unsigned_abs term.now.coefficient < 2 ^ 20 }
    ensures { result ≡ limit_left side linear.now (R.range_of ranges.now) term.now }
{
    let extremes = extremes(linear, ranges);
    let (range, coefficient) = (ranges.range(term.variable), term.coefficient);
    match side {
        SideOfZero::Below => {
            let others = difference(extremes.least, least_product(coefficient, range));
            products_up_to(coefficient, difference(-1, others), range)
        }
        SideOfZero::NotBelow => {
            let others = difference(extremes.greatest, greatest_product(coefficient, range));
            products_from(coefficient, difference(0, others), range)
        }
    }
}

/// Cuts each variable of the linear, in the order of the terms, to what the ranges of the others leave, rounded
/// inwards. Each cut sees the ones before it. Answers whether anything is left.
fn limit_each<S: Tightenable>(side: SideOfZero, linear: &Linear, state: &mut S) -> bool
    ensures exact { MatchBool result
        (limited_by S.range_of S.cut_to side linear.now linear.now.terms state.old ≡ Some state.new)
        (limited_by S.range_of S.cut_to side linear.now linear.now.terms state.old ≡ None) }
    ensures keeps { (x : Valuation) → S.holds state.old x → IsOnSide side (value (whole x) linear.now)
        → IsTrue result × S.holds state.new x }
{
    for term in linear.terms() {
        let Some(left) = limit_left(side, linear, term, state) else {
            return false;
        };
        if !state.cut(term.variable, left) {
            return false;
        }
    }
    true
}

/// Cuts a state to where a linear lies on one side of 0. Nothing is left if no value of the linear lies there, each
/// variable ranging by itself. Else each variable is cut, in the order of the terms, to what the ranges of the others
/// leave, rounded inwards; each cut sees the ones before it. Answers whether anything is left. If nothing is, the state
/// has the cuts made before the one that failed.
pub fn limit<S: Tightenable>(side: SideOfZero, linear: &Linear, state: &mut S) -> bool
    ensures exact { MatchBool result
        (limited S.range_of S.cut_to side linear.now state.old ≡ Some state.new)
        (limited S.range_of S.cut_to side linear.now state.old ≡ None) }
    ensures keeps { (x : Valuation) → S.holds state.old x → IsOnSide side (value (whole x) linear.now)
        → IsTrue result × S.holds state.new x }
{
    reaches_side(side, linear, state) && limit_each(side, linear, state)
}
