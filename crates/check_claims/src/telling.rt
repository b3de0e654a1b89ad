// Whether a condition's linear says what a part's linear says.
ghost use Rattle.std.specs.Prelude.{◌≡◌, ◌↔◌, ◌≤◌, IsTrue, not, unsigned_abs};
ghost use Rattle.abs_state.specs.Variables.{range_of};
ghost use Rattle.linear_sums.specs.Rewriting.{IsSlight};
ghost use Rattle.check_claims.specs.Claims.{TellsBefore, TellsAfter, TellsBack};
ghost use Rattle.check_claims.specs.Zeros.{less};
ghost use Rattle.linear_sums.specs.Sum.{IsMadeOf, sign};

use crate::rewritings::{Rewriting, rewritten_by};
use crate::zeros::{is_zero_by, sum_of};
use abs_state::AbsState;
use linear_sums::Sum;
use loop_bounds::Linear;

/// The factor of a linear that is taken away, or whose negation is.
fn factor(negated: bool) -> i32
    ensures value { result ≡ sign (not negated) }
    ensures small { unsigned_abs result ≤ 256 }
{
    if negated { 1 } else { -1 }
}

/// A sum less a linear, or less its negation.
fn less(sum: Sum, negated: bool, linear: &Linear) -> Sum
    requires { IsMadeOf 28 sum }
    ensures { result ≡ less sum negated linear.now }
{
    let mut difference = sum;
    difference.add(linear, factor(negated));
    difference
}

/// A sum less another one, or less its negation.
fn less_sum(sum: Sum, negated: bool, other: &Sum) -> Sum
    requires sum { IsMadeOf 13 sum }
    requires other { IsMadeOf 13 other.now }
    ensures { result ≡ less sum negated other.now }
{
    let mut difference = sum;
    difference.add_sum(other, !negated);
    difference
}

/// Whether a linear, rewritten, is one over the variables before the step, or its negation, by the facts of the row.
pub(crate) fn tells_before(
    facts: &[Linear],
    before: &AbsState,
    rewriting: &Rewriting,
    linear: &Linear,
    negated: bool,
    told: &Linear,
) -> bool
    requires { IsSlight rewriting.now.change }
    ensures { IsTrue result
        ↔ TellsBefore facts.now (range_of before.now) rewriting.now linear.now negated told.now }
{
    let Some(sum) = rewritten_by(rewriting, linear) else {
        return false;
    };
    is_zero_by(facts, before, &less(sum, negated, told))
}

/// Whether a linear is another one, or its negation, at all values in the ranges after the step.
pub(crate) fn tells_after(after: &AbsState, linear: &Linear, negated: bool, told: &Linear) -> bool
    ensures { IsTrue result ↔ TellsAfter (range_of after.now) linear.now negated told.now }
{
    less(sum_of(linear), negated, told).is_zero(after)
}

/// Whether a linear, rewritten, is another one rewritten, or its negation, by the facts of the row.
pub(crate) fn tells_back(
    facts: &[Linear],
    before: &AbsState,
    rewriting: &Rewriting,
    linear: &Linear,
    negated: bool,
    told: &Linear,
) -> bool
    requires { IsSlight rewriting.now.change }
    ensures { IsTrue result
        ↔ TellsBack facts.now (range_of before.now) rewriting.now linear.now negated told.now }
{
    let Some(sum) = rewritten_by(rewriting, linear) else {
        return false;
    };
    let Some(other) = rewritten_by(rewriting, told) else {
        return false;
    };
    is_zero_by(facts, before, &less_sum(sum, negated, &other))
}
