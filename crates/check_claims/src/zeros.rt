// Sums that are 0 by the facts of a row.
ghost use Rattle.std.specs.Prelude.{◌≡◌, ◌↔◌, IsTrue, pos};
ghost use Rattle.abs_state.specs.Variables.{range_of};
ghost use Rattle.linear_sums.specs.Canon.{IsMultipleIn};
ghost use Rattle.linear_sums.specs.Sum.{IsMadeOf, plus_multiple};
ghost use Rattle.check_claims.specs.Zeros.{no_sum, IsMultipleOfFact, IsZeroBy};

use abs_state::AbsState;
use linear_sums::Sum;
use loop_bounds::Linear;

/// A linear as a sum. It takes four parts of the room.
pub(crate) fn sum_of(linear: &Linear) -> Sum
    ensures exact { result ≡ plus_multiple no_sum (pos 1) linear.now }
    ensures room { IsMadeOf 4 result }
{
    let mut sum = Sum::zero();
    sum.add(linear, 1);
    sum
}

/// Whether the canon of a sum is a multiple of a linear's, with the one-valued variables of the state put in.
fn is_multiple(sum: &Sum, linear: &Linear, before: &AbsState) -> bool
    ensures { IsTrue result ↔ IsMultipleIn (range_of before.now) sum.now linear.now }
{
    sum.is_multiple_of(&sum_of(linear), before)
}

/// Whether it is a multiple of that of some fact.
fn is_multiple_of_fact(facts: &[Linear], before: &AbsState, sum: &Sum) -> bool
    ensures { IsTrue result ↔ IsMultipleOfFact facts.now (range_of before.now) sum.now }
{
    for fact in facts {
        if is_multiple(sum, fact, before) {
            return true;
        }
    }
    false
}

/// Whether a sum is 0 by the facts of a row: its canon in the row's state is 0, or a multiple of that of a fact.
pub(crate) fn is_zero_by(facts: &[Linear], before: &AbsState, sum: &Sum) -> bool
    ensures { IsTrue result ↔ IsZeroBy facts.now (range_of before.now) sum.now }
{
    sum.is_zero(before) || is_multiple_of_fact(facts, before, sum)
}
