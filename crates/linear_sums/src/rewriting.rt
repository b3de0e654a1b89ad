// Linears over the variables after a step, rewritten to sums over the variables before it.
ghost use Rattle.std.specs.Prelude.{◌≡◌, ℕ, ◌+◌, ◌≤◌, ◌^◌, All, IfSome, Some, None, MatchBool, unsigned_abs};
ghost use Rattle.loop_bounds.specs.Effect.{Valuation, whole};
ghost use Rattle.loop_bounds.specs.Linear.{value};
ghost use Rattle.linear_sums.specs.Sum.{IsMadeOf};
ghost use Rattle.linear_sums.specs.Rewriting.{plus_change, plus_after, rewritten, IsSlight, FollowsEffect};

use crate::sum::Sum;
use loop_bounds::{Change, Effect, Linear, Term, Variable};

/// What a step leaves in one variable, as a linear over the variables before it.
#[derive(Clone, Copy)]
pub struct LinearChange {
    pub variable: Variable,
    pub value: Linear,
}

impl Sum {
    /// Adds a multiple of what a change leaves, or answers false if that is unknown.
    fn add_change(&mut self, change: Change, factor: i32) -> bool
        requires factor { unsigned_abs factor ≤ 1000000 }
        requires room { IsMadeOf 28 self.old }
        ensures exact { MatchBool result (plus_change self.old factor change ≡ Some self.new)
            (plus_change self.old factor change ≡ None) }
        ensures room { (count : ℕ) → IsMadeOf count self.old → IsMadeOf (count + 4) self.new }
    {
        let factor = i128::from(factor);
        match change {
            Change::Old(variable) => self.push(factor, variable),
            Change::Raised(variable) => {
                self.push(factor, variable);
                self.raise(factor);
            }
            Change::Lowered(variable) => {
                self.push(factor, variable);
                self.raise(-factor);
            }
            Change::Constant(value) => self.raise(factor * i128::from(value)),
            Change::Unknown => return false,
        }
        true
    }

    /// Adds a term over the variables after a step, or answers false if its variable is unknown.
    fn add_after(
        &mut self,
        term: &Term,
        effect: &Effect,
        linear_change: &Option<LinearChange>,
    ) -> bool
        requires factor { unsigned_abs term.now.coefficient ≤ 1000000 }
        requires slight { IsSlight linear_change.now }
        requires room { IsMadeOf 28 self.old }
        ensures exact { MatchBool result
            (plus_after effect.now linear_change.now self.old term.now ≡ Some self.new)
            (plus_after effect.now linear_change.now self.old term.now ≡ None) }
        ensures room { (count : ℕ) → IsMadeOf count self.old → IsMadeOf (count + 4) self.new }
    {
        match linear_change {
            Some(change) if change.variable.rank() == term.variable.rank() => {
                self.add_multiple(&change.value, term.coefficient);
                true
            }
            _ => self.add_change(effect.change(term.variable), term.coefficient),
        }
    }
}

/// The linear over the variables after a step, as a sum over those before it: each variable is replaced by what the
/// effect leaves in it, that of `linear_change` by its linear. None if a variable is unknown. The linear of
/// `linear_change` has coefficients up to 256 in size. The sum takes 13 parts of its room.
pub fn rewritten(
    linear: &Linear,
    effect: &Effect,
    linear_change: &Option<LinearChange>,
) -> Option<Sum>
    requires { IsSlight linear_change.now }
    ensures exact { result ≡ rewritten effect.now linear_change.now linear.now }
    ensures room { IfSome result (IsMadeOf 13) }
    ensures true_before { IfSome result (λ sum. (before after : Valuation)
        → All (λ t. FollowsEffect effect.now linear_change.now before t.variable (after t.variable)) linear.now.terms
        → value (whole after) linear.now ≡ value (whole before) sum) }
{
    let mut sum = Sum::zero();
    sum.raise(i128::from(linear.constant()));
    for term in linear.terms() {
        if !sum.add_after(term, effect, linear_change) {
            return None;
        }
    }
    Some(sum)
}
