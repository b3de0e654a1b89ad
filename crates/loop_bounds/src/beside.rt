// The exact test for a step over which one variable becomes a linear.
ghost use Rattle.std.specs.Prelude.{◌≡◌, ◌↔◌, ◌<◌, ◌≤◌, ◌^◌, All, IsTrue, length, ℤ, ◌+ℤ◌, ◌*ℤ◌, unsigned_abs};
ghost use Rattle.loop_bounds.specs.declared.variable.Variable.{Variable};
ghost use Rattle.loop_bounds.specs.Bounds.{DecreasesBeside};
ghost use Rattle.loop_bounds.specs.Form.{weight};
ghost use Rattle.loop_bounds.specs.Linear.{total, value};

use crate::bounds::left_after;
use crate::effect::Effect;
use crate::form::Form;
use crate::linear::{Linear, Term};
use crate::ranges::Ranges;

/// The term times a factor.
fn scaled(term: &Term, factor: i32) -> Term
    requires factor { unsigned_abs factor ≤ 1000000 }
    requires slight { unsigned_abs term.now.coefficient ≤ 256 }
    ensures value { result ≡ record term.now { coefficient = factor *ℤ term.now.coefficient } }
    ensures size { unsigned_abs result.coefficient ≤ 256000000 }
{
    Term {
        coefficient: factor * term.coefficient,
        variable: term.variable,
    }
}

/// The constant of the linear times a factor.
fn scaled_constant(linear: &Linear, factor: i32) -> i128
    requires { unsigned_abs factor ≤ 1000000 }
    ensures value { result ≡ factor *ℤ linear.now.constant }
    ensures size { unsigned_abs result < 2 ^ 50 }
{
    i128::from(factor) * i128::from(linear.constant())
}

impl Form {
    /// Adds a multiple of terms with coefficients up to 256 in size.
    fn add_scaled_terms(&mut self, terms: &[Term], factor: i32)
        requires few { length terms.now ≤ 3 }
        requires slight { All (λ t. unsigned_abs t.coefficient ≤ 256) terms.now }
        requires factor { unsigned_abs factor ≤ 1000000 }
        requires room { length self.old.terms ≤ 6 }
        requires light { weight self.old.terms ≤ 6000000 }
        ensures total { (x : Variable → ℤ) → total x self.new.terms
            ≡ total x self.old.terms +ℤ factor *ℤ total x terms.now }
        ensures constant { self.new.constant ≡ self.old.constant }
        ensures weight { weight self.new.terms < 2 ^ 31 }
    {
        for term in terms {
            self.add(scaled(term, factor));
        }
    }

    /// Adds a multiple of a linear with coefficients up to 256 in size.
    fn add_scaled(&mut self, linear: &Linear, factor: i32)
        requires slight { All (λ t. unsigned_abs t.coefficient ≤ 256) linear.now.terms }
        requires factor { unsigned_abs factor ≤ 1000000 }
        requires room { length self.old.terms ≤ 6 }
        requires light { weight self.old.terms ≤ 6000000 }
        requires constant { unsigned_abs self.old.constant < 2 ^ 50 }
        ensures value { (x : Variable → ℤ) → value x self.new
            ≡ value x self.old +ℤ factor *ℤ value x linear.now }
        ensures weight { weight self.new.terms < 2 ^ 31 }
        ensures constant { unsigned_abs self.new.constant < 2 ^ 60 }
    {
        self.raise(scaled_constant(linear, factor));
        self.add_scaled_terms(linear.terms(), factor);
    }
}

/// Whether `from` - `cost` - `to` - `factor` * `beside` is at least 0, with `to` rewritten by the effect and `beside`
/// over the variables before the step. It is the test for a linear `to` + `factor` * v where the step leaves `beside`
/// in v. The variables range as for `decreases`. The factor is at most 1,000,000 in size, and the coefficients of
/// `beside` at most 256. No number wraps.
pub fn decreases_beside<S: Ranges, T: Ranges>(
    from: &Linear,
    to: &Linear,
    cost: u32,
    effect: &Effect,
    factor: i32,
    beside: &Linear,
    source: &S,
    target: &T,
) -> bool
    requires factor { unsigned_abs factor ≤ 1000000 }
    requires slight { All (λ t. unsigned_abs t.coefficient ≤ 256) beside.now.terms }
    ensures { IsTrue result ↔ DecreasesBeside from.now to.now cost effect.now factor beside.now
        (S.range_of source.now) (T.range_of target.now) }
{
    let mut left = left_after(from, to, cost, effect);
    left.known.add_scaled(beside, -factor);
    left.is_never_negative(source, target)
}
