// A linear rewritten by an effect, in two parts: the variables before the step, and the variables unknown after it.
ghost use Rattle.std.specs.Prelude.{◌≡◌, ◌≢◌, ◌↔◌, IsTrue, ◌≤ℤ◌, ℕ, ◌+◌, ◌<◌, ◌≤◌, ◌^◌, [], length, All, ℤ, pos, ◌+ℤ◌, ◌*ℤ◌, unsigned_abs};
ghost use Rattle.loop_bounds.specs.declared.effect.Change.TheVariants.{Unknown};
ghost use Rattle.loop_bounds.specs.Linear.{total};
ghost use Rattle.loop_bounds.specs.Effect.{Valuation, change_of, changed, old_range, constant_before, after_from, HasNoUnknown};
ghost use Rattle.loop_bounds.specs.Ranges.{LiesIn};
ghost use Rattle.loop_bounds.specs.Signed.{signed};

use crate::effect::{Change, Effect};
use crate::form::{Form, multiple};
use crate::linear::{Linear, Term};
use crate::ranges::Ranges;
use intervals::WordRange;

/// A sum rewritten by an effect. `known` has its variables before the step, `unknown` those that are unknown after it.
#[derive(Drop)]
pub struct Rewritten {
    pub known: Form,
    pub unknown: Form,
}

fn negated_if(negated: bool, coefficient: i32) -> i32
    requires { unsigned_abs coefficient ≤ 1000000 }
    ensures value { result ≡ signed negated coefficient }
    ensures size { unsigned_abs result ≤ 1000000 }
{
    if negated { -coefficient } else { coefficient }
}

/// The source range of an unchanged variable; full for any other change.
fn old_range<S: Ranges>(source: &S, change: &Change) -> WordRange
    ensures { result ≡ old_range (S.range_of source.now) change.now }
{
    match *change {
        Change::Old(variable) => source.range(variable),
        _ => WordRange::full(),
    }
}

/// The change, with an unchanged variable turned into a constant if its source range has one value.
fn constant_before<S: Ranges>(source: &S, change: Change) -> Change
    ensures { result ≡ constant_before (S.range_of source.now) change }
{
    match old_range(source, &change).value() {
        Some(value) => Change::Constant(value),
        None => change,
    }
}

impl Rewritten {
    ghost use Rattle.loop_bounds.specs.Rewritten.{value_of_both, IsWithinRoom, IsLight, WasAdded};

    /// The sum with this constant and no terms.
    pub fn new(constant: i128) -> Rewritten
        requires { unsigned_abs constant < 2 ^ 40 }
        ensures known { result.known ≡ record { constant = constant; terms = [] } }
        ensures unknown { result.unknown ≡ record { constant = pos 0; terms = [] } }
        ensures room { IsWithinRoom 0 result }
    {
        Rewritten {
            known: Form::new(constant),
            unknown: Form::new(0),
        }
    }

    /// Adds a coefficient times what the step leaves in a variable.
    fn add(&mut self, term: Term, change: Change)
        requires room { IsWithinRoom 5 self.old }
        requires small { unsigned_abs term.coefficient ≤ 1000000 }
        ensures value { (before free : Valuation) → value_of_both before free self.new
            ≡ value_of_both before free self.old +ℤ term.coefficient *ℤ changed change before (pos (free term.variable)) }
        ensures room { (used : ℕ) → IsWithinRoom used self.old → IsWithinRoom (used + 1) self.new }
        ensures no_unknown { change ≢ Unknown → self.new.unknown ≡ self.old.unknown }
    {
        let coefficient = term.coefficient;
        match change {
            Change::Old(variable) => self.known.add(Term {
                coefficient,
                variable,
            }),
            Change::Raised(variable) => {
                self.known.add(Term {
                    coefficient,
                    variable,
                });
                self.known.raise(i128::from(coefficient));
            }
            Change::Lowered(variable) => {
                self.known.add(Term {
                    coefficient,
                    variable,
                });
                self.known.raise(-i128::from(coefficient));
            }
            Change::Constant(value) => self.known.raise(multiple(coefficient, value)),
            Change::Unknown => self.unknown.add(term),
        }
    }

    /// Adds terms, or their negations, each rewritten by the effect of a step from the source ranges.
    fn add_terms<S: Ranges>(&mut self, terms: &[Term], source: &S, effect: &Effect, negated: bool)
        requires few { length terms.now ≤ 3 }
        requires small { All (λ t. unsigned_abs t.coefficient ≤ 1000000) terms.now }
        requires room { IsWithinRoom 3 self.old }
        ensures value { (before free : Valuation) → value_of_both before free self.new
            ≡ value_of_both before free self.old +ℤ signed negated (total (after_from (S.range_of source.now) effect.now before free) terms.now) }
        ensures room { (used : ℕ) → IsWithinRoom used self.old → IsWithinRoom (used + 3) self.new }
        ensures no_unknown { All (λ t. change_of effect.now t.variable ≢ Unknown) terms.now
            → self.new.unknown ≡ self.old.unknown }
    {
        for term in terms {
            let change = constant_before(source, effect.change(term.variable));
            let changed = Term {
                coefficient: negated_if(negated, term.coefficient),
                variable: term.variable,
            };
            self.add(changed, change);
        }
    }

    /// Adds the terms of a linear, or their negations, each rewritten by the effect of a step from the source ranges.
    pub fn add_linear<S: Ranges>(
        &mut self,
        linear: &Linear,
        source: &S,
        effect: &Effect,
        negated: bool,
    )
        requires { IsWithinRoom 3 self.old }
        ensures value { WasAdded self.old self.new (S.range_of source.now)
            effect.now negated linear.now }
        ensures room { (used : ℕ) → IsWithinRoom used self.old → IsWithinRoom (used + 3) self.new }
        ensures no_unknown { HasNoUnknown effect.now linear.now
            → self.new.unknown ≡ self.old.unknown }
    {
        self.add_terms(linear.terms(), source, effect, negated);
    }

    /// Whether the value is at least 0 for all variables before the step in the source ranges, and all unknown
    /// variables in the target ranges.
    pub fn is_never_negative<S: Ranges, T: Ranges>(&self, source: &S, target: &T) -> bool
        requires { IsLight self.now }
        ensures { IsTrue result ↔ ((before free : Valuation) → LiesIn (S.range_of source.now) before
            → LiesIn (T.range_of target.now) free → pos 0 ≤ℤ value_of_both before free self.now) }
    {
        self.known.least(source) + self.unknown.least(target) >= 0
    }
}
