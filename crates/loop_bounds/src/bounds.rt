// The exact tests on linears: whether one decreases, vanishes, or becomes another.
ghost use Rattle.std.specs.Prelude.{◌≡◌, ◌↔◌, ◌⊎◌, ◌≢◌, ◌<◌, ◌≤◌, ◌^◌, All, IsTrue, not, pos, ◌+ℤ◌, ◌-ℤ◌, unsigned_abs};
ghost use Rattle.loop_bounds.specs.declared.effect.Change.TheVariants.{Unknown};
ghost use Rattle.loop_bounds.specs.Linear.{value};
ghost use Rattle.loop_bounds.specs.Effect.{Valuation, whole, after, after_from, HasNoUnknown, change_of};
ghost use Rattle.loop_bounds.specs.Signed.{signed};
ghost use Rattle.loop_bounds.specs.Rewritten.{value_of_both, IsWithinRoom};
ghost use Rattle.loop_bounds.specs.Bounds.{Decreases, Vanishes, Becomes, BecomesNegation};

use crate::effect::{Change, Effect};
use crate::linear::{Linear, Term};
use crate::ranges::{Ranges, Unbounded};
use crate::rewritten::Rewritten;

/// Whether `from` - `cost` - `to` is at least 0, with `to` rewritten by the effect. The variables take all values of
/// the source ranges. Those that are unknown after the step take all values of the target ranges, independent of the
/// source. Each variable ranges by itself, also BC and B. `cost` is in T-states. No number wraps.
pub fn decreases<S: Ranges, T: Ranges>(
    from: &Linear,
    to: &Linear,
    cost: u32,
    effect: &Effect,
    source: &S,
    target: &T,
) -> bool
    ensures { IsTrue result
        ↔ Decreases from.now to.now cost effect.now (S.range_of source.now) (T.range_of target.now) }
{
    left_after(from, to, cost, effect).is_never_negative(source, target)
}

/// `from` - `cost` - `to`, with `to` rewritten by the effect.
pub(crate) fn left_after(from: &Linear, to: &Linear, cost: u32, effect: &Effect) -> Rewritten
    ensures value { (before free : Valuation) → value_of_both before free result
        ≡ value (whole before) from.now -ℤ pos cost -ℤ value (after effect.now before free) to.now }
    ensures room { IsWithinRoom 6 result }
{
    let mut left = Rewritten::new(constant_left(from, cost, to));
    left.add_linear(from, &Unbounded, &Effect::unchanged(), false);
    left.add_linear(to, &Unbounded, effect, true);
    left
}

/// The constant of `from` minus the cost minus the constant of `to`.
fn constant_left(from: &Linear, cost: u32, to: &Linear) -> i128
    ensures value { result ≡ from.now.constant -ℤ pos cost -ℤ to.now.constant }
    ensures size { unsigned_abs result < 2 ^ 40 }
{
    wide_constant(from) - i128::from(cost) - wide_constant(to)
}

/// The constant of the fact minus that of the given linear, or their sum if the given linear is negated.
fn constant_between(fact: &Linear, given: &Linear, negated: bool) -> i128
    ensures value { result ≡ fact.now.constant +ℤ signed (not negated) given.now.constant }
    ensures size { unsigned_abs result < 2 ^ 40 }
{
    let (constant, of_given) = (wide_constant(fact), wide_constant(given));
    if negated {
        constant + of_given
    } else {
        constant - of_given
    }
}

/// The constant of a linear, as 128 bits.
fn wide_constant(linear: &Linear) -> i128
    ensures value { result ≡ linear.now.constant }
    ensures size { unsigned_abs result ≤ 1000000000 }
{
    i128::from(linear.constant())
}

/// Whether no term has a variable that is unknown after the step.
fn have_no_unknown(terms: &[Term], effect: &Effect) -> bool
    ensures { IsTrue result ↔ All (λ t. change_of effect.now t.variable ≢ Unknown) terms.now }
{
    terms
        .iter()
        .all(|term| effect.change(term.variable) != Change::Unknown)
}

/// Whether the linear has no variable that is unknown after the step.
fn has_no_unknown(linear: &Linear, effect: &Effect) -> bool
    ensures { IsTrue result ↔ HasNoUnknown effect.now linear.now }
{
    have_no_unknown(linear.terms(), effect)
}

/// Whether the fact, rewritten by the effect, has no unknown variable and is the constant 0. An unchanged variable
/// counts as a constant if its source range has one value.
pub fn vanishes<S: Ranges>(fact: &Linear, effect: &Effect, source: &S) -> bool
    ensures { IsTrue result ↔ Vanishes fact.now effect.now (S.range_of source.now) }
{
    if !has_no_unknown(fact, effect) {
        return false;
    }
    let mut left = Rewritten::new(wide_constant(fact));
    left.add_linear(fact, source, effect, false);
    left.known.is_zero()
}

/// Whether the fact, rewritten by the effect, has no unknown variable and is the given linear (its negation if
/// `negated`).
fn is_rewritten_to<S: Ranges>(
    fact: &Linear,
    effect: &Effect,
    source: &S,
    given: &Linear,
    negated: bool,
) -> bool
    ensures { IsTrue result ↔ (HasNoUnknown effect.now fact.now × ((before free : Valuation)
        → value (after_from (S.range_of source.now) effect.now before free) fact.now ≡ signed negated (value (whole before) given.now))) }
{
    if !has_no_unknown(fact, effect) {
        return false;
    }
    let mut left = Rewritten::new(constant_between(fact, given, negated));
    left.add_linear(fact, source, effect, false);
    left.add_linear(given, &Unbounded, &Effect::unchanged(), !negated);
    left.known.is_zero()
}

/// Whether the fact, rewritten by the effect, has no unknown variable and is the given linear or its negation. An
/// unchanged variable counts as a constant if its source range has one value. The given linear is taken as it is.
pub fn becomes<S: Ranges>(fact: &Linear, effect: &Effect, source: &S, given: &Linear) -> bool
    ensures { IsTrue result ↔ (Becomes fact.now effect.now (S.range_of source.now) given.now
        ⊎ BecomesNegation fact.now effect.now (S.range_of source.now) given.now) }
{
    is_rewritten_to(fact, effect, source, given, false)
        || is_rewritten_to(fact, effect, source, given, true)
}
