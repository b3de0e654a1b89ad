// The two ways to rewrite a linear over the variables after a step.
ghost use Rattle.std.specs.Prelude.{◌≡◌, ◌↔◌, ◌≤◌, All, IsTrue, IfSome, unsigned_abs};
ghost use Rattle.linear_sums.specs.Rewriting.{IsSlight, rewritten};
ghost use Rattle.linear_sums.specs.Sum.{IsMadeOf};
ghost use Rattle.check_claims.specs.Rewritings.{is_slight, slight_change, unless_constant, change_or, slot_or, effect_or, constants_first, variables_first};

use crate::equality::are_equal;
use linear_effects::LinearEffect;
use linear_sums::{LinearChange, Sum, rewritten};
use loop_bounds::{Change, Effect, Linear, Part, SlotChange, Variable};

/// What a step leaves in the variables: an effect, and perhaps a linear, which has priority for its variable.
#[derive(Clone, Copy)]
pub struct Rewriting {
    pub effect: Effect,
    pub change: Option<LinearChange>,
}

/// Whether all coefficients are at most 256 in size.
fn is_slight(linear: &Linear) -> bool
    ensures { result ≡ is_slight linear.now }
{
    linear
        .terms()
        .iter()
        .all(|term| term.coefficient.unsigned_abs() <= 256)
}

/// The linear effect as a change of its variable, if its coefficients are at most 256 in size, as those of every
/// instruction are.
fn slight_change(linear: &Option<LinearEffect>) -> Option<LinearChange>
    ensures exact { result ≡ slight_change linear.now }
    ensures slight { IsSlight result }
{
    let effect = (*linear)?;
    if is_slight(&effect.linear) {
        Some(LinearChange {
            variable: effect.variable,
            value: effect.linear,
        })
    } else {
        None
    }
}

/// The change by a linear, unless the effect makes its variable a constant.
fn unless_constant(effect: &Effect, change: Option<LinearChange>) -> Option<LinearChange>
    ensures exact { result ≡ unless_constant effect.now change }
    ensures slight { IsSlight change → IsSlight result }
{
    let linear = change?;
    match effect.change(linear.variable) {
        Change::Constant(_) => None,
        _ => Some(linear),
    }
}

/// The change, or another one where it is unknown.
fn change_or(change: Change, other: Change) -> Change
    ensures { result ≡ change_or change other }
{
    match change {
        Change::Unknown => other,
        known => known,
    }
}

/// The change of a slot, or what an effect leaves in that slot where it is unknown.
fn slot_or(slot: Option<SlotChange>, other: &Effect) -> Option<SlotChange>
    ensures { result ≡ slot_or slot other.now }
{
    match slot {
        None => None,
        Some(slot) => {
            let number = slot.number;
            Some(SlotChange {
                number,
                word: change_or(slot.word, other.change(Variable::Slot(number, Part::Word))),
                high: change_or(slot.high, other.change(Variable::Slot(number, Part::High))),
                low: change_or(slot.low, other.change(Variable::Slot(number, Part::Low))),
            })
        }
    }
}

/// The effect, or another one where it is unknown.
fn effect_or(effect: &Effect, other: &Effect) -> Effect
    ensures { result ≡ effect_or effect.now other.now }
{
    Effect {
        a: change_or(effect.a, other.a),
        b: change_or(effect.b, other.b),
        c: change_or(effect.c, other.c),
        d: change_or(effect.d, other.d),
        e: change_or(effect.e, other.e),
        h: change_or(effect.h, other.h),
        l: change_or(effect.l, other.l),
        bc: change_or(effect.bc, other.bc),
        de: change_or(effect.de, other.de),
        hl: change_or(effect.hl, other.hl),
        ix: change_or(effect.ix, other.ix),
        iy: change_or(effect.iy, other.iy),
        slot: slot_or(effect.slot, other),
    }
}

/// Constants have priority, then the linear, then variables.
pub fn constants_first(settled: &Effect, linear: &Option<LinearEffect>) -> Rewriting
    ensures exact { result ≡ constants_first settled.now linear.now }
    ensures slight { IsSlight result.change }
{
    Rewriting {
        effect: *settled,
        change: unless_constant(settled, slight_change(linear)),
    }
}

/// The linear has priority, then variables, then constants.
pub fn variables_first(settled: &Effect, moved: &Effect, linear: &Option<LinearEffect>) -> Rewriting
    ensures exact { result ≡ variables_first settled.now moved.now linear.now }
    ensures slight { IsSlight result.change }
{
    Rewriting {
        effect: effect_or(moved, settled),
        change: slight_change(linear),
    }
}

/// Whether both ways are one: there is no linear effect, and constants have changed nothing.
pub(crate) fn are_same(settled: &Effect, moved: &Effect, linear: &Option<LinearEffect>) -> bool
    ensures { IsTrue result → variables_first settled.now moved.now linear.now
        ≡ constants_first settled.now linear.now }
{
    linear.is_none() && are_equal(settled, moved)
}

/// The linear as a sum over the variables before the step; None if a variable is unknown. The sum takes 13 parts of its
/// room.
pub(crate) fn rewritten_by(rewriting: &Rewriting, linear: &Linear) -> Option<Sum>
    requires { IsSlight rewriting.now.change }
    ensures exact { result ≡ rewritten rewriting.now.effect rewriting.now.change linear.now }
    ensures room { IfSome result (IsMadeOf 13) }
{
    rewritten(linear, &rewriting.effect, &rewriting.change)
}
