// What a potential comes to where a loop is entered.

ghost use Rattle.std.specs.Prelude.{◌≡◌, ◌≤◌, ◌↔◌, IfSome, IsTrue};
ghost use Rattle.check_ways.specs.Pays.{constant_sum};
ghost use Rattle.dearest_way.specs.Worth.{AreTurns, IsBound, IsLeast, IsMost, box_at};

use crate::entered::Entered;
use crate::parts::LoopTurns;
use check_ways::constant_sum;
use loop_bounds::{Effect, GREATEST_CONSTANT, Linear, Ranges, decreases};

/// What a potential comes to: the most T-states, and the turns of a loop that they pay for.
#[derive(Clone, Copy)]
pub(crate) struct Worth {
    pub(crate) most: u32,
    pub(crate) turns: Option<LoopTurns>,
}

/// The most that a linear comes to over ranges.
pub(crate) fn greatest(linear: &Linear, ranges: &Entered) -> i64 {
    let mut sum = i64::from(linear.constant());
    for term in linear.terms() {
        let range = ranges.range(term.variable);
        let value = if term.coefficient < 0 {
            range.low()
        } else {
            range.high()
        };
        let product = i64::from(term.coefficient).saturating_mul(i64::from(value));
        sum = sum.saturating_add(product);
    }
    sum
}

/// Whether a number of T-states is at least what a potential comes to over ranges.
fn is_bound(most: u32, potential: &Linear, ranges: &Entered) -> bool
    requires { most ≤ 1000000000 }
    ensures { IsTrue result
        ↔ IsBound (box_at ranges.now.own.now ranges.now.arriving.now) potential.now most }
{
    let bound = constant_sum(most);
    let target = Entered {
        own: ranges.own,
        arriving: ranges.arriving,
    };
    decreases(&bound, potential, 0, &Effect::unchanged(), ranges, &target)
}

/// Whether one T-state fewer is not at least what a potential comes to over ranges.
fn is_least(most: u32, potential: &Linear, ranges: &Entered) -> bool
    requires { most ≤ 1000000000 }
    ensures { IsTrue result
        → IsLeast (box_at ranges.now.own.now ranges.now.arriving.now) potential.now most }
{
    if most == 0 {
        return true;
    }
    !is_bound(most - 1, potential, ranges)
}

/// What a potential comes to over ranges; None if that is below 0 or above 1,000,000,000.
pub(crate) fn worth_in(potential: &Linear, ranges: &Entered) -> Option<Worth>
    ensures most { IfSome result (λ worth.
        IsMost (box_at ranges.now.own.now ranges.now.arriving.now) potential.now worth.most) }
    ensures turns { IfSome result (λ worth. IfSome worth.turns
        (AreTurns (box_at ranges.now.own.now ranges.now.arriving.now) potential.now)) }
{
    let most = u32::try_from(greatest(potential, ranges)).ok()?;
    if most > GREATEST_CONSTANT {
        return None;
    }
    if !is_bound(most, potential, ranges) {
        return None;
    }
    if !is_least(most, potential, ranges) {
        return None;
    }
    Some(Worth {
        most,
        turns: turns_in(potential, ranges),
    })
}

/// The turns of a loop whose potential is a constant and a positive multiple of one variable; None for another one.
fn turns_in(potential: &Linear, ranges: &Entered) -> Option<LoopTurns>
    ensures { IfSome result
        (AreTurns (box_at ranges.now.own.now ranges.now.arriving.now) potential.now) }
{
    let [term] = potential.terms() else {
        return None;
    };
    if term.coefficient <= 0 {
        return None;
    }
    Some(LoopTurns {
        count: ranges.range(term.variable).high(),
        cost: term.coefficient.unsigned_abs(),
    })
}
