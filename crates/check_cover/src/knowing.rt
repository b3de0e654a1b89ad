// Which facts hold after a step, and what they leave of a state.

ghost use Rattle.std.specs.List.{All};
ghost use Rattle.std.specs.Prelude.{◌≡◌, ◌↔◌, IsTrue};
ghost use Rattle.check_cover.specs.Covering.{IsKnownFact, tightened_by};

use abs_state::AbsState;
use loop_bounds::{Effect, Linear, becomes, vanishes};

/// Whether a fact is known to hold after a step: rewritten by the effect it is the constant 0, a fact known before, or
/// the negation of one.
fn is_known(facts: &[Linear], before: &AbsState, effect: &Effect, fact: &Linear) -> bool
    ensures { IsTrue result ↔ IsKnownFact facts.now before.now effect.now fact.now }
{
    if vanishes(fact, effect, before) {
        return true;
    }
    for given in facts {
        if becomes(fact, effect, before, given) {
            return true;
        }
    }
    false
}

/// Whether each of the facts `asked` is known to hold after a step.
pub fn are_known(facts: &[Linear], before: &AbsState, effect: &Effect, asked: &[Linear]) -> bool
    ensures { IsTrue result ↔ All (IsKnownFact facts.now before.now effect.now) asked.now }
{
    for fact in asked {
        if !is_known(facts, before, effect, fact) {
            return false;
        }
    }
    true
}

/// A state tightened by facts, each once and in their order; None if nothing is left.
pub fn tightened(facts: &[Linear], state: AbsState) -> Option<AbsState>
    ensures { result ≡ tightened_by facts.now state }
{
    let mut left = state;
    for fact in facts {
        if !left.tighten(fact) {
            return None;
        }
    }
    Some(left)
}
