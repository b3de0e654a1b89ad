// Which facts are known to hold after a step.
ghost use Rattle.std.specs.Prelude.{◌↔◌, All, IsTrue};
ghost use Rattle.abs_state.specs.Variables.{range_of};
ghost use Rattle.linear_sums.specs.Rewriting.{IsSlight};
ghost use Rattle.check_claims.specs.Claims.{BecomesZero, BecomesZeroEitherWay, IsClaimedFact};
ghost use Rattle.check_claims.specs.Truth.{FactLaw};

use crate::rewritings::{Rewriting, are_same, constants_first, rewritten_by, variables_first};
use crate::source::StepSource;
use crate::zeros::is_zero_by;
use abs_state::AbsState;
use linear_effects::LinearEffect;
use loop_bounds::{Effect, Linear};

/// Whether a fact, rewritten, is 0 by the facts of the row before the step.
fn becomes_zero(facts: &[Linear], before: &AbsState, rewriting: &Rewriting, fact: &Linear) -> bool
    requires { IsSlight rewriting.now.change }
    ensures { IsTrue result ↔ BecomesZero facts.now (range_of before.now) rewriting.now fact.now }
{
    match rewritten_by(rewriting, fact) {
        Some(sum) => is_zero_by(facts, before, &sum),
        None => false,
    }
}

/// Whether a fact becomes 0 with constants first or with variables first.
fn becomes_zero_either_way(
    facts: &[Linear],
    before: &AbsState,
    settled: &Effect,
    moved: &Effect,
    linear: &Option<LinearEffect>,
    fact: &Linear,
) -> bool
    ensures { IsTrue result
        ↔ BecomesZeroEitherWay facts.now (range_of before.now) settled.now moved.now linear.now
        fact.now }
{
    if becomes_zero(facts, before, &constants_first(settled, linear), fact) {
        return true;
    }
    if are_same(settled, moved, linear) {
        return false;
    }
    becomes_zero(
        facts,
        before,
        &variables_first(settled, moved, linear),
        fact,
    )
}

impl<'f, 'b, 's, 'm, 'l, 'c> StepSource<'f, 'b, 's, 'm, 'l, 'c> {
    /// Whether a fact is known to hold after the step (docs/CHECKER.md, "Claims").
    pub fn knows_fact(&self, fact: &Linear) -> bool
        ensures exact { IsTrue result ↔ IsClaimedFact self.now fact.now }
        ensures true_after { IsTrue result → FactLaw self.now fact.now }
    {
        becomes_zero_either_way(
            self.facts,
            self.before,
            self.settled,
            self.moved,
            self.linear,
            fact,
        )
    }
    /// Whether each of the facts is.
    pub fn knows_facts(&self, facts: &[Linear]) -> bool
        ensures { IsTrue result ↔ All (IsClaimedFact self.now) facts.now }
    {
        for fact in facts {
            if !self.knows_fact(fact) {
                return false;
            }
        }
        true
    }
}
