// Which flag parts are known to hold after a step.
ghost use Rattle.std.specs.Prelude.{◌≡◌, ◌↔◌, ◌⊎◌, All, IsTrue};
ghost use Rattle.abs_state.specs.Variables.{range_of};
ghost use Rattle.abs_state.specs.declared.state.AbsState.{AbsState};
ghost use Rattle.linear_sums.specs.Rewriting.{IsSlight};
ghost use Rattle.check_claims.specs.Claims.{IsClaimedPart, IsConveyedBy, IsToldAfter, IsToldAfterEitherWay, IsToldBack, IsToldBefore, IsToldBeforeEitherWay, TellsAfter, TellsBack, TellsBefore};
ghost use Rattle.check_claims.specs.Truth.{PartLaw};

use crate::rewritings::{Rewriting, are_same, constants_first, variables_first};
use crate::source::StepSource;
use crate::telling::{tells_after, tells_back, tells_before};
use abs_state::AbsState;
use flag_letters::{FlagPart, Letter};
use linear_effects::LinearEffect;
use loop_bounds::{Effect, Linear};

/// Whether a condition over the variables before the step says what the part says.
fn is_conveyed_before(
    facts: &[Linear],
    before: &AbsState,
    rewriting: &Rewriting,
    part: &FlagPart,
    condition: &FlagPart,
) -> bool
    requires { IsSlight rewriting.now.change }
    ensures { IsTrue result
        ↔ IsConveyedBy part.now.letter
        (TellsBefore facts.now (range_of before.now) rewriting.now part.now.linear) condition.now }
{
    if condition.letter != part.letter {
        return false;
    }
    if tells_before(
        facts,
        before,
        rewriting,
        &part.linear,
        false,
        &condition.linear,
    ) {
        return true;
    }
    if part.letter != Letter::Zero {
        return false;
    }
    tells_before(
        facts,
        before,
        rewriting,
        &part.linear,
        true,
        &condition.linear,
    )
}

/// Whether a condition over the variables after the step says what the part says, by the ranges after it.
fn is_conveyed_after(after: &AbsState, part: &FlagPart, condition: &FlagPart) -> bool
    ensures { IsTrue result
        ↔ IsConveyedBy part.now.letter (TellsAfter (range_of after.now) part.now.linear)
        condition.now }
{
    if condition.letter != part.letter {
        return false;
    }
    if tells_after(after, &part.linear, false, &condition.linear) {
        return true;
    }
    if part.letter != Letter::Zero {
        return false;
    }
    tells_after(after, &part.linear, true, &condition.linear)
}

/// Whether a condition over the variables after the step says what the part says, when both are rewritten.
fn is_conveyed_back(
    facts: &[Linear],
    before: &AbsState,
    rewriting: &Rewriting,
    part: &FlagPart,
    condition: &FlagPart,
) -> bool
    requires { IsSlight rewriting.now.change }
    ensures { IsTrue result
        ↔ IsConveyedBy part.now.letter
        (TellsBack facts.now (range_of before.now) rewriting.now part.now.linear) condition.now }
{
    if condition.letter != part.letter {
        return false;
    }
    if tells_back(
        facts,
        before,
        rewriting,
        &part.linear,
        false,
        &condition.linear,
    ) {
        return true;
    }
    if part.letter != Letter::Zero {
        return false;
    }
    tells_back(
        facts,
        before,
        rewriting,
        &part.linear,
        true,
        &condition.linear,
    )
}

/// Whether one of the conditions over the variables before the step says what the part says.
fn is_told_before(
    facts: &[Linear],
    before: &AbsState,
    rewriting: &Rewriting,
    part: &FlagPart,
    conditions: &[FlagPart],
) -> bool
    requires { IsSlight rewriting.now.change }
    ensures { IsTrue result
        ↔ IsToldBefore facts.now (range_of before.now) rewriting.now part.now
        conditions.now }
{
    for condition in conditions {
        if is_conveyed_before(facts, before, rewriting, part, condition) {
            return true;
        }
    }
    false
}

/// Whether one of the conditions over the variables after the step says what the part says, by the ranges after it.
fn is_told_after(after: &AbsState, part: &FlagPart, conditions: &[FlagPart]) -> bool
    ensures { IsTrue result
        ↔ IsToldAfter (range_of after.now) part.now conditions.now }
{
    for condition in conditions {
        if is_conveyed_after(after, part, condition) {
            return true;
        }
    }
    false
}

/// Whether one of the conditions over the variables after the step says what the part says, when both are rewritten.
fn is_told_back(
    facts: &[Linear],
    before: &AbsState,
    rewriting: &Rewriting,
    part: &FlagPart,
    conditions: &[FlagPart],
) -> bool
    requires { IsSlight rewriting.now.change }
    ensures { IsTrue result
        ↔ IsToldBack facts.now (range_of before.now) rewriting.now part.now
        conditions.now }
{
    for condition in conditions {
        if is_conveyed_back(facts, before, rewriting, part, condition) {
            return true;
        }
    }
    false
}

/// Whether a condition before tells the part, with constants first or variables first.
fn is_told_before_either_way(
    facts: &[Linear],
    before: &AbsState,
    settled: &Effect,
    moved: &Effect,
    linear: &Option<LinearEffect>,
    part: &FlagPart,
    conditions: &[FlagPart],
) -> bool
    ensures { IsTrue result
        ↔ IsToldBeforeEitherWay facts.now (range_of before.now) settled.now moved.now linear.now
        part.now conditions.now }
{
    if is_told_before(
        facts,
        before,
        &constants_first(settled, linear),
        part,
        conditions,
    ) {
        return true;
    }
    if are_same(settled, moved, linear) {
        return false;
    }
    is_told_before(
        facts,
        before,
        &variables_first(settled, moved, linear),
        part,
        conditions,
    )
}

/// Whether a condition after tells the part, by the ranges after the step or with variables first.
fn is_told_after_either_way(
    facts: &[Linear],
    before: &AbsState,
    settled: &Effect,
    moved: &Effect,
    linear: &Option<LinearEffect>,
    after: &AbsState,
    part: &FlagPart,
    conditions: &[FlagPart],
) -> bool
    ensures { IsTrue result
        ↔ IsToldAfterEitherWay facts.now (range_of before.now) settled.now moved.now linear.now
        (range_of after.now) part.now conditions.now }
{
    if is_told_after(after, part, conditions) {
        return true;
    }
    is_told_back(
        facts,
        before,
        &variables_first(settled, moved, linear),
        part,
        conditions,
    )
}

impl<'f, 'b, 's, 'm, 'l, 'c> StepSource<'f, 'b, 's, 'm, 'l, 'c> {
    /// Whether a flag part is known to hold after the step, in the state `after` (docs/CHECKER.md, "Claims").
    pub fn knows_part(&self, part: &FlagPart, after: &AbsState) -> bool
        ensures exact { IsTrue result ↔ IsClaimedPart self.now after.now part.now }
        ensures true_after { IsTrue result → PartLaw self.now after.now part.now }
    {
        if is_told_before_either_way(
            self.facts,
            self.before,
            self.settled,
            self.moved,
            self.linear,
            part,
            self.conditions.before(),
        ) {
            return true;
        }
        is_told_after_either_way(
            self.facts,
            self.before,
            self.settled,
            self.moved,
            self.linear,
            after,
            part,
            self.conditions.after(),
        )
    }
    /// Whether a flag part is found to hold after the step, whatever the state after it: conditions are not compared by
    /// the ranges after the step.
    fn tells_part(&self, part: &FlagPart) -> bool
        ensures { IsTrue result → ((after : AbsState) → IsClaimedPart self.now after part.now) }
    {
        if is_told_before_either_way(
            self.facts,
            self.before,
            self.settled,
            self.moved,
            self.linear,
            part,
            self.conditions.before(),
        ) {
            return true;
        }
        is_told_back(
            self.facts,
            self.before,
            &variables_first(self.settled, self.moved, self.linear),
            part,
            self.conditions.after(),
        )
    }
    /// Whether each of the flag parts is.
    pub fn tells_parts(&self, parts: &[FlagPart]) -> bool
        ensures { IsTrue result → ((after : AbsState) → All (IsClaimedPart self.now after) parts.now) }
    {
        for part in parts {
            if !self.tells_part(part) {
                return false;
            }
        }
        true
    }
    /// Whether each of the flag parts is.
    pub fn knows_parts(&self, parts: &[FlagPart], after: &AbsState) -> bool
        ensures { IsTrue result ↔ All (IsClaimedPart self.now after.now) parts.now }
    {
        for part in parts {
            if !self.knows_part(part, after) {
                return false;
            }
        }
        true
    }
}
