// Where a state arrives, and from where it comes.

ghost use Rattle.std.specs.Prelude.{◌≡◌, ◌↔◌, IfSome, IsSomeAnd, IsTrue};
ghost use Rattle.std.specs.List.{All};
ghost use Rattle.check_cover.specs.Arrival.{source_of};
ghost use Rattle.check_cover.specs.Covering.{CoversArrival, CoversTightened, KnowsFact, KnowsPart, Suits};
ghost use Rattle.check_cover.specs.Whole.{FitsState, HasClaims, KnowsClaims};

use crate::claims::have_same_claims;
use crate::knowing::{are_known, tightened};
use crate::rows::{covers_state, is_plain, keeps_state};
use abs_state::AbsState;
use call_graph::ProcId;
use cert_lines::RowRef;
use check_claims::StepSource;
use flag_conditions::StepConditions;
use linear_effects::LinearEffect;
use loop_bounds::{Effect, Linear};
use std::marker::Model;

/// What version 3 adds to a step.
#[derive(Drop)]
pub struct Refinement<'a> {
    /// The effect without priority for constants.
    pub moved: &'a Effect,
    /// The variable that the step makes a linear of the variables before it, if there is one.
    pub linear: &'a Option<LinearEffect>,
    /// What the step makes of the flags.
    pub conditions: &'a StepConditions,
}

impl<'a> Model for Refinement<'a> {
    ghost use Rattle.check_cover.specs.Arrival.{RefinementView};

    ghost Value = { RefinementView };

    ghost view = { λ r. record {
      moved = r.moved.now;
      linear = r.linear.now;
      conditions = r.conditions.now;
    } };
}

/// A state arrives at an address of a procedure, from a row with these facts and the state `before`, by a step with
/// this effect, and in version 3 with what that version adds.
#[derive(Drop)]
pub struct Arrival<'a, 'r> {
    pub proc: ProcId,
    pub address: u16,
    pub facts: &'a [Linear],
    pub before: &'a AbsState,
    pub effect: &'a Effect,
    pub refined: Option<Refinement<'r>>,
}

impl<'a, 'r> Model for Arrival<'a, 'r> {
    ghost use Rattle.check_cover.specs.Arrival.{ArrivalView};

    ghost Value = { ArrivalView };

    ghost view = { λ a. record {
      proc = a.proc;
      address = a.address;
      facts = a.facts.now;
      before = a.before.now;
      effect = a.effect.now;
      refined = a.refined;
    } };
}

impl<'a, 'r> Arrival<'a, 'r> {
    /// Whether a row covers the state that arrives. Ranges are compared first, since claims take longer; those of a row
    /// whose claims are known are not judged again.
    pub(crate) fn is_covered_by(
        &self,
        state: &AbsState,
        row: &RowRef,
        known: Option<&RowRef>,
    ) -> bool
        requires { IfSome known (λ k. KnowsClaims self.now k.now) }
        ensures { IsTrue result ↔ CoversArrival self.now state.now row.now }
    {
        if is_plain(row) {
            return covers_state(row, state);
        }
        fits(row, state) && (has_known_claims(row, known) || self.has_claims(row, state))
    }

    /// Whether each claim of the row is known to hold in this state.
    fn has_claims(&self, row: &RowRef, state: &AbsState) -> bool
        ensures { IsTrue result ↔ HasClaims self.now state.now row.now }
    {
        self.knows_facts(row) && self.knows_parts(row, state)
    }

    /// Whether each claim of the row is found to hold, whatever state arrives.
    pub(crate) fn knows_claims(&self, row: &RowRef) -> bool
        ensures { IsTrue result → KnowsClaims self.now row.now }
    {
        self.knows_facts(row) && self.tells_parts(row)
    }

    /// Whether each flag part of the row is found to hold, whatever state arrives.
    fn tells_parts(&self, row: &RowRef) -> bool
        ensures { IsTrue result → ((state : AbsState) → All (KnowsPart self.now self.now.refined state) row.now.parts) }
    {
        match &self.refined {
            None => row.parts.is_empty(),
            Some(refined) => self.source(refined).tells_parts(row.parts.parts()),
        }
    }

    /// Whether each fact of the row is known to hold.
    fn knows_facts(&self, row: &RowRef) -> bool
        ensures { IsTrue result ↔ All (KnowsFact self.now self.now.refined) row.now.facts }
    {
        match &self.refined {
            None => are_known(self.facts, self.before, self.effect, row.facts.as_slice()),
            Some(refined) => self.source(refined).knows_facts(row.facts.as_slice()),
        }
    }

    /// Whether each flag part of the row is known to hold.
    fn knows_parts(&self, row: &RowRef, state: &AbsState) -> bool
        ensures { IsTrue result
            ↔ All (KnowsPart self.now self.now.refined state.now) row.now.parts }
    {
        match &self.refined {
            None => row.parts.is_empty(),
            Some(refined) => self.source(refined).knows_parts(row.parts.parts(), state),
        }
    }

    /// What claims after the step are judged by.
    fn source(&self, refined: &Refinement<'r>) -> StepSource<'a, 'a, 'a, 'r, 'r, 'r>
        ensures { result ≡ source_of self.now refined.now }
    {
        StepSource {
            facts: self.facts,
            before: self.before,
            settled: self.effect,
            moved: refined.moved,
            linear: refined.linear,
            conditions: refined.conditions,
        }
    }
}

/// Whether a row covers what its facts leave of a state, and has its origins and its flag fact. Claims are not looked
/// at.
fn fits(row: &RowRef, state: &AbsState) -> bool
    ensures { IsTrue result ↔ FitsState row.now state.now }
{
    suits(row, state) && keeps_state(row, state) && covers_tightened(row, state)
}

/// Whether a row is found to have the claims of a row that is known, if there is one.
fn has_known_claims(row: &RowRef, known: Option<&RowRef>) -> bool
    ensures { IsTrue result → IsSomeAnd known.entry (λ k. (row.now.facts ≡ k.now.facts) × (row.now.parts ≡ k.now.parts)) }
{
    match known {
        Some(other) => have_same_claims(row, other),
        None => false,
    }
}

/// Whether the shapes have one length, the row's mode covers the state's, and the row has no more armed cells.
fn suits(row: &RowRef, state: &AbsState) -> bool
    ensures { IsTrue result ↔ Suits row.now state.now }
{
    row.shape.len() == state.shape.len() && row.mode.covers(state.mode) && row.armed <= state.armed
}

/// Whether the row covers the state tightened by the row's facts, or nothing is left of it.
fn covers_tightened(row: &RowRef, state: &AbsState) -> bool
    ensures { IsTrue result ↔ CoversTightened row.now state.now }
{
    match tightened(row.facts.as_slice(), state.copied()) {
        Some(left) => covers_state(row, &left),
        None => true,
    }
}
