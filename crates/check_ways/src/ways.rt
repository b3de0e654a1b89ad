// A way: a successor within a procedure, and the rows to which it leads.

ghost use Rattle.std.specs.Prelude.{◌≡◌, ◌≤◌, ◌<◌, ◌↔◌, ◌⊎◌, ℕ, Contains, Some, IsTrue, length, slice_get, unwrap_or};
ghost use Rattle.abs_state.specs.Covers.{OverlapsState};
ghost use Rattle.check_cover.specs.Program.{callee_at};
ghost use Rattle.cert_lines.specs.declared.row.Row.{Row};
ghost use Rattle.check_ways.specs.Pays.{Lands};
ghost use Rattle.check_ways.specs.Ways.{IsTold, call_cost, jump_way, return_way};

use crate::only_row::is_lone;
use crate::subject::Subject;
use abs_draft::settled;
use abs_state::AbsState;
use abs_step::Next;
use call_graph::ProcId;
use cert_contents::{Certificate, RowId};
use cert_lines::{RowRef, Version};
use check_cover::Callee;
use check_steps::effect_back;
use loop_bounds::{Effect, Linear};
use refined_step::StepTold;
use std::marker::Model;
use std::ops::Range;

/// A way: where it arrives, with the facts and the state of the row from which it comes, the effect, the state that
/// arrives, and the cost in T-states.
#[derive(Drop)]
pub struct Way<'a> {
    pub proc: ProcId,
    pub address: u16,
    pub facts: &'a [Linear],
    pub before: &'a AbsState,
    pub effect: Effect,
    /// The effect without priority for constants.
    pub moved: Effect,
    pub told: &'a StepTold,
    pub version: Version,
    pub state: AbsState,
    /// At most 1,000,000,023 T-states; the callee's time is in it where the way leads through a call.
    pub cost: u32,
}

impl<'a> Model for Way<'a> {
    ghost use Rattle.check_steps.specs.Told.{refinement_by};
    ghost use Rattle.check_ways.specs.Ways.{WayView};

    ghost Value = { WayView };

    ghost view = { λ w. record {
      arrival = record { proc = w.proc; address = w.address; facts = w.facts.now; before = w.before.now; effect = w.effect; refined = refinement_by w.version w.told.now w.moved };
      state = w.state;
      cost = w.cost;
    } };
}

impl<'a> Subject<'a> {
    /// The way of a jump. Going on to the next address is a jump too.
    pub(crate) fn jump_way<'s>(&'s self, next: &Next, told: &'s StepTold) -> Way<'s>
        requires { IsTold self.now told.now }
        ensures { result ≡ jump_way self.now next.now }
    {
        Way {
            proc: self.proc_after(),
            address: next.address,
            facts: self.row.facts.as_slice(),
            before: &self.state,
            effect: next.effect,
            moved: next.moved,
            told,
            version: self.certificate.version(),
            state: self.state_after(next),
            cost: u32::from(next.cost),
        }
    }

    /// The way through a call and back, where the callee leaves in the state `exit`.
    pub fn return_way<'s>(&'s self, next: &Next, callee: &Callee, exit: &AbsState) -> Way<'s>
        requires { callee_at self.now.cert next.now.address ≡ Some callee.now }
        ensures { result ≡ return_way self.now next.now callee.now exit.now }
    {
        let version = self.certificate.version();
        let state = next.state.after_call(exit);
        let effect = settled(&effect_back(version, &next.effect, exit), &state);
        Way {
            proc: self.row.proc,
            address: self.behind,
            facts: self.row.facts.as_slice(),
            before: &self.state,
            effect,
            moved: effect_back(version, &next.moved, exit),
            told: self.untold(),
            version,
            state,
            cost: self.call_cost(next, callee),
        }
    }

    /// The T-states of a call and its callee's time, at most 1,000,000,023. A callee without a time adds none.
    pub fn call_cost(&self, next: &Next, callee: &Callee) -> u32
        requires { callee_at self.now.cert next.now.address ≡ Some callee.now }
        ensures { result ≡ call_cost next.now callee.now }
    {
        // By the form, a time is at most 1,000,000,000.
        self.certificate.is_in_form();
        call_cost(next, callee)
    }
}

/// The same, for a callee with a time of at most 1,000,000,000.
fn call_cost(next: &Next, callee: &Callee) -> u32
    requires { unwrap_or callee.now.proc.time 0 ≤ 1000000000 }
    ensures { result ≡ call_cost next.now callee.now }
{
    u32::from(next.cost) + callee.proc.time.unwrap_or(0)
}

impl<'a> Way<'a> {
    /// The numbers of the rows where the way arrives.
    pub(crate) fn rows(&self, certificate: &Certificate) -> Range<RowId>
        ensures within { result.end ≤ length certificate.now.rows }
        ensures at { (k : ℕ) (row : Row) → slice_get certificate.now.rows k ≡ Some row
            → ((result.start ≤ k) × (k < result.end)) ↔ ((row.proc ≡ self.now.arrival.proc) × (row.address ≡ self.now.arrival.address)) }
    {
        certificate.rows_at(self.proc, self.address)
    }

    /// Whether a row where the way arrives is asked: it is the only one there, or its state overlaps what arrives.
    pub(crate) fn asks(&self, lone: bool, row: &RowRef) -> bool
        ensures { IsTrue result ↔ (IsTrue lone ⊎ OverlapsState row.now.state self.now.state) }
    {
        lone || row.overlaps(&self.state)
    }

    /// Whether the way arrives at this row of the certificate, and the row is asked.
    pub fn lands(&self, certificate: &Certificate, row: &RowRef) -> bool
        requires { Contains certificate.now.rows row.now }
        ensures { IsTrue result ↔ Lands certificate.now self.now row.now }
    {
        if row.proc != self.proc || row.address != self.address {
            return false;
        }
        self.asks(false, row) || is_lone(certificate, self.proc, self.address)
    }
}
