// Whether each successor of a row is covered.

ghost use Rattle.std.specs.Prelude.{◌≡◌, ◌↔◌, IsTrue, Ok};
ghost use Rattle.std.specs.List.{All};
ghost use Rattle.abs_state.specs.Entries.{after_call, callee_entry};
ghost use Rattle.check_cover.specs.Covering.{Covered};
ghost use Rattle.check_cover.specs.Program.{callee_at};
ghost use Rattle.check_ways.specs.Parts.{AtEachExit, CallGoesOn, IsCoveredWay, NextGoesOn, OnEachExit, OnEachLeft, ReturnCovered, WideCovered, WideCoveredWhole, WidesCovered};
ghost use Rattle.check_ways.specs.Ways.{GoesOn, IsTold, arrival_at_entry, jump_way, state_after, step_of};

use crate::subject::Subject;
use abs_draft::settled;
use abs_state::AbsState;
use abs_step::{Next, NextKind};
use cert_contents::RowId;
use cert_lines::Version;
use check_cover::{Callee, Coverer, callee_at};
use check_steps::{effect_back, restarted};
use check_tables::{Left, ProcExits};
use refined_step::StepTold;

/// Whether a jump arrives in a covered state.
fn jump_is_covered(subject: &Subject, next: &Next, told: &StepTold, coverer: &mut Coverer) -> bool
    requires { IsTold subject.now told.now }
    ensures exact { IsTrue result ↔ IsCoveredWay coverer.old (jump_way subject.now next.now) }
    ensures same { coverer.new ≡ coverer.old }
{
    if subject.restarts() {
        jump_to_is_covered(subject, next, told, &restarted(&next.state), coverer)
    } else {
        jump_to_is_covered(subject, next, told, &next.state, coverer)
    }
}

/// Whether a jump that arrives in this state is covered.
fn jump_to_is_covered(
    subject: &Subject,
    next: &Next,
    told: &StepTold,
    state: &AbsState,
    coverer: &mut Coverer,
) -> bool
    requires told { IsTold subject.now told.now }
    requires state { state.now ≡ state_after subject.now next.now.state }
    ensures exact { IsTrue result ↔ IsCoveredWay coverer.old (jump_way subject.now next.now) }
    ensures same { coverer.new ≡ coverer.old }
{
    let proc = subject.proc_after();
    let arrival = subject.arrival_at(proc, next.address, &next.effect, &next.moved, told);
    coverer.covers(&arrival, state)
}

/// Whether a call enters its callee in a covered state.
fn entry_is_covered(subject: &Subject, next: &Next, callee: &Callee, coverer: &mut Coverer) -> bool
    ensures exact { IsTrue result
        ↔ Covered coverer.old (arrival_at_entry subject.now next.now callee.now)
        (callee_entry next.now.state) }
    ensures same { coverer.new ≡ coverer.old }
{
    let said = subject.untold();
    let arrival = subject.arrival_at(callee.number, next.address, &next.effect, &next.moved, said);
    coverer.covers(&arrival, &next.state.callee())
}

/// Whether a call comes back in a covered state, from this exit of its callee.
fn return_is_covered(
    subject: &Subject,
    next: &Next,
    callee: &Callee,
    exit: &AbsState,
    coverer: &mut Coverer,
) -> bool
    ensures exact { IsTrue result
        ↔ ReturnCovered coverer.old subject.now next.now callee.now exit.now }
    ensures same { coverer.new ≡ coverer.old }
{
    let after = next.state.after_call(exit);
    let version = subject.certificate.version();
    let effect = settled(&effect_back(version, &next.effect, exit), &after);
    let moved = effect_back(version, &next.moved, exit);
    let arrival = subject.arrival_at(
        subject.row.proc,
        subject.behind,
        &effect,
        &moved,
        subject.untold(),
    );
    coverer.covers(&arrival, &after)
}

/// Whether a call comes back in a covered state from the exit of this row of its callee, if the row has one.
fn row_is_covered(
    subject: &Subject,
    next: &Next,
    callee: &Callee,
    id: RowId,
    coverer: &mut Coverer,
) -> bool
    ensures exact { IsTrue result
        ↔ AtEachExit subject.now id (ReturnCovered coverer.old subject.now next.now callee.now) }
    ensures same { coverer.new ≡ coverer.old }
{
    match subject.exit_at(id) {
        Some(exit) => return_is_covered(subject, next, callee, &exit, coverer),
        None => true,
    }
}

/// Whether a call comes back in a covered state from each exit of its callee.
fn returns_are_covered(
    subject: &Subject,
    next: &Next,
    callee: &Callee,
    coverer: &mut Coverer,
) -> bool
    ensures exact { IsTrue result
        ↔ OnEachExit subject.now callee.now.number
        (ReturnCovered coverer.old subject.now next.now callee.now) }
    ensures same { coverer.new ≡ coverer.old }
{
    // By the form, the procedure of each row exists.
    subject.certificate.is_in_form();
    match subject.exits_kept(callee.number) {
        Some(exits) => {
            wides_are_covered(subject, next, exits, coverer)
                || lefts_are_covered(subject, next, callee, exits.lefts(), coverer)
        }
        None => rows_are_covered(subject, next, callee, coverer),
    }
}

/// Whether for each of the states that cover the callee's exits one row is found that covers the state after the call
/// from it, and so that from each exit. False without such states.
fn wides_are_covered(
    subject: &Subject,
    next: &Next,
    exits: &ProcExits,
    coverer: &mut Coverer,
) -> bool
    ensures found { IsTrue result
        → WidesCovered coverer.old subject.now next.now exits.now.wides }
    ensures same { coverer.new ≡ coverer.old }
{
    let wides = exits.wides();
    if wides.is_empty() {
        return false;
    }
    for wide in wides {
        if !wide_is_covered(subject, next, wide, coverer) {
            return false;
        }
    }
    true
}

/// Whether one row is found that covers the state after the call from an exit in this state, and so that from each exit
/// that it covers.
fn wide_is_covered(subject: &Subject, next: &Next, wide: &AbsState, coverer: &mut Coverer) -> bool
    ensures found { IsTrue result → WideCovered coverer.old subject.now next.now wide.now }
    ensures same { coverer.new ≡ coverer.old }
{
    let after = next.state.after_call(wide);
    coverer.covers_plainly(subject.row.proc, subject.behind, &after)
        || wide_is_covered_whole(subject, next, wide, &after, coverer)
}

/// The same in version 3 by a row with claims, which have to be known without the constants of the state after the
/// call.
fn wide_is_covered_whole(
    subject: &Subject,
    next: &Next,
    wide: &AbsState,
    after: &AbsState,
    coverer: &mut Coverer,
) -> bool
    requires { after.now ≡ after_call next.now.state wide.now }
    ensures found { IsTrue result
        → WideCoveredWhole coverer.old subject.now next.now wide.now }
    ensures same { coverer.new ≡ coverer.old }
{
    match subject.certificate.version() {
        Version::One | Version::Two => false,
        Version::Three => {
            let moved = effect_back(Version::Three, &next.moved, wide);
            let arrival = subject.arrival_at(
                subject.row.proc,
                subject.behind,
                &moved,
                &moved,
                subject.untold(),
            );
            coverer.covers_whole(&arrival, after)
        }
    }
}

/// Whether a call comes back in a covered state from each exit that leaves one of these.
fn lefts_are_covered(
    subject: &Subject,
    next: &Next,
    callee: &Callee,
    lefts: &[Left],
    coverer: &mut Coverer,
) -> bool
    ensures exact { IsTrue result
        ↔ OnEachLeft lefts.now (ReturnCovered coverer.old subject.now next.now callee.now) }
    ensures same { coverer.new ≡ coverer.old }
{
    for left in lefts {
        if !return_is_covered(subject, next, callee, &left.state(), coverer) {
            return false;
        }
    }
    true
}

/// The same, row by row.
fn rows_are_covered(subject: &Subject, next: &Next, callee: &Callee, coverer: &mut Coverer) -> bool
    ensures exact { IsTrue result
        ↔ OnEachExit subject.now callee.now.number
        (ReturnCovered coverer.old subject.now next.now callee.now) }
    ensures same { coverer.new ≡ coverer.old }
{
    let rows = subject.certificate.rows_of(callee.number);
    for id in rows.start..rows.end {
        if !row_is_covered(subject, next, callee, id, coverer) {
            return false;
        }
    }
    true
}

/// Whether a call enters its callee in a covered state, and comes back in one from each exit.
fn call_goes_on(subject: &Subject, next: &Next, coverer: &mut Coverer) -> bool
    ensures exact { IsTrue result
        ↔ CallGoesOn coverer.old subject.now next.now (callee_at subject.now.cert next.now.address) }
    ensures same { coverer.new ≡ coverer.old }
{
    match callee_at(subject.certificate, next.address) {
        Some(callee) => {
            entry_is_covered(subject, next, &callee, coverer)
                && returns_are_covered(subject, next, &callee, coverer)
        }
        None => false,
    }
}

/// Whether a successor is covered, through a call also back from each exit.
fn next_goes_on(subject: &Subject, next: &Next, told: &StepTold, coverer: &mut Coverer) -> bool
    requires told { IsTold subject.now told.now }
    ensures exact { IsTrue result ↔ NextGoesOn coverer.old subject.now next.now }
    ensures same { coverer.new ≡ coverer.old }
{
    match next.kind {
        NextKind::Jump => jump_is_covered(subject, next, told, coverer),
        NextKind::Call => call_goes_on(subject, next, coverer),
        NextKind::Exit => true,
    }
}

/// Whether each of these successors is covered.
fn nexts_go_on(subject: &Subject, nexts: &[Next], told: &StepTold, coverer: &mut Coverer) -> bool
    requires told { IsTold subject.now told.now }
    ensures exact { IsTrue result ↔ All (NextGoesOn coverer.old subject.now) nexts.now }
    ensures same { coverer.new ≡ coverer.old }
{
    for next in nexts {
        if !next_goes_on(subject, next, told, coverer) {
            return false;
        }
    }
    true
}

/// Whether one row is found that covers the state after a call from each exit of its callee, by tables of the
/// certificate. It takes a search for each pattern of origins at the exits.
pub fn comes_back_at_once(
    subject: &Subject,
    next: &Next,
    callee: &Callee,
    coverer: &mut Coverer,
) -> bool
    ensures { coverer.new ≡ coverer.old }
{
    let Some(exits) = subject.exits_kept(callee.number) else {
        return false;
    };
    wides_are_covered(subject, next, exits, coverer)
}

/// Whether a row goes on, given its successors and what its step says beside (docs/CHECKER.md, "Successors, calls and
/// exits"). Each of its ways, by a jump and back from each exit of a callee, has to arrive in a covered state; each of
/// its calls has to enter a called procedure in a covered state. The coverer is one of the row's certificate. No memory
/// is taken. A call takes a step for each row of the callee, or for each different exit where the subject has tables.
pub fn goes_on(subject: &Subject, nexts: &[Next], told: &StepTold, coverer: &mut Coverer) -> bool
    requires told { IsTold subject.now told.now }
    requires certificate { coverer.old ≡ subject.now.cert }
    requires step { step_of subject.now ≡ Ok nexts.now }
    ensures exact { IsTrue result ↔ GoesOn subject.now }
    ensures same { coverer.new ≡ coverer.old }
{
    nexts_go_on(subject, nexts, told, coverer)
}
