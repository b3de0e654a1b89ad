// Whether a row pays for its ways, its calls and exits, and its procedure's entry.

ghost use Rattle.std.specs.List.{All};
ghost use Rattle.std.specs.Prelude.{◌≡◌, ◌≤◌, ◌↔◌, IsSome, IsTrue, Ok, Some};
ghost use Rattle.check_cover.specs.Program.{callee_at};
ghost use Rattle.cert_lines.specs.declared.row.Row.{Row};
ghost use Rattle.check_ways.specs.Parts.{AtEachExit, CallPays, NextPays, AreNumbersAt, OnEachExit, OnEachLeft, PaysAll, PaysNumber, PaysPlace, PaysReturn, PaysToRow, PaysWay};
ghost use Rattle.check_ways.specs.Pays.{IsLone, IsWithinTime, Pays, PaysCall, PaysOut, PaysTo, constant_sum, cost_before, potential_of};
ghost use Rattle.check_ways.specs.Ways.{IsTold, behind_of, step_of};

use crate::only_row::is_lone;
use crate::subject::Subject;
use crate::ways::Way;
use abs_step::{Next, NextKind};
use call_graph::ProcId;
use cert_contents::RowId;
use cert_lines::{ProcKind, RowRef, Version};
use check_cover::{Callee, callee_at};
use check_payments::pays_either_way;
use check_tables::Left;
use loop_bounds::{Effect, Linear, decreases};
use refined_step::StepTold;
use t_states::NMI_COST;

/// A row's potential, in T-states. A row without one counts as 0 for the others (docs/CHECKER.md, "Paying").
pub fn potential_of(row: &RowRef) -> Linear
    ensures { result ≡ potential_of row.now }
{
    match row.potential {
        Some(potential) => potential,
        None => Linear::zero(),
    }
}

/// Whether the row's potential is at least the cost.
fn row_pays_out(subject: &Subject, cost: u32) -> bool
    ensures { IsTrue result ↔ PaysOut subject.now.row cost }
{
    let from = potential_of(&subject.row);
    let state = &subject.state;
    decreases(
        &from,
        &Linear::zero(),
        cost,
        &Effect::unchanged(),
        state,
        state,
    )
}

/// Whether the row pays for a way to another row.
fn row_pays_to(subject: &Subject, way: &Way, target: &RowRef) -> bool
    ensures { IsTrue result
        ↔ PaysTo subject.now.row way.now.cost way.now.arrival target.now }
{
    let from = potential_of(&subject.row);
    let to = potential_of(target);
    let other = target.state();
    let told = way.told;
    match way.version {
        Version::One | Version::Two => {
            decreases(&from, &to, way.cost, &way.effect, &subject.state, &other)
        }
        Version::Three => pays_either_way(
            &from,
            &to,
            way.cost,
            &way.effect,
            &way.moved,
            &told.linear,
            &subject.state,
            &other,
        ),
    }
}

/// Whether the row pays for a way to the row with this number, if that row is asked.
fn pays_row(subject: &Subject, way: &Way, lone: bool, id: RowId) -> bool
    requires { IsTrue lone ↔ IsLone subject.now.cert way.now.arrival.proc way.now.arrival.address }
    ensures { IsTrue result ↔ PaysToRow subject.now way.now id }
{
    let Some(row) = subject.certificate.row(id) else {
        return true;
    };
    if way.asks(lone, &row) {
        row_pays_to(subject, way, &row)
    } else {
        true
    }
}

/// Whether the row pays for a way, to each row that is asked where the way arrives.
fn pays_way(subject: &Subject, way: &Way) -> bool
    ensures { IsTrue result ↔ PaysWay subject.now way.now }
{
    let rows = way.rows(subject.certificate);
    pays_top(subject, rows.start, rows.end, way.cost)
        || pays_rows(subject, way, rows.start, rows.end)
}

/// The same for the rows with these numbers, which are those where the way arrives.
fn pays_rows(subject: &Subject, way: &Way, start: RowId, end: RowId) -> bool
    requires { AreNumbersAt subject.now.cert way.now.arrival start end }
    ensures { IsTrue result ↔ PaysWay subject.now way.now }
{
    let lone = is_lone(subject.certificate, way.proc, way.address);
    for id in start..end {
        if !pays_row(subject, way, lone, id) {
            return false;
        }
    }
    true
}

/// Whether the row's potential pays the cost and leaves the greatest potential of the rows with these numbers. False
/// where tables do not have it.
fn pays_top(subject: &Subject, start: RowId, end: RowId, cost: u32) -> bool
    ensures { IsTrue result → PaysAll subject.now start end cost }
{
    match subject.top(start, end) {
        Some(top) => row_pays_top(subject, &top, cost),
        None => false,
    }
}

/// Whether the row's potential pays the cost and leaves a constant.
fn row_pays_top(subject: &Subject, top: &Linear, cost: u32) -> bool
    ensures { IsTrue result ↔ PaysNumber subject.now.row cost top.now }
{
    let from = potential_of(&subject.row);
    let state = &subject.state;
    decreases(&from, top, cost, &Effect::unchanged(), state, state)
}

/// Whether the row pays for the way back from the exit of this row of its callee, if the row has one.
fn row_is_paid(subject: &Subject, next: &Next, callee: &Callee, id: RowId) -> bool
    requires { callee_at subject.now.cert next.now.address ≡ Some callee.now }
    ensures { IsTrue result
        ↔ AtEachExit subject.now id (PaysReturn subject.now next.now callee.now) }
{
    match subject.exit_at(id) {
        Some(exit) => pays_way(subject, &subject.return_way(next, callee, &exit)),
        None => true,
    }
}

/// Whether the row pays for the way back from each exit of its callee.
fn returns_are_paid(subject: &Subject, next: &Next, callee: &Callee) -> bool
    requires { callee_at subject.now.cert next.now.address ≡ Some callee.now }
    ensures { IsTrue result
        ↔ OnEachExit subject.now callee.now.number (PaysReturn subject.now next.now callee.now) }
{
    // By the form, the procedure of each row exists.
    subject.certificate.is_in_form();
    match subject.exits_kept(callee.number) {
        Some(exits) => {
            pays_behind(subject, subject.call_cost(next, callee))
                || lefts_are_paid(subject, next, callee, exits.lefts())
        }
        None => rows_are_paid(subject, next, callee),
    }
}

/// Whether the greatest potential at the address after the row's instruction shows that the row pays the cost there.
fn pays_behind(subject: &Subject, cost: u32) -> bool
    ensures { IsTrue result
        → PaysPlace subject.now subject.now.row.proc
        (behind_of subject.now.decoded subject.now.row.address) cost }
{
    pays_place(subject, subject.row.proc, subject.behind, cost)
}

/// Whether the greatest potential at an address of a procedure, if tables have it, shows that the row pays a cost in
/// T-states to each row there.
pub fn pays_place(subject: &Subject, proc: ProcId, address: u16, cost: u32) -> bool
    ensures { IsTrue result → PaysPlace subject.now proc address cost }
{
    let rows = subject.certificate.rows_at(proc, address);
    pays_top(subject, rows.start, rows.end, cost)
}

/// Whether the row pays for the way back from each exit that leaves one of these.
fn lefts_are_paid(subject: &Subject, next: &Next, callee: &Callee, lefts: &[Left]) -> bool
    requires { callee_at subject.now.cert next.now.address ≡ Some callee.now }
    ensures { IsTrue result ↔ OnEachLeft lefts.now (PaysReturn subject.now next.now callee.now) }
{
    for left in lefts {
        if !pays_way(subject, &subject.return_way(next, callee, &left.state())) {
            return false;
        }
    }
    true
}

/// The same, row by row.
fn rows_are_paid(subject: &Subject, next: &Next, callee: &Callee) -> bool
    requires { callee_at subject.now.cert next.now.address ≡ Some callee.now }
    ensures { IsTrue result
        ↔ OnEachExit subject.now callee.now.number (PaysReturn subject.now next.now callee.now) }
{
    let rows = subject.certificate.rows_of(callee.number);
    for id in rows.start..rows.end {
        if !row_is_paid(subject, next, callee, id) {
            return false;
        }
    }
    true
}

fn has_time(callee: &Callee) -> bool
    ensures { IsTrue result ↔ IsSome callee.now.proc.time }
{
    callee.proc.time.is_some()
}

/// Whether a callee has a time, and an exit too, or else the row pays for the call and that time.
fn call_is_paid(subject: &Subject, next: &Next, callee: &Callee) -> bool
    requires { callee_at subject.now.cert next.now.address ≡ Some callee.now }
    ensures { IsTrue result ↔ PaysCall subject.now next.now callee.now }
{
    if !has_time(callee) {
        return false;
    }
    if subject.has_exit(callee.number) {
        return true;
    }
    row_pays_out(subject, subject.call_cost(next, callee))
}

/// Whether the row pays for a call, and for each way back from it.
fn call_pays(subject: &Subject, next: &Next) -> bool
    ensures { IsTrue result
        ↔ CallPays subject.now next.now (callee_at subject.now.cert next.now.address) }
{
    match callee_at(subject.certificate, next.address) {
        Some(callee) => {
            call_is_paid(subject, next, &callee) && returns_are_paid(subject, next, &callee)
        }
        None => true,
    }
}

/// Whether the row pays for one of its successors.
fn next_pays(subject: &Subject, next: &Next, told: &StepTold) -> bool
    requires told { IsTold subject.now told.now }
    ensures { IsTrue result ↔ NextPays subject.now next.now }
{
    match next.kind {
        NextKind::Jump => pays_way(subject, &subject.jump_way(next, told)),
        NextKind::Call => call_pays(subject, next),
        NextKind::Exit => row_pays_out(subject, u32::from(next.cost)),
    }
}

fn nexts_pay(subject: &Subject, nexts: &[Next], told: &StepTold) -> bool
    requires told { IsTold subject.now told.now }
    ensures { IsTrue result ↔ All (NextPays subject.now) nexts.now }
{
    for next in nexts {
        if !next_pays(subject, next, told) {
            return false;
        }
    }
    true
}

/// The T-states before the entry of a procedure of this kind: 11 for the NMI routine, those of the acceptance; else 0.
pub fn cost_before(kind: ProcKind) -> u32
    ensures { result ≡ cost_before kind }
{
    match kind {
        ProcKind::Nmi => u32::from(NMI_COST),
        ProcKind::Main | ProcKind::Sub => 0,
    }
}

/// A number of T-states as a linear.
pub fn constant_sum(time: u32) -> Linear
    requires { time ≤ 1000000000 }
    ensures { result ≡ constant_sum time }
{
    match Linear::of_constant(time as i32) {
        Some(linear) => linear,
        None => Linear::zero(),
    }
}

/// Whether the row's potential and the T-states before the entry are within its procedure's time.
fn is_within_time(subject: &Subject) -> bool
    ensures { IsTrue result ↔ IsWithinTime subject.now.proc subject.now.row }
{
    let left = constant_sum(subject.time());
    let to = potential_of(&subject.row);
    let before = cost_before(subject.proc.kind);
    let state = &subject.state;
    decreases(&left, &to, before, &Effect::unchanged(), state, state)
}

fn has_potential(subject: &Subject) -> bool
    ensures { IsTrue result ↔ IsSome subject.now.row.potential }
{
    subject.row.potential.is_some()
}

/// Whether the row keeps its procedure's time, if it is at the entry.
fn overlaps_entry(subject: &Subject) -> bool
    ensures { IsTrue result
        ↔ (subject.now.row.address ≡ subject.now.proc.entry
        → IsWithinTime subject.now.proc subject.now.row) }
{
    subject.row.address != subject.proc.entry || is_within_time(subject)
}

/// Whether a row pays, given its successors (docs/CHECKER.md, "Paying"). It has to have a potential, which pays for
/// each way to each row that is asked there, for each call of a procedure, and for each exit. At its procedure's entry
/// the potential has to be within the time. It is called for rows of timed procedures, and takes no memory.
pub fn pays(subject: &Subject, nexts: &[Next], told: &StepTold) -> bool
    requires told { IsTold subject.now told.now }
    requires step { step_of subject.now ≡ Ok nexts.now }
    ensures { IsTrue result ↔ Pays subject.now }
{
    if !has_potential(subject) {
        return false;
    }
    if !overlaps_entry(subject) {
        return false;
    }
    nexts_pay(subject, nexts, told)
}
