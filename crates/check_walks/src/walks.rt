// The T-states between the rows of a walk, and at its end.

ghost use Rattle.std.specs.List.{All};
ghost use Rattle.std.specs.Prelude.{◌≡◌, ◌↔◌, Contains, IsSome, IsTrue, Ok, Some, false, length};
ghost use Rattle.check_cover.specs.Program.{callee_at};
ghost use Rattle.cert_form.specs.Contents.{map_of_board};
ghost use Rattle.check_ways.specs.Parts.{AtSomeExit, CostsExit, IsAmong, LiesBy, LiesByCall, OnCall, OnSomeExit, ReturnLands, greater};
ghost use Rattle.check_ways.specs.Pays.{IsExitCost, IsGreatest, IsWalked, Lands, LeavesAt, LieBetween, LiesBetween};
ghost use Rattle.check_ways.specs.Ways.{jump_to, restarts, step_of};

use abs_step::{Next, NextKind};
use address_map::{Map, Rom};
use cert_contents::{Certificate, RowId};
use cert_lines::RowRef;
use check_cover::{Callee, callee_at};
use check_ways::{Subject, is_lone, may_have_exit};
use std::alloc::Global;

/// The greater of two numbers, or the only one.
fn greater(one: Option<u32>, other: Option<u32>) -> Option<u32>
    ensures { result ≡ greater one other }
{
    match (one, other) {
        (Some(a), Some(b)) => Some(a.max(b)),
        (Some(a), None) => Some(a),
        (None, b) => b,
    }
}

/// Whether a call comes back to the row `target`, and asks it, from the exit of this row of its callee.
fn row_lands(subject: &Subject, next: &Next, callee: &Callee, id: RowId, target: &RowRef) -> bool
    requires called { callee_at subject.now.cert next.now.address ≡ Some callee.now }
    requires listed { Contains subject.now.cert.rows target.now }
    ensures { IsTrue result
        ↔ AtSomeExit subject.now id (ReturnLands subject.now next.now callee.now target.now) }
{
    match subject.exit_at(id) {
        Some(exit) => subject
            .return_way(next, callee, &exit)
            .lands(subject.certificate, target),
        None => false,
    }
}

/// Whether a call comes back to the row `target`, and asks it, from some exit of its callee.
fn some_return_lands(subject: &Subject, next: &Next, callee: &Callee, target: &RowRef) -> bool
    requires called { callee_at subject.now.cert next.now.address ≡ Some callee.now }
    requires listed { Contains subject.now.cert.rows target.now }
    ensures { IsTrue result
        ↔ OnSomeExit subject.now callee.now.number
        (ReturnLands subject.now next.now callee.now target.now) }
{
    let rows = subject.certificate.rows_of(callee.number);
    for id in rows.start..rows.end {
        if row_lands(subject, next, callee, id, target) {
            return true;
        }
    }
    false
}

/// The T-states between two rows by a call, with its callee's time; None if the call does not lead there.
fn cost_by_call(subject: &Subject, next: &Next, target: &RowRef) -> Option<u32>
    requires { Contains subject.now.cert.rows target.now }
    ensures { IsGreatest (LiesByCall subject.now next.now target.now
        (callee_at subject.now.cert next.now.address)) result }
{
    let callee = callee_at(subject.certificate, next.address)?;
    if some_return_lands(subject, next, &callee, target) {
        Some(subject.call_cost(next, &callee))
    } else {
        None
    }
}

/// Whether a jump within the row's procedure leads to a row that is asked. No `Way` is made for it, since its state is
/// large.
fn jump_lands(subject: &Subject, next: &Next, target: &RowRef) -> bool
    requires { Contains subject.now.cert.rows target.now }
    ensures { IsTrue result
        ↔ Lands subject.now.cert (jump_to subject.now next.now subject.now.row.proc next.now.state)
        target.now }
{
    if next.address != target.address || subject.row.proc != target.proc {
        return false;
    }
    target.overlaps(&next.state) || is_lone(subject.certificate, subject.row.proc, next.address)
}

/// The T-states between two rows by one successor; None if it does not lead there. The first is no restart.
fn cost_by(subject: &Subject, next: &Next, target: &RowRef) -> Option<u32>
    requires listed { Contains subject.now.cert.rows target.now }
    requires stays { restarts subject.now ≡ false }
    ensures { IsGreatest (LiesBy subject.now target.now next.now) result }
{
    match next.kind {
        NextKind::Jump => {
            if jump_lands(subject, next, target) {
                Some(u32::from(next.cost))
            } else {
                None
            }
        }
        NextKind::Call => cost_by_call(subject, next, target),
        NextKind::Exit => None,
    }
}

/// The most T-states between two rows by one of these successors; None if none leads there. The first is no restart.
fn greatest_cost(subject: &Subject, nexts: &[Next], target: &RowRef) -> Option<u32>
    requires listed { Contains subject.now.cert.rows target.now }
    requires stays { restarts subject.now ≡ false }
    ensures { IsGreatest (IsAmong nexts.now (LiesBy subject.now target.now)) result }
{
    let mut greatest = None;
    for next in nexts {
        greatest = greater(greatest, cost_by(subject, next, target));
    }
    greatest
}

/// Whether a successor is no call, or its callee, if there is one, has a time.
fn call_is_timed(subject: &Subject, next: &Next) -> bool
    ensures { IsTrue result ↔ OnCall subject.now next.now }
{
    if next.kind != NextKind::Call {
        return true;
    }
    match callee_at(subject.certificate, next.address) {
        Some(callee) => callee.proc.time.is_some(),
        None => true,
    }
}

/// Whether the row's procedure has a time, and so has each procedure that it calls.
fn is_walked(subject: &Subject, nexts: &[Next]) -> bool
    requires { step_of subject.now ≡ Ok nexts.now }
    ensures { IsTrue result ↔ IsWalked subject.now }
{
    subject.proc.time.is_some() && calls_are_timed(subject, nexts)
}

/// Whether each procedure that these successors call has a time.
fn calls_are_timed(subject: &Subject, nexts: &[Next]) -> bool
    ensures { IsTrue result ↔ All (OnCall subject.now) nexts.now }
{
    nexts.iter().all(|next| call_is_timed(subject, next))
}

/// The most T-states between a row and one that may come next on a walk, given the row's successors; a way through a
/// call includes the callee's time (docs/CHECKER.md, "Paying"). None if no way leads there, or if the row is of a
/// procedure without a time or calls one. No memory is taken.
pub fn cost_between(subject: &Subject, nexts: &[Next], target: &RowRef) -> Option<u32>
    requires step { step_of subject.now ≡ Ok nexts.now }
    requires listed { Contains subject.now.cert.rows target.now }
    ensures { IsGreatest (LiesBetween subject.now target.now) result }
{
    if is_walked(subject, nexts) {
        greatest_cost(subject, nexts, target)
    } else {
        None
    }
}

/// The same; None also if the row is refused for itself.
fn cost_from(alloc: Global, subject: &Subject, target: &RowRef) -> Option<u32>
    requires { Contains subject.now.cert.rows target.now }
    ensures { IsGreatest (LiesBetween subject.now target.now) result }
{
    match subject.step(alloc) {
        Ok(nexts) => cost_between(subject, nexts.as_slice(), target),
        Err(_) => None,
    }
}

/// The T-states of a successor that is an exit.
fn cost_of_exit(next: &Next) -> Option<u32>
    ensures { IsGreatest (CostsExit next.now) result }
{
    match next.kind {
        NextKind::Exit => Some(u32::from(next.cost)),
        NextKind::Jump | NextKind::Call => None,
    }
}

/// The most T-states of an exit among these successors; None if there is none.
fn greatest_exit(nexts: &[Next]) -> Option<u32>
    ensures { IsGreatest (IsAmong nexts.now CostsExit) result }
{
    let mut greatest = None;
    for next in nexts {
        greatest = greater(greatest, cost_of_exit(next));
    }
    greatest
}

/// The most T-states of an exit of the row; None if it has none.
fn cost_of_own_exit(alloc: Global, subject: &Subject) -> Option<u32>
    ensures { IsGreatest (IsExitCost subject.now) result }
{
    match subject.step(alloc) {
        Ok(nexts) => greatest_exit(nexts.as_slice()),
        Err(_) => None,
    }
}

/// The most T-states between two rows, given by their numbers, where the second may come next on a walk; a way through
/// a call includes the callee's time (docs/CHECKER.md, "Paying"). None if one of the rows does not exist, if no way
/// leads from the first to the second, or if the first is refused for itself, is of a procedure without a time, or
/// calls one. The ROM has to have as many bytes as the certificate says. No memory is taken.
pub fn compared(
    alloc: Global,
    rom: &Rom,
    certificate: &Certificate,
    from: RowId,
    to: RowId,
) -> Option<u32>
    requires { certificate.now.rom_len ≡ length rom.now }
    ensures { IsGreatest (LieBetween rom.now certificate.now from to) result }
{
    let map = certificate.board().map(rom.len());
    let subject = Subject::of(rom, &map, certificate, from)?;
    subject.is_subject();
    let target = certificate.row(to)?;
    cost_from(alloc, &subject, &target)
}

/// The T-states of the exit of the row with this number, in a procedure without a time too; None if there is no such
/// row or it has no exit. The ROM has to have as many bytes as the certificate says. No memory is taken.
pub fn exit_cost(alloc: Global, rom: &Rom, certificate: &Certificate, row: RowId) -> Option<u32>
    requires { certificate.now.rom_len ≡ length rom.now }
    ensures { IsGreatest (LeavesAt rom.now certificate.now row) result }
{
    let map = certificate.board().map(rom.len());
    cost_of_leaving(alloc, rom, &map, certificate, row)
}

/// The same, with the map of the certificate for a ROM of this length.
pub fn cost_of_leaving(
    alloc: Global,
    rom: &Rom,
    map: &Map,
    certificate: &Certificate,
    row: RowId,
) -> Option<u32>
    requires map { map.now ≡ map_of_board certificate.now }
    requires len { map.now.rom_len ≡ length rom.now }
    ensures { IsGreatest (LeavesAt rom.now certificate.now row) result }
{
    if !may_have_exit(rom, certificate, row) {
        return None;
    }
    let subject = Subject::of(rom, map, certificate, row)?;
    subject.is_subject();
    cost_of_own_exit(alloc, &subject)
}
