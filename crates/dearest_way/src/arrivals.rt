// The state in which one row leads to another.

ghost use Rattle.std.specs.Prelude.{◌≡◌, Contains, IfSome, IsTrue, Ok, Some, length};
ghost use Rattle.check_cover.specs.Program.{callee_at};
ghost use Rattle.check_ways.specs.Parts.{AtSomeExit};
ghost use Rattle.check_ways.specs.Pays.{Lands};
ghost use Rattle.check_ways.specs.Ways.{jump_to, step_of};
ghost use Rattle.dearest_way.specs.Arrivals.{ArrivesAt, ArrivesBy, ArrivesByCall, ArrivesByJump, ArrivesFrom, ReturnsIn};

use abs_state::AbsState;
use abs_step::{Next, NextKind};
use address_map::Rom;
use cert_contents::{Certificate, RowId};
use cert_lines::RowRef;
use check_cover::{Callee, callee_at};
use check_walks::cost_between;
use check_ways::{Subject, is_lone};
use std::alloc::Global;

/// The state in which the row `from` leads to the row `to`, by the first of its dearest ways; None if it does not lead
/// there.
pub(crate) fn arriving_from(
    alloc: Global,
    rom: &Rom,
    certificate: &Certificate,
    from: RowId,
    to: RowId,
) -> Option<AbsState>
    requires { certificate.now.rom_len ≡ length rom.now }
    ensures { IfSome result (ArrivesFrom rom.now certificate.now from to) }
{
    let map = certificate.board().map(rom.len());
    let subject = Subject::of(rom, &map, certificate, from)?;
    subject.is_subject();
    let target = certificate.row(to)?;
    let Ok(nexts) = subject.step(alloc) else {
        return None;
    };
    let cost = cost_between(&subject, nexts.as_slice(), &target)?;
    arriving_by_some(&subject, nexts.as_slice(), &target, cost)
}

/// The same for a subject with these successors, by the first way of this cost.
fn arriving_by_some(
    subject: &Subject,
    nexts: &[Next],
    target: &RowRef,
    cost: u32,
) -> Option<AbsState>
    requires step { step_of subject.now ≡ Ok nexts.now }
    requires listed { Contains subject.now.cert.rows target.now }
    ensures { IfSome result (ArrivesAt subject.now target.now) }
{
    for next in nexts {
        let arriving = arriving_by(subject, next, target, cost);
        if arriving.is_some() {
            return arriving;
        }
    }
    None
}

/// The same by one successor.
fn arriving_by(subject: &Subject, next: &Next, target: &RowRef, cost: u32) -> Option<AbsState>
    requires { Contains subject.now.cert.rows target.now }
    ensures { IfSome result (ArrivesBy subject.now target.now next.now) }
{
    match next.kind {
        NextKind::Jump => arriving_by_jump(subject, next, target, cost),
        NextKind::Call => {
            let callee = callee_at(subject.certificate, next.address)?;
            arriving_by_call(subject, next, &callee, target, cost)
        }
        NextKind::Exit => None,
    }
}

/// The same by a jump. A restart leaves the procedure, so it leads to none of its rows.
fn arriving_by_jump(subject: &Subject, next: &Next, target: &RowRef, cost: u32) -> Option<AbsState>
    requires { Contains subject.now.cert.rows target.now }
    ensures { IfSome result (ArrivesByJump subject.now target.now next.now) }
{
    if subject.restarts() {
        return None;
    }
    if u32::from(next.cost) != cost {
        return None;
    }
    if jump_lands(subject, next, target) {
        Some(next.state.copied())
    } else {
        None
    }
}

/// Whether a jump within the row's procedure leads to a row that is asked.
fn jump_lands(subject: &Subject, next: &Next, target: &RowRef) -> bool
    requires { Contains subject.now.cert.rows target.now }
    ensures { IsTrue result
        → Lands subject.now.cert
        (jump_to subject.now next.now subject.now.row.proc next.now.state) target.now }
{
    if next.address != target.address || subject.row.proc != target.proc {
        return false;
    }
    target.overlaps(&next.state) || is_lone(subject.certificate, subject.row.proc, next.address)
}

/// The state in which a call comes back to a row, from the first exit of its callee from which it does.
fn arriving_by_call(
    subject: &Subject,
    next: &Next,
    callee: &Callee,
    target: &RowRef,
    cost: u32,
) -> Option<AbsState>
    requires called { callee_at subject.now.cert next.now.address ≡ Some callee.now }
    requires listed { Contains subject.now.cert.rows target.now }
    ensures { IfSome result (ArrivesByCall subject.now target.now next.now callee.now) }
{
    if subject.call_cost(next, callee) != cost {
        return None;
    }
    let rows = subject.certificate.rows_of(callee.number);
    for id in rows.start..rows.end {
        let arriving = arriving_back(subject, next, callee, target, id);
        if arriving.is_some() {
            return arriving;
        }
    }
    None
}

/// The same, from the exit of this row of the callee.
fn arriving_back(
    subject: &Subject,
    next: &Next,
    callee: &Callee,
    target: &RowRef,
    id: RowId,
) -> Option<AbsState>
    requires called { callee_at subject.now.cert next.now.address ≡ Some callee.now }
    requires listed { Contains subject.now.cert.rows target.now }
    ensures { IfSome result (λ state. AtSomeExit subject.now id
        (ReturnsIn subject.now target.now next.now callee.now state)) }
{
    let exit = subject.exit_at(id)?;
    let way = subject.return_way(next, callee, &exit);
    if way.lands(subject.certificate, target) {
        Some(way.state)
    } else {
        None
    }
}
