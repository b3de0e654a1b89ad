// The parts of a way, from its last to its first.

ghost use Rattle.std.specs.Prelude.{◌≡◌, ◌≢◌, ◌+◌, None, IfOk, IfSome, IsTrue, Some, length, suc};
ghost use Rattle.dearest_way.specs.Along.{IsAlong, IsLeftFor, IsWayPart, IsRowCost, before_at, last_row_of};
ghost use Rattle.dearest_way.specs.Worth.{IsWorth};

use crate::arrivals::arriving_from;
use crate::entered::Entered;
use crate::fault::WayFault;
use crate::worth::{Worth, worth_in};
use address_map::Rom;
use cert_contents::{Certificate, RowId};
use check_walks::{compared, exit_cost};
use check_ways::potential_of;
use std::alloc::Global;

/// The most turns of a loop, and the T-states that its potential has for each turn. The potential has one variable, the
/// counter of turns.
#[derive(Clone, Copy)]
pub struct LoopTurns {
    /// The most that the counter is where the loop is entered.
    pub count: u16,
    /// T-states, 1 to 1,000,000.
    pub cost: u32,
}

/// A part of a way: a row outside of loops, or a loop, by the row at which it is entered.
#[derive(Clone, Copy)]
pub struct WayPart {
    pub row: RowId,
    /// The T-states to the next part or, of the last part, to the exit. Those of a row include the time of a callee.
    pub cost: u32,
    /// Of a loop, the row from which the way goes on; None for a row outside of loops.
    pub left_by: Option<RowId>,
    /// Of a loop, its turns, if they are known.
    pub turns: Option<LoopTurns>,
}

/// A part whose T-states are not known yet.
#[derive(Clone, Copy)]
pub(crate) struct UntimedPart {
    pub(crate) row: RowId,
    pub(crate) left_by: Option<RowId>,
}

/// The row from which a stage goes on.
fn last_row(stage: UntimedPart) -> RowId
    ensures { result ≡ last_row_of stage.row stage.left_by }
{
    match stage.left_by {
        Some(last) => last,
        None => stage.row,
    }
}

/// The row from which the way comes to a stage; None for the first.
fn before_of(route: &[UntimedPart], place: usize) -> Option<RowId>
    ensures { result ≡ before_at route.now place }
{
    let at = place.checked_sub(1)?;
    let stage = route.get(at)?;
    Some(last_row(*stage))
}

/// What the potential of a row comes to where it is entered from the row `before`, or at the entry of the procedure.
fn worth_at(
    alloc: Global,
    rom: &Rom,
    certificate: &Certificate,
    before: Option<RowId>,
    row: RowId,
) -> Option<Worth>
    requires { certificate.now.rom_len ≡ length rom.now }
    ensures { IfSome result
        (λ worth. IsWorth rom.now certificate.now before row worth.most worth.turns) }
{
    let target = certificate.row(row)?;
    let own = target.state();
    let arriving = match before {
        Some(from) => arriving_from(alloc, rom, certificate, from, row)?,
        None => own.copied(),
    };
    worth_in(
        &potential_of(&target),
        &Entered {
            own: &own,
            arriving: &arriving,
        },
    )
}

/// Whether the row by which a loop is left leads to the next row, if there is one.
fn leads_on(
    alloc: Global,
    rom: &Rom,
    certificate: &Certificate,
    last: RowId,
    next: Option<RowId>,
) -> bool
    requires { certificate.now.rom_len ≡ length rom.now }
    ensures { IsTrue result → IsLeftFor rom.now certificate.now last next }
{
    match next {
        Some(to) => compared(alloc, rom, certificate, last, to).is_some(),
        None => true,
    }
}

/// The T-states of a row outside of loops: those to the next row or, without one, those of its exit.
fn row_cost(
    alloc: Global,
    rom: &Rom,
    certificate: &Certificate,
    row: RowId,
    next: Option<RowId>,
) -> Option<u32>
    requires { certificate.now.rom_len ≡ length rom.now }
    ensures { IfSome result (IsRowCost rom.now certificate.now row next) }
{
    match next {
        Some(to) => compared(alloc, rom, certificate, row, to),
        None => exit_cost(alloc, rom, certificate, row),
    }
}

/// The part of a loop, which is left by the row `last`.
fn loop_part(
    alloc: Global,
    rom: &Rom,
    certificate: &Certificate,
    before: Option<RowId>,
    row: RowId,
    last: RowId,
    rest: u32,
) -> Option<WayPart>
    requires { certificate.now.rom_len ≡ length rom.now }
    ensures worth { IfSome result (λ part.
        IsWorth rom.now certificate.now before row (part.cost + rest) part.turns) }
    ensures same { IfSome result (λ part. (part.row ≡ row) × (part.left_by ≡ Some last)) }
{
    let worth = worth_at(alloc, rom, certificate, before, row)?;
    if worth.most < rest {
        return None;
    }
    Some(WayPart {
        row,
        cost: worth.most - rest,
        left_by: Some(last),
        turns: worth.turns,
    })
}

/// The part of a stage. It is entered from the row `before`; the next part begins with the row `next`, and the parts
/// from there on come to `rest`. None if the stage does not lead there.
fn part_at(
    alloc: Global,
    rom: &Rom,
    certificate: &Certificate,
    before: Option<RowId>,
    stage: UntimedPart,
    next: Option<RowId>,
    rest: u32,
) -> Option<WayPart>
    requires { certificate.now.rom_len ≡ length rom.now }
    ensures part { IfSome result (IsWayPart rom.now certificate.now before next rest) }
    ensures same { IfSome result (λ part. (part.row ≡ stage.row) × (part.left_by ≡ stage.left_by)) }
{
    match stage.left_by {
        Some(last) => {
            if !leads_on(alloc, rom, certificate, last, next) {
                return None;
            }
            loop_part(alloc, rom, certificate, before, stage.row, last, rest)
        }
        None => {
            let cost = row_cost(alloc, rom, certificate, stage.row, next)?;
            Some(WayPart {
                row: stage.row,
                cost,
                left_by: None,
                turns: None,
            })
        }
    }
}

/// The part of the stage at a place of a route. The next part begins with the row `next`, and the parts from there on
/// come to `rest`. None if there is no such stage, or if it does not lead there.
fn part_of(
    alloc: Global,
    rom: &Rom,
    certificate: &Certificate,
    route: &[UntimedPart],
    place: usize,
    next: Option<RowId>,
    rest: u32,
) -> Option<WayPart>
    requires { certificate.now.rom_len ≡ length rom.now }
    ensures part { IfSome result
        (IsWayPart rom.now certificate.now (before_at route.now place) next rest) }
    ensures from { IfSome result
        (λ part. before_at route.now (suc place) ≡ Some (last_row_of part.row part.left_by)) }
{
    let stage = route.get(place).copied()?;
    let before = before_of(route, place);
    part_at(alloc, rom, certificate, before, stage, next, rest)
}

/// The parts of these stages, and their T-states.
pub(crate) fn parts_along(
    alloc: Global,
    rom: &Rom,
    certificate: &Certificate,
    route: &[UntimedPart],
) -> Result<(Vec<WayPart>, u32), WayFault>
    requires { certificate.now.rom_len ≡ length rom.now }
    ensures along { IfOk result
        (λ found. IsAlong rom.now certificate.now None found.0.items found.1) }
    ensures timed { result ≢ Err WayFault.Untimed }
{
    let mut parts = Vec::new(alloc);
    let mut sum = 0u32;
    let mut next = None;
    let mut place = route.len();
    while place > 0 {
        place -= 1;
        let Some(part) = part_of(alloc, rom, certificate, route, place, next, sum) else {
            return Err(WayFault::NoWay);
        };
        let Some(more) = sum.checked_add(part.cost) else {
            return Err(WayFault::NoWay);
        };
        sum = more;
        next = Some(part.row);
        parts.push(part)?;
    }
    parts.reverse();
    Ok((parts, sum))
}
