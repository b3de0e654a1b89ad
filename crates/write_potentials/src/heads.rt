// The loops' rows.

use crate::fault::PotentialFault;
use crate::solving::{Group, Head};
use annotations::LoopNote;
use cert_contents::Certificate;
use cert_fields::is_below;
use loop_bounds::{Linear, Variable};
use std::alloc::Global;
use std::ops::Range;
use write_payments::multiple_of;
use write_requests::{Placed, Turns};

/// The note of a loop at an address.
fn note_at(notes: &[LoopNote], address: u16) -> Option<LoopNote> {
    let place = notes.partition_point(|note| note.at < address);
    let note = notes.get(place)?;
    if note.at == address {
        Some(*note)
    } else {
        None
    }
}

/// What counts the turns of a loop.
#[derive(Clone, Copy)]
pub(crate) struct Counter {
    /// The address of the loop.
    at: u16,
    variable: Variable,
    /// Whether it goes up from turn to turn.
    rises: bool,
}

/// The annotated counters of a procedure's rows, by the rows' numbers. A row whose shape does not have the counter's
/// slot has none.
pub(crate) fn counters_of(
    alloc: Global,
    certificate: &Certificate,
    rows: Range<u32>,
    notes: &[LoopNote],
) -> Result<Vec<Option<Counter>>, PotentialFault> {
    let mut counters = Vec::new(alloc);
    for id in rows.start..rows.end {
        let mut counter = None;
        if let Some(row) = certificate.row(id) {
            if let Some(note) = note_at(notes, row.address) {
                if is_below(note.counter, row.shape.len()) {
                    counter = Some(Counter {
                        at: note.at,
                        variable: note.counter,
                        rises: note.rises,
                    });
                }
            }
        }
        counters.push(counter)?;
    }
    Ok(counters)
}

/// A loop's row, by its number, with what counts the loop's turns.
#[derive(Clone, Copy)]
struct LoopRow {
    row: u16,
    counter: Counter,
}

/// A group of rows on cycles: the rows with a counter are loops' rows. The others are in the order in which the search
/// left them that left out all rows with counters.
pub(crate) fn group_of(
    alloc: Global,
    turns: &mut Turns,
    rows: &[Placed],
    counters: &[Option<Counter>],
    apart: &[Placed],
) -> Result<Group, PotentialFault> {
    let mut loops: Vec<LoopRow> = Vec::new(alloc);
    let mut others = Vec::new(alloc);
    for placed in rows {
        let row = placed.row;
        let place = usize::from(row);
        if let Some(Some(counter)) = counters.get(place).copied() {
            loops.push(LoopRow { row, counter })?;
        } else if let Some(other) = apart.get(place).copied() {
            others.push(other)?;
        }
    }
    loops.sort_unstable_by_key(|one| one.row);
    others.sort_unstable_by_key(|other| other.left);
    let others = rows_of(alloc, &others)?;
    let longest = longest_turn(turns, rows, &loops);
    let mut heads = Vec::new(alloc);
    for one in &loops {
        let same = rows_at(alloc, &loops, one.counter.at)?;
        let shared = if same.len() > 1 {
            turns.cost_among(rows, &others, &same)
        } else {
            None
        };
        heads.push(head_of(turns, rows, one, shared, longest)?)?;
    }
    Ok(Group { heads, others })
}

/// The rows of the loop at an address.
fn rows_at(alloc: Global, loops: &[LoopRow], at: u16) -> Result<Vec<u16>, PotentialFault> {
    let mut rows = Vec::new(alloc);
    for one in loops {
        if one.counter.at == at {
            rows.push(one.row)?;
        }
    }
    Ok(rows)
}

fn rows_of(alloc: Global, rows: &[Placed]) -> Result<Vec<u16>, PotentialFault> {
    let mut numbers = Vec::new(alloc);
    for placed in rows {
        numbers.push(placed.row)?;
    }
    Ok(numbers)
}

/// The greatest cost of a turn of the group's loops' rows; such a turn may pass other loops' rows.
fn longest_turn(turns: &mut Turns, rows: &[Placed], loops: &[LoopRow]) -> u64 {
    let mut longest = 0;
    for one in loops {
        longest = longest.max(turns.cost_of(rows, one.row).unwrap_or(0));
    }
    longest
}

/// A loop's row of a group. The multiple of its counter is the cost of its own turns or, if it has none, of those that
/// it shares with other rows at its address, or else of turns that pass other loops' rows. It also has the multiples
/// for the shared turns and for the longest turn of the group.
fn head_of(
    turns: &mut Turns,
    rows: &[Placed],
    one: &LoopRow,
    shared: Option<u64>,
    longest: u64,
) -> Result<Head, PotentialFault> {
    let own = turns.own_cost_of(rows, one.row).or(shared);
    let cost = match own {
        Some(cost) => cost,
        None => turns.cost_of(rows, one.row).unwrap_or(0),
    };
    let Some(turn) = turn_of(&one.counter, cost) else {
        return Err(PotentialFault::Limit);
    };
    Ok(Head {
        row: one.row,
        turn,
        bare_turn: turn,
        shared_turn: short_turn_of(&one.counter, shared.unwrap_or(cost), turn),
        longest_turn: short_turn_of(&one.counter, longest, turn),
        has_own_turns: own.is_some(),
        is_zero: false,
        waits: false,
    })
}

/// The multiple of a counter by the cost of a turn, which counts as 1,000,000 T-states at most.
fn short_turn_of(counter: &Counter, cost: u64, otherwise: Linear) -> Linear {
    turn_of(counter, cost.min(1_000_000)).unwrap_or(otherwise)
}

/// The multiple of a counter by the cost of a turn, with a sign where the counter goes up; None if the cost is above
/// 1,000,000 T-states.
fn turn_of(counter: &Counter, cost: u64) -> Option<Linear> {
    let cost = cost.min(2_000_000) as i32;
    multiple_of(counter.variable, if counter.rises { -cost } else { cost })
}

/// Gives a loop's row the constant 0.
pub(crate) fn set_zero(heads: &mut [Head], place: usize) {
    if let Some(head) = heads.get_mut(place) {
        head.is_zero = true;
    }
}

/// Gives the constant 0 to the first loop's row without it that has no own turns, or else to the first without it.
pub(crate) fn give_first_up(heads: &mut [Head]) {
    let outer = heads
        .iter()
        .position(|head| !head.is_zero && !head.has_own_turns);
    let first = match outer {
        Some(place) => Some(place),
        None => heads.iter().position(|head| !head.is_zero),
    };
    if let Some(place) = first {
        set_zero(heads, place);
    }
}

/// Gives each of these rows the turn that it shares with others at its address. The result is whether one changes.
pub(crate) fn share_turns(heads: &mut [Head]) -> bool {
    let mut changed = false;
    for head in heads {
        changed = changed || head.turn != head.shared_turn;
        head.turn = head.shared_turn;
    }
    changed
}

/// Gives each of these rows its own turn again, without those of loops within it.
pub(crate) fn restore_turns(heads: &mut [Head]) {
    for head in heads {
        head.turn = head.bare_turn;
        head.waits = false;
    }
}

/// Exchanges the own turn and the longest turn of each of these rows.
pub(crate) fn exchange_turns(heads: &mut [Head]) {
    for head in heads {
        let turn = head.turn;
        head.turn = head.longest_turn;
        head.longest_turn = turn;
    }
}
