// The potentials of all rows of a procedure.

ghost use Rattle.std.specs.Prelude.{◌≡◌, length};

use crate::fault::PotentialFault;
use crate::heads::{Counter, counters_of, group_of};
use crate::solving::{Nesting, Solving};
use address_map::Rom;
use annotations::LoopNote;
use call_graph::ProcId;
use cert_contents::Certificate;
use loop_bounds::Linear;
use std::alloc::Global;
use write_payments::Choice;
use write_requests::{
    Placed, Requests, RowRuns, Turns, placed_rows, requests_of, rows_on_cycles, runs_of,
};

/// A potential for each row of a procedure, in the order of the rows (docs/ANALYSIS.md, "Potentials"). `times` has the
/// T-states of procedures by their numbers. `nesting` says whether loops within loops are bounded (docs/INFERENCE.md,
/// "Loops within loops"). The ROM has to have as many bytes as the certificate says.
///
/// # Errors
///
/// `Unbounded` if the rows have a cycle that passes no loop's row; `Limit` if a potential is above what a certificate
/// can say; `NoMemory` where memory was refused.
pub fn potentials(
    alloc: Global,
    rom: &Rom,
    certificate: &Certificate,
    proc: ProcId,
    times: &[u32],
    notes: &[LoopNote],
    nesting: Nesting,
) -> Result<Vec<Linear>, PotentialFault>
    requires { certificate.now.rom_len ≡ length rom.now }
{
    let rows = certificate.rows_of(proc);
    let first = rows.start;
    let all = requests_of(alloc, rom, certificate, proc, times)?;
    let counters = counters_of(alloc, certificate, rows, notes)?;
    let named = named_of(alloc, &counters)?;
    let searches = searches_of(alloc, certificate, first, &all, &named)?;
    let mut solving = Solving::new(alloc, certificate, first, &all, nesting)?;
    solve_all(alloc, &mut solving, &all, &counters, &named, &searches)?;
    let mut list = Vec::new(alloc);
    for row in 0..all.len() {
        list.push(solving.potential(row))?;
    }
    Ok(list)
}

/// Which rows have a counter.
fn named_of(alloc: Global, counters: &[Option<Counter>]) -> Result<Vec<bool>, PotentialFault> {
    let mut named = Vec::new(alloc);
    for counter in counters {
        named.push(counter.is_some())?;
    }
    Ok(named)
}

/// What searches through the rows of a procedure find.
#[derive(Drop)]
struct Searches {
    placed: Vec<Placed>,
    on_cycles: Vec<bool>,
    /// By the search that leaves out the rows with a counter.
    apart: Vec<Placed>,
}

/// What searches through the rows of a procedure find. A cycle of rows without a counter is a fault.
fn searches_of(
    alloc: Global,
    certificate: &Certificate,
    first: u32,
    all: &[Requests],
    named: &[bool],
) -> Result<Searches, PotentialFault> {
    let runs = runs_of(alloc, all)?;
    let apart = apart_from_loops(alloc, certificate, first, &runs, named)?;
    let none = vec![in alloc; false; all.len()]?;
    let placed = placed_rows(alloc, &runs, &none)?;
    let on_cycles = rows_on_cycles(alloc, &runs, &placed)?;
    Ok(Searches {
        placed,
        on_cycles,
        apart,
    })
}

/// The search through the rows of a procedure without those that have a counter. A cycle of these is a fault.
fn apart_from_loops(
    alloc: Global,
    certificate: &Certificate,
    first: u32,
    runs: &[RowRuns],
    named: &[bool],
) -> Result<Vec<Placed>, PotentialFault> {
    let apart = placed_rows(alloc, runs, named)?;
    let on_cycles = rows_on_cycles(alloc, runs, &apart)?;
    match on_cycles.iter().position(|on_one| *on_one) {
        None => Ok(apart),
        Some(row) => {
            let id = first.saturating_add(row.min(65_535) as u32);
            let address = certificate.address(id).unwrap_or(0);
            Err(PotentialFault::Unbounded(address))
        }
    }
}

/// Makes the potentials of the rows of a procedure, group by group.
fn solve_all(
    alloc: Global,
    solving: &mut Solving,
    all: &[Requests],
    counters: &[Option<Counter>],
    named: &[bool],
    searches: &Searches,
) -> Result<(), PotentialFault> {
    let sorted = by_groups(alloc, &searches.placed)?;
    let mut turns = Turns::new(alloc, all, &searches.placed, named)?;
    let mut rest = sorted.as_slice();
    for _ in 0..sorted.len() {
        let (rows, behind) = first_group(rest);
        rest = behind;
        solve(alloc, solving, &mut turns, rows, counters, searches)?;
    }
    Ok(())
}

/// The rows by their groups; those of a group in the order in which the search left them.
fn by_groups(alloc: Global, placed: &[Placed]) -> Result<Vec<Placed>, PotentialFault> {
    let mut sorted = Vec::from_slice(alloc, placed)?;
    sorted.sort_unstable_by_key(|row| (row.group, row.left));
    Ok(sorted)
}

/// The rows of the first group and the other rows, of rows that are sorted by their groups.
fn first_group(sorted: &[Placed]) -> (&[Placed], &[Placed]) {
    let Some(first) = sorted.first().copied() else {
        return (sorted, sorted);
    };
    let count = sorted.partition_point(|row| row.group <= first.group);
    sorted.split_at(count.min(sorted.len()))
}

/// Makes the potentials of a group: of a row on no cycle, or of rows on cycles.
fn solve(
    alloc: Global,
    solving: &mut Solving,
    turns: &mut Turns,
    rows: &[Placed],
    counters: &[Option<Counter>],
    searches: &Searches,
) -> Result<(), PotentialFault> {
    let Some(first) = rows.first().copied() else {
        return Ok(());
    };
    let on_cycles = searches.on_cycles.as_slice();
    if on_cycles.get(usize::from(first.row)).copied() == Some(true) {
        let mut group = group_of(alloc, turns, rows, counters, &searches.apart)?;
        return solving.solve(&mut group);
    }
    solving
        .make(first.row, Choice::Any)
        .map_err(|_| PotentialFault::Limit)
}
