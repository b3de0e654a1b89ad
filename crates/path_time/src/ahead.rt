// The longest path from each row of a procedure to an exit.

ghost use Rattle.std.specs.Prelude.{◌≡◌, ◌+◌, ◌<◌, ◌≤◌, ◌^◌, ℕ, IfOk, IfSome, Contains, Some, length, map as mapped, vec_len};
ghost use Rattle.call_graph.specs.Calls.{IsCallOrder};
ghost use Rattle.cert_form.specs.Contents.{map_of_board};
ghost use Rattle.path_time.specs.Links.{AreLinks, edge_of_link};
ghost use Rattle.path_time.specs.Table.{AreSmall, Ends, FollowsTable, HasExits, IsAheadOfEntry, IsBest, IsOwnExit, IsTable, ahead_at, longer, one_more};
ghost use Rattle.path_time.specs.declared.links.Link.{Link as Joined};
ghost use Rattle.std.specs.List.Sorted.{IsNonDecreasingBy};

use crate::links::{Link, links_from};
use address_map::{Map, Rom};
use call_graph::ProcId;
use cert_contents::{Certificate, RowId};
use check_walks::cost_of_leaving;
use std::alloc::{AllocError, Global};
use std::ops::Range;

/// The longest path from a row to an exit: its T-states, the next row on it (None if the row itself has that exit), and
/// how many rows follow.
#[derive(Clone, Copy)]
pub(crate) struct Ahead {
    pub(crate) sum: u64,
    pub(crate) next: Option<u16>,
    pub(crate) behind: u32,
}

/// The same path with one more edge before it, to the row `row`, at this cost.
fn one_more(row: u16, cost: u32, ahead: Option<Ahead>) -> Option<Ahead>
    requires sum { IfSome ahead (λ a. a.sum < 2 ^ 63) }
    requires behind { IfSome ahead (λ a. a.behind < 2 ^ 31) }
    ensures { result ≡ one_more row cost ahead }
{
    match ahead {
        Some(ahead) => Some(Ahead {
            sum: ahead.sum + u64::from(cost),
            next: Some(row),
            behind: ahead.behind + 1,
        }),
        None => None,
    }
}

/// The path with the greater sum; the first if the sums are equal.
fn longer(one: Option<Ahead>, other: Option<Ahead>) -> Option<Ahead>
    ensures { result ≡ longer one other }
{
    match (one, other) {
        (Some(a), Some(b)) => Some(if a.sum < b.sum { b } else { a }),
        (Some(a), None) => Some(a),
        (None, b) => b,
    }
}

/// The longest path from each row of a procedure to an exit, by the rows' numbers. In the order each row comes after
/// those to which its links lead.
pub(crate) fn table_along(
    alloc: Global,
    rom: &Rom,
    map: &Map,
    certificate: &Certificate,
    proc: ProcId,
    links: &[Link],
    order: &[u16],
) -> Result<Vec<Option<Ahead>>, AllocError>
    requires map { map.now ≡ map_of_board certificate.now }
    requires len { map.now.rom_len ≡ length rom.now }
    requires links { AreLinks rom.now certificate.now proc links.now }
    requires rising { IsNonDecreasingBy (λ link. link.from) links.now }
    requires order { IsCallOrder (mapped edge_of_link links.now) order.now }
    ensures { IfOk result (λ table. IsTable rom.now certificate.now proc table.items) }
{
    let mut table = exits_of(alloc, rom, map, certificate, proc)?;
    for row in order {
        let at = usize::from(*row);
        table[at] = best_by(links_from(links, *row), &table, table[at]);
    }
    Ok(table)
}

/// The exits of the rows of a procedure, by the rows' numbers.
fn exits_of(
    alloc: Global,
    rom: &Rom,
    map: &Map,
    certificate: &Certificate,
    proc: ProcId,
) -> Result<Vec<Option<Ahead>>, AllocError>
    requires map { map.now ≡ map_of_board certificate.now }
    requires len { map.now.rom_len ≡ length rom.now }
    ensures { IfOk result (λ table. HasExits rom.now certificate.now proc table.items) }
{
    let mut table = nothing_ahead(alloc, certificate.row_count() as usize)?;
    let rows = certificate.rows_of(proc);
    for row in rows.start..rows.end {
        table[row as usize] = own_exit(alloc, rom, map, certificate, row);
    }
    Ok(table)
}

/// A table without any path.
fn nothing_ahead(alloc: Global, count: usize) -> Result<Vec<Option<Ahead>>, AllocError>
    ensures room { IfOk result (λ table. vec_len table ≡ count) }
    ensures none { IfOk result (λ table. (row : ℕ) → ahead_at table.items row ≡ None) }
{
    vec![in alloc; None; count]
}

fn own_exit(
    alloc: Global,
    rom: &Rom,
    map: &Map,
    certificate: &Certificate,
    row: RowId,
) -> Option<Ahead>
    requires map { map.now ≡ map_of_board certificate.now }
    requires len { map.now.rom_len ≡ length rom.now }
    ensures exit { IsOwnExit rom.now certificate.now row result }
    ensures low { IfSome result (λ ahead. (ahead.sum < 4294967296) × (ahead.behind ≡ 0)) }
{
    match cost_of_leaving(alloc, rom, map, certificate, row) {
        Some(cost) => Some(Ahead {
            sum: u64::from(cost),
            next: None,
            behind: 0,
        }),
        None => None,
    }
}

/// The longest of the paths by these links and the one before.
fn best_by(links: &[Link], table: &[Option<Ahead>], before: Option<Ahead>) -> Option<Ahead>
    requires within { (link : Joined) → Contains links.now link → link.to < length table.now }
    requires small { AreSmall table.now }
    ensures { IsBest links.now table.now before result }
{
    let mut best = before;
    for link in links {
        best = longer(
            best,
            one_more(link.to, link.cost, table[usize::from(link.to)]),
        );
    }
    best
}

/// The longest path from a procedure's entry: the best of these rows, with `before` T-states added. Its next row is the
/// first of the walk.
pub(crate) fn ahead_of_entry(
    table: &[Option<Ahead>],
    rows: Range<RowId>,
    before: u32,
) -> Option<Ahead>
    requires within { rows.end ≤ length table.now }
    requires room { length table.now ≤ 65535 }
    requires small { AreSmall table.now }
    ensures { IsAheadOfEntry table.now rows.start rows.end before result }
{
    let mut best = None;
    for row in rows.start..rows.end {
        best = longer(best, one_more(row as u16, before, table[row as usize]));
    }
    best
}

/// The rows of a path, up to the one that has its exit.
pub(crate) fn rows_along(
    alloc: Global,
    table: &[Option<Ahead>],
    first: Ahead,
) -> Result<Vec<RowId>, AllocError>
    requires { Ends table.now first }
    ensures { IfOk result (λ rows. FollowsTable table.now (Some first) rows.items) }
{
    let mut rows = Vec::new(alloc);
    let mut ahead = first;
    while let Some(row) = ahead.next {
        rows.push(RowId::from(row))?;
        let Some(there) = table[usize::from(row)] else {
            unreachable!()
        };
        ahead = there;
    }
    Ok(rows)
}
