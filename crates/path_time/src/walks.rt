// The longest walk of a procedure.

ghost use Rattle.std.specs.Prelude.{◌≡◌, ◌<◌, ◌↔◌, ℕ, List, IfErr, IfOk, OnOk, length, map, min, option_map, slice_get, slice_index};
ghost use Rattle.call_graph.specs.Calls.{IsCallOrder, IsCycle};
ghost use Rattle.path_time.specs.Links.{AreLinks, HaveRows, edge_of_link};
ghost use Rattle.path_time.specs.Table.{Ends, FollowsTable, IsOrderFault, IsTable, IsTableFault};
ghost use Rattle.path_time.specs.Walks.{GoesRound, HasNoTime, IsLongest, IsLowestOnRound};

use crate::ahead::{Ahead, ahead_of_entry, rows_along, table_along};
use crate::fault::TimeFault;
use crate::links::{Link, edges_of, links_of};
use address_map::Rom;
use call_graph::{GraphFault, ProcId, order};
use cert_contents::{Certificate, RowId};
use check_ways::cost_before;
use std::alloc::Global;

/// The longest walk of a procedure of a certificate (docs/CHECKER.md, "Walks"): its T-states, for the NMI routine with
/// those of the acceptance, and the numbers of its rows. The result is 0 and no rows if there is no walk; a sum above
/// 4,294,967,295 is given as that number. The ROM has to have as many bytes as the certificate says.
///
/// # Errors
///
/// `Untimed` if the procedure has no time. `Cycle` if its rows have a cycle, whether the entry leads there or not, with
/// the lowest address of a row on one. `NoMemory` where memory was refused.
pub fn longest(
    alloc: Global,
    rom: &Rom,
    certificate: &Certificate,
    proc: ProcId,
) -> Result<(u32, Vec<RowId>), TimeFault>
    requires of { proc < length certificate.now.procs }
    requires len { certificate.now.rom_len ≡ length rom.now }
    ensures longest { IfOk result
        (λ found. IsLongest rom.now certificate.now proc found.0 found.1.items) }
    ensures endless { OnOk result ((rows : List ℕ)
        → ¬ (GoesRound rom.now certificate.now proc rows)) }
    ensures cycle { (address : ℕ) → result ≡ Err (TimeFault.Cycle address)
        → IsLowestOnRound rom.now certificate.now proc address }
    ensures untimed { (result ≡ Err TimeFault.Untimed) ↔ HasNoTime certificate.now proc }
{
    let Some(procedure) = certificate.proc(proc) else {
        unreachable!()
    };
    if procedure.time.is_none() {
        return Err(TimeFault::Untimed);
    }
    // By the form, there are at most 65,535 rows.
    certificate.is_in_form();
    let table = table_of(alloc, rom, certificate, proc)?;
    let entries = certificate.rows_at(proc, procedure.entry);
    match ahead_of_entry(&table, entries, cost_before(procedure.kind)) {
        Some(ahead) => walk_along(alloc, &table, ahead),
        None => Ok((0, Vec::new(alloc))),
    }
}

/// The longest path from each row of a procedure to an exit.
fn table_of(
    alloc: Global,
    rom: &Rom,
    certificate: &Certificate,
    proc: ProcId,
) -> Result<Vec<Option<Ahead>>, TimeFault>
    requires { certificate.now.rom_len ≡ length rom.now }
    ensures table { IfOk result (λ table. IsTable rom.now certificate.now proc table.items) }
    ensures endless { OnOk result ((rows : List ℕ)
        → ¬ (GoesRound rom.now certificate.now proc rows)) }
    ensures fault { IfErr result (IsTableFault rom.now certificate.now proc) }
{
    // By the form, the rows rise by address.
    certificate.is_in_form();
    let map = certificate.board().map(rom.len());
    let Ok(links) = links_of(alloc, rom, &map, certificate, proc) else {
        return Err(TimeFault::NoMemory);
    };
    let rows = order_of(alloc, certificate, &links)?;
    match table_along(alloc, rom, &map, certificate, proc, &links, &rows) {
        Ok(table) => Ok(table),
        Err(_) => Err(TimeFault::NoMemory),
    }
}

/// The rows of these links, each once and after those to which its links lead.
fn order_of(alloc: Global, certificate: &Certificate, links: &[Link]) -> Result<Vec<u16>, TimeFault>
    requires { HaveRows certificate.now links.now }
    ensures order { IfOk result (λ list. IsCallOrder (map edge_of_link links.now) list.items) }
    ensures endless { OnOk result ((list : List ℕ)
        → ¬ (IsCycle (map edge_of_link links.now) list)) }
    ensures fault { IfErr result (IsOrderFault certificate.now (map edge_of_link links.now)) }
{
    let Ok(edges) = edges_of(alloc, links) else {
        return Err(TimeFault::NoMemory);
    };
    match order(alloc, &edges) {
        Ok(rows) => Ok(rows),
        Err(GraphFault::Cycle(rows)) => Err(TimeFault::Cycle(first_address(certificate, &rows))),
        Err(GraphFault::NoMemory) => Err(TimeFault::NoMemory),
    }
}

/// The address of the first of these rows.
fn first_address(certificate: &Certificate, rows: &[u16]) -> u16
    requires some { 0 < length rows.now }
    requires there { slice_index rows.now 0 < length certificate.now.rows }
    ensures { Some result
        ≡ option_map (λ row. row.address) (slice_get certificate.now.rows (slice_index rows.now 0)) }
{
    match certificate.address(RowId::from(rows[0])) {
        Some(address) => address,
        None => unreachable!(),
    }
}

/// The rows of a path and its sum; a sum above 4,294,967,295 is given as that number.
fn walk_along(
    alloc: Global,
    table: &[Option<Ahead>],
    first: Ahead,
) -> Result<(u32, Vec<RowId>), TimeFault>
    requires { Ends table.now first }
    ensures sum { IfOk result (λ found. found.0 ≡ min first.sum 4294967295) }
    ensures rows { IfOk result (λ found. FollowsTable table.now (Some first) found.1.items) }
    ensures memory { IfErr result (λ fault. fault ≡ TimeFault.NoMemory) }
{
    match rows_along(alloc, table, first) {
        Ok(rows) => Ok((told(first.sum), rows)),
        Err(_) => Err(TimeFault::NoMemory),
    }
}

/// A sum, cut to 4,294,967,295.
fn told(sum: u64) -> u32
    ensures { result ≡ min sum 4294967295 }
{
    sum.min(u64::from(u32::MAX)) as u32
}
