// How much the search for a way compares.

ghost use Rattle.std.specs.Prelude.{◌≡◌, length};
ghost use Rattle.cert_form.specs.Contents.{map_of_board};

use abs_step::{Next, NextKind};
use address_map::{Map, Rom};
use call_graph::ProcId;
use cert_contents::{Certificate, RowId};
use check_cover::callee_at;
use check_ways::{Subject, may_have_exit};
use std::alloc::Global;

/// Two states have so many pairs to compare, and their slots besides.
const PAIRS: u64 = 10;

/// A row of a callee counts as so many comparisons.
const CALLEE_ROW: u64 = 10;

/// So many more if it may have an exit.
const EXIT: u64 = 100;

/// An upper bound of the comparisons of pairs and slots by which `dearest` finds a way (docs/CHECKER.md, "The dearest
/// way"). Each row counts 1. Each jump from it counts, for each row where it arrives, 10 and its slots. Each call counts
/// 10 for each row of the callee; and for each of these that may have an exit 100 and, for each row after the call, 10
/// and the caller's slots. None if the sum is above `most`. The ROM has to have as many bytes as the certificate says.
pub fn comparisons(
    alloc: Global,
    rom: &Rom,
    certificate: &Certificate,
    proc: ProcId,
    most: u64,
) -> Option<u64>
    requires { certificate.now.rom_len ≡ length rom.now }
{
    let map = certificate.board().map(rom.len());
    let rows = certificate.rows_of(proc);
    let mut count = 0u64;
    for id in rows.start..rows.end {
        count = count.saturating_add(comparisons_at(alloc, rom, &map, certificate, id));
        if count > most {
            return None;
        }
    }
    Some(count)
}

/// The same for the row with this number alone.
fn comparisons_at(alloc: Global, rom: &Rom, map: &Map, certificate: &Certificate, id: RowId) -> u64
    requires map { map.now ≡ map_of_board certificate.now }
    requires len { map.now.rom_len ≡ length rom.now }
{
    let mut count = 1u64;
    let Some(subject) = Subject::of(rom, map, certificate, id) else {
        return count;
    };
    let Ok(nexts) = subject.step(alloc) else {
        return count;
    };
    for next in nexts.as_slice() {
        count = count.saturating_add(comparisons_by(&subject, next));
    }
    count
}

/// The same for one successor of a row.
fn comparisons_by(subject: &Subject, next: &Next) -> u64 {
    match next.kind {
        NextKind::Jump => comparisons_where(subject, next, next.address),
        NextKind::Call => comparisons_of_call(subject, next),
        NextKind::Exit => 0,
    }
}

/// The comparisons of a state with as many slots as a successor's with the rows at an address of the procedure.
fn comparisons_where(subject: &Subject, next: &Next, address: u16) -> u64 {
    let rows = subject.certificate.rows_at(subject.row.proc, address);
    let slots = u64::try_from(next.state.shape.len()).unwrap_or(u64::MAX);
    u64::from(rows.end.saturating_sub(rows.start)).saturating_mul(PAIRS.saturating_add(slots))
}

/// The comparisons for a call.
fn comparisons_of_call(subject: &Subject, next: &Next) -> u64 {
    let Some(callee) = callee_at(subject.certificate, next.address) else {
        return 0;
    };
    let behind = comparisons_where(subject, next, subject.behind);
    let rows = subject.certificate.rows_of(callee.number);
    let mut count = 0u64;
    for id in rows.start..rows.end {
        count = count.saturating_add(CALLEE_ROW);
        if may_have_exit(subject.rom, subject.certificate, id) {
            count = count.saturating_add(EXIT).saturating_add(behind);
        }
    }
    count
}
