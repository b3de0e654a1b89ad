// How much work a search among the rows at an address is (docs/CHECKER.md, "How long judging takes").

use crate::covering::Coverer;
use crate::index::Place;
use crate::program::split_at;
use call_graph::ProcId;
use cert_contents::{Certificate, RowId};
use std::ops::Range;

/// A row's ranges compared with a state's count as one comparison. Tightening a state by a fact counts as so many.
const FOR_FACT: u64 = 4;

/// Judging one fact of a row counts as so many, and judging one flag part.
const FOR_CLAIMED_FACT: u64 = 40;

const FOR_CLAIMED_PART: u64 = 300;

/// The values of a split's register.
const VALUES: u64 = 256;

/// A search tries the row that covered last first, and at a split it judges claims once more and the whole state first.
const TRIES: u64 = 3;

impl<'a> Coverer<'a> {
    /// An upper bound of the comparisons that one state which arrives at an address of a procedure takes. At a split
    /// they are made for each value of the register.
    pub fn work_at(&self, proc: ProcId, address: u16) -> u64 {
        let rows = self.certificate.rows_at(proc, address);
        let once = match self.index.at(rows.start) {
            Some(place) => self.work_of_place(place, rows.end.saturating_sub(rows.start)),
            None => work_of_rows(self.certificate, rows),
        };
        for_each_value(self.certificate, proc, address, once)
    }

    /// For each kind: the row that covered last, those of the search, and one row with its claims.
    fn work_of_place(&self, place: &Place, count: RowId) -> u64 {
        let mut work = 0u64;
        for kind in place.kinds.as_slice() {
            let ranges = ranges_of(self.certificate, kind.like);
            let claims = claims_of(self.certificate, kind.like);
            let tests = ranges.saturating_mul(2).saturating_add(kind.tests as u64);
            work = work.saturating_add(tests).saturating_add(claims);
        }
        if place.others == 0 {
            return work;
        }
        // Rows of no kind are found by testing all rows at the address, each with its claims.
        let each = 1 + 4 * (FOR_FACT + FOR_CLAIMED_FACT) + 8 * FOR_CLAIMED_PART;
        work.saturating_add(u64::from(count).saturating_mul(each))
    }
}

/// What it takes to test a row for one state that arrives, with its claims.
pub fn work_of_row(certificate: &Certificate, id: RowId) -> u64 {
    ranges_of(certificate, id).saturating_add(claims_of(certificate, id))
}

/// The work of a search at an address: once, or at a split for each value of the register.
pub fn for_each_value(certificate: &Certificate, proc: ProcId, address: u16, once: u64) -> u64 {
    let tried = once.saturating_mul(TRIES);
    match split_at(certificate, proc, address) {
        Some(_) => tried.saturating_mul(VALUES),
        None => tried,
    }
}

fn work_of_rows(certificate: &Certificate, rows: Range<RowId>) -> u64 {
    let mut work = 0u64;
    for id in rows.start..rows.end {
        work = work.saturating_add(work_of_row(certificate, id));
    }
    work
}

/// What it takes to tighten a state by the facts of a row and to compare it with the row's ranges.
fn ranges_of(certificate: &Certificate, id: RowId) -> u64 {
    match certificate.row(id) {
        Some(row) => 1 + FOR_FACT * row.facts.as_slice().len() as u64,
        None => 0,
    }
}

/// What it takes to judge the claims of a row.
fn claims_of(certificate: &Certificate, id: RowId) -> u64 {
    match certificate.row(id) {
        Some(row) => {
            let facts = row.facts.as_slice().len() as u64;
            let parts = row.parts.parts().len() as u64;
            FOR_CLAIMED_FACT * facts + FOR_CLAIMED_PART * parts
        }
        None => 0,
    }
}
