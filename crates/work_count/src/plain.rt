// The work of arrivals without an index: each row at an address counts.

use call_graph::ProcId;
use cert_contents::Certificate;
use check_cover::{for_each_value, work_of_row};
use std::alloc::{AllocError, Global};

/// Entry N is the work of the first N rows.
#[derive(Drop)]
pub(crate) struct PlainWork {
    before: Vec<u64>,
}

impl PlainWork {
    pub fn of(alloc: Global, certificate: &Certificate) -> Result<PlainWork, AllocError> {
        let mut before = Vec::new(alloc);
        let mut sum = 0u64;
        before.push(sum)?;
        for id in 0..certificate.row_count() {
            sum = sum.saturating_add(work_of_row(certificate, id));
            before.push(sum)?;
        }
        Ok(PlainWork { before })
    }

    /// The work of one state that arrives at an address of a procedure.
    pub fn at(&self, certificate: &Certificate, proc: ProcId, address: u16) -> u64 {
        let rows = certificate.rows_at(proc, address);
        let (Some(start), Some(end)) = (
            self.before.get(rows.start as usize),
            self.before.get(rows.end as usize),
        ) else {
            return u64::MAX;
        };
        for_each_value(certificate, proc, address, end.saturating_sub(*start))
    }
}
