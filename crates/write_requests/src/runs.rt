// The rows that may come next after a row, without costs.

use crate::requests::Requests;
use std::alloc::{AllocError, Global};

/// Adjacent rows, from `start` to below `end`, counted from the procedure's first row. A certificate has at most 65,535
/// rows.
#[derive(Clone, Copy)]
pub(crate) struct Run {
    pub(crate) start: u16,
    pub(crate) end: u16,
}

/// The rows that may come next after a row, in the order in which a search follows them. Adjacent rows take no more
/// memory than one.
#[derive(Drop)]
pub struct RowRuns {
    runs: Vec<Run>,
}

impl RowRuns {
    /// No rows.
    pub fn new(alloc: Global) -> RowRuns {
        RowRuns {
            runs: Vec::new(alloc),
        }
    }

    /// Adds the rows from `start` to below `end`, counted from the procedure's first row. They are joined with the last
    /// rows if they begin where these end. The error is refused memory.
    pub fn add(&mut self, start: u32, end: u32) -> Result<(), AllocError> {
        let run = Run {
            start: row_number(start),
            end: row_number(end),
        };
        match self.runs.last_mut() {
            Some(last) if last.end == run.start => last.end = run.end,
            _ => self.runs.push(run)?,
        }
        Ok(())
    }

    pub(crate) fn as_slice(&self) -> &[Run] {
        self.runs.as_slice()
    }
}

/// The number of a row; a certificate has at most 65,535 rows.
fn row_number(row: u32) -> u16 {
    row.min(65_535) as u16
}

/// The rows that may come next after each row, by what the rows request. The error is refused memory.
pub fn runs_of(alloc: Global, all: &[Requests]) -> Result<Vec<RowRuns>, AllocError> {
    let mut list = Vec::new(alloc);
    for requests in all {
        let mut runs = RowRuns::new(alloc);
        for request in &requests.of_rows {
            runs.add(request.start, request.end)?;
        }
        list.push(runs)?;
    }
    Ok(list)
}
