// T-states and stack bytes at an address.

use crate::view::View;
use abs_state::AbsState;
use certificate::RowRef;
use loop_bounds::{Linear, Ranges};
use std::alloc::AllocError;
use survey::RowAt;

/// The most that a linear is in a state.
fn greatest(linear: &Linear, state: &AbsState) -> i64 {
    let mut sum = i64::from(linear.constant());
    for term in linear.terms() {
        let range = state.range(term.variable);
        let value = if term.coefficient < 0 {
            range.low()
        } else {
            range.high()
        };
        let product = i64::from(term.coefficient).saturating_mul(i64::from(value));
        sum = sum.saturating_add(product);
    }
    sum
}

/// The most T-states that are left in the procedure of a row.
fn left_of(row: &RowRef) -> i64 {
    match row.potential {
        Some(potential) => greatest(&potential, &row.state()),
        None => 0,
    }
}

impl View<'_> {
    /// The most T-states that are left at rows of procedures with a time; None if no row is of such a procedure.
    pub fn left(&self, rows: &[RowAt]) -> Option<i64> {
        let certificate = self.accepted.certificate();
        let mut most = None;
        for at in rows {
            if let (Some(row), Some(Some(_))) = (
                certificate.row(at.id),
                certificate.time(at.proc),
            ) {
                let left = left_of(&row);
                most = Some(match most {
                    Some(before) => left.max(before),
                    None => left,
                });
            }
        }
        most
    }

    /// The least and the most bytes on the stack in the procedures of rows, their return addresses included.
    pub fn stack_bytes(&self, rows: &[RowAt]) -> (u16, u16) {
        let certificate = self.accepted.certificate();
        let (mut least, mut most) = (u16::MAX, 0u16);
        for at in rows {
            if let Some(row) = certificate.row(at.id) {
                let base = if at.proc == 0 { 0u16 } else { 2u16 };
                let bytes = base.saturating_add(row.shape.bytes());
                least = least.min(bytes);
                most = most.max(bytes);
            }
        }
        (least.min(most), most)
    }

    /// The T-states of the instruction at an address: `10`, or `12/7` where it depends on whether the instruction is
    /// taken.
    pub fn cost_text(&self, address: u16) -> Result<String, AllocError> {
        match self.accepted.code().costs_at(address) {
            Some((taken, not_taken)) if taken != not_taken => {
                format!(in self.alloc; "{taken}/{not_taken}")
            }
            Some((cost, _)) => format!(in self.alloc; "{cost}"),
            None => String::from_str(self.alloc, "-"),
        }
    }
}
