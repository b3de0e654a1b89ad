// The greatest potential at an address.

ghost use Rattle.std.specs.Prelude.{◌≡◌, ◌≤◌, ◌<◌, ◌≤ℤ◌, ℕ, IfSome, Some, slice_get};
ghost use Rattle.cert_lines.specs.declared.row.Row.{Row};
ghost use Rattle.check_tables.specs.Tables.{IsAtMost, IsTop};

use cert_contents::{Certificate, RowId};
use loop_bounds::Linear;

/// The rows from `start` to below `end`, and a number of T-states from 0 to 1,000,000,000. Their potentials have no
/// variable and are at most this number.
#[derive(Clone, Copy)]
pub struct Top {
    pub start: RowId,
    pub end: RowId,
    pub potential: i32,
}

impl Top {
    /// The greatest potential of these rows, or 0; None if one has a variable.
    pub(crate) fn of(certificate: &Certificate, start: RowId, end: RowId) -> Option<Top>
        ensures top { IfSome result (IsTop certificate.now) }
        ensures rows { IfSome result (λ t. (t.start ≡ start) × (t.end ≡ end)) }
    {
        let mut potential = 0;
        for id in start..end {
            potential = raised(certificate, id, potential)?;
        }
        Some(Top {
            start,
            end,
            potential,
        })
    }
}

/// The greater of a number and the potential of the row with this number; None if that has a variable.
fn raised(certificate: &Certificate, id: RowId, top: i32) -> Option<i32>
    ensures above { IfSome result (λ n. top ≤ℤ n) }
    ensures row { IfSome result (λ n. (row : Row) → slice_get certificate.now.rows id ≡ Some row
        → IsAtMost n row.potential) }
{
    match certificate.row(id) {
        Some(row) => match row.potential {
            Some(potential) => greater(top, &potential),
            None => Some(top),
        },
        None => Some(top),
    }
}

/// The greater of a number and a potential; None if that has a variable.
fn greater(top: i32, potential: &Linear) -> Option<i32>
    ensures { IfSome result (λ n. (top ≤ℤ n) × IsAtMost n (Some potential.now)) }
{
    if potential.terms().is_empty() {
        Some(top.max(potential.constant()))
    } else {
        None
    }
}
