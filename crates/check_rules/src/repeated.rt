// Rows that are equal to the row before them.

ghost use Rattle.std.specs.Prelude.{◌≡◌, ◌-◌, ◌<◌, IsTrue, slice_get};

use abs_state::{Mode, Pairs};
use cert_contents::{Certificate, RowId};
use cert_lines::RowRef;
use check_cover::{are_same, have_same_claims};
use loop_bounds::Linear;

/// Whether a row is found to be equal to the one before it. Rows with a flag fact or with words on the stack are not
/// compared.
pub(crate) fn is_repeated(certificate: &Certificate, id: RowId) -> bool
    ensures { IsTrue result → ((0 < id)
        × (slice_get certificate.now.rows (id - 1) ≡ slice_get certificate.now.rows id)) }
{
    if id == 0 {
        return false;
    }
    match (certificate.row(id - 1), certificate.row(id)) {
        (Some(before), Some(row)) => are_equal(&before, &row),
        _ => false,
    }
}

/// Whether two rows are found to be equal.
fn are_equal(row: &RowRef, other: &RowRef) -> bool
    ensures { IsTrue result → row.now ≡ other.now }
{
    row.proc == other.proc
        && row.address == other.address
        && have_same_states(row, other)
        && have_same_claims(row, other)
        && are_same_potentials(&row.potential, &other.potential)
}

/// Whether the states of two rows are found to be equal.
fn have_same_states(row: &RowRef, other: &RowRef) -> bool
    ensures { IsTrue result → row.now.state ≡ other.now.state }
{
    is_same_mode(row.mode, other.mode)
        && row.armed == other.armed
        && row.flag.is_none()
        && other.flag.is_none()
        && row.shape.is_empty()
        && other.shape.is_empty()
        && are_same_pairs(row.pairs, other.pairs)
}

/// Whether pairs are found to be equal: they cover each other.
fn are_same_pairs(pairs: &Pairs, other: &Pairs) -> bool
    ensures { IsTrue result → pairs.now ≡ other.now }
{
    pairs.covers(other) && other.covers(pairs)
}

fn is_same_mode(mode: Mode, other: Mode) -> bool
    ensures { IsTrue result → mode ≡ other }
{
    mode == other
}

fn are_same_potentials(potential: &Option<Linear>, other: &Option<Linear>) -> bool
    ensures { IsTrue result → potential.now ≡ other.now }
{
    match (potential, other) {
        (Some(potential), Some(other)) => are_same(potential, other),
        (None, None) => true,
        _ => false,
    }
}
