// The reasons of a row for its stack bytes and its callees: 11 and 13.

ghost use Rattle.std.specs.Prelude.{◌≡◌, ◌↔◌, ◌≤◌, ◌+◌, ◌*◌, IsTrue, Ok, length};
ghost use Rattle.std.specs.List.{All};
ghost use Rattle.check_rules.specs.Stack.{NextFitsDepth, RankFalls, callee_of};
ghost use Rattle.check_rules.specs.Table.{Passes, bytes_in, entry_bytes};
ghost use Rattle.check_ways.specs.Ways.{step_of};

use abs_step::{Next, NextKind, Reason};
use cert_lines::ProcKind;
use check_cover::{Callee, callee_at};
use check_ways::Subject;
use stack_shape::Shape;

/// Whether the procedure's depth has room for the row, for each successor, and for each callee.
pub(crate) fn fits_depth(subject: &Subject, nexts: &[Next]) -> bool
    requires { step_of subject.now ≡ Ok nexts.now }
    ensures { IsTrue result ↔ Passes subject.now Reason.StackDepth }
{
    row_fits_depth(subject) && all_fit_depth(subject, nexts)
}

/// Whether the depth has room for each successor and for each callee.
fn all_fit_depth(subject: &Subject, nexts: &[Next]) -> bool
    ensures { IsTrue result ↔ All (NextFitsDepth subject.now) nexts.now }
{
    nexts.iter().all(|next| next_fits_depth(subject, next))
}

pub(crate) fn row_fits_depth(subject: &Subject) -> bool
    ensures { IsTrue result
        ↔ (bytes_in subject.now subject.now.row.state ≤ subject.now.proc.depth) }
{
    bytes_of(subject.proc.kind, subject.row.shape) <= u32::from(subject.proc.depth)
}

/// Whether the depth has room for a successor, and for the callee if it is a call.
fn next_fits_depth(subject: &Subject, next: &Next) -> bool
    ensures { IsTrue result ↔ NextFitsDepth subject.now next.now }
{
    let depth = u32::from(subject.proc.depth);
    let bytes = bytes_of(subject.proc.kind, &next.state.shape);
    match callee_of(subject, next) {
        Some(callee) => bytes + u32::from(callee.proc.depth) <= depth,
        None => bytes <= depth,
    }
}

/// The procedure that a successor calls, if it is a call of one.
fn callee_of(subject: &Subject, next: &Next) -> Option<Callee>
    ensures { result ≡ callee_of subject.now next.now }
{
    match next.kind {
        NextKind::Call => callee_at(subject.certificate, next.address),
        NextKind::Jump | NextKind::Exit => None,
    }
}

/// The bytes on the stack of an activation with this shape: two for each slot, and two for the return address, which
/// main does not have.
fn bytes_of(kind: ProcKind, shape: &Shape) -> u32
    ensures value { result ≡ entry_bytes kind + 2 * length shape.now }
    ensures short { result ≤ 130 }
{
    let entry = match kind {
        ProcKind::Main => 0,
        ProcKind::Nmi | ProcKind::Sub => 2,
    };
    entry + 2 * shape.len() as u32
}

/// Whether each callee has a lower rank than the row's procedure.
pub(crate) fn ranks_fall(subject: &Subject, nexts: &[Next]) -> bool
    requires { step_of subject.now ≡ Ok nexts.now }
    ensures { IsTrue result ↔ Passes subject.now Reason.Rank }
{
    all_ranks_fall(subject, nexts)
}

/// Whether the callee of each of these successors has a lower rank than the row's procedure.
fn all_ranks_fall(subject: &Subject, nexts: &[Next]) -> bool
    ensures { IsTrue result ↔ All (RankFalls subject.now) nexts.now }
{
    nexts.iter().all(|next| rank_falls(subject, next))
}

/// Whether the callee has a lower rank than the row's procedure, if the successor is a call.
fn rank_falls(subject: &Subject, next: &Next) -> bool
    ensures { IsTrue result ↔ RankFalls subject.now next.now }
{
    match callee_of(subject, next) {
        Some(callee) => callee.proc.rank < subject.proc.rank,
        None => true,
    }
}
