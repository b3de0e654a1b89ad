// Whether two effects are equal.
ghost use Rattle.std.specs.Prelude.{◌≡◌, IsTrue};

use loop_bounds::{Change, Effect};

/// Whether two changes are found to be equal.
fn is_same(a: &Change, b: &Change) -> bool
    ensures { IsTrue result → a.now ≡ b.now }
{
    match (a, b) {
        (Change::Old(v), Change::Old(w)) => v.rank() == w.rank(),
        (Change::Raised(v), Change::Raised(w)) => v.rank() == w.rank(),
        (Change::Lowered(v), Change::Lowered(w)) => v.rank() == w.rank(),
        (Change::Constant(m), Change::Constant(n)) => *m == *n,
        (Change::Unknown, Change::Unknown) => true,
        _ => false,
    }
}

/// Whether two effects are found to be equal. It looks no further where a slot is written.
pub(crate) fn are_equal(a: &Effect, b: &Effect) -> bool
    ensures { IsTrue result → a.now ≡ b.now }
{
    a.slot.is_none()
        && b.slot.is_none()
        && is_same(&a.a, &b.a)
        && is_same(&a.b, &b.b)
        && is_same(&a.c, &b.c)
        && is_same(&a.d, &b.d)
        && is_same(&a.e, &b.e)
        && is_same(&a.h, &b.h)
        && is_same(&a.l, &b.l)
        && is_same(&a.bc, &b.bc)
        && is_same(&a.de, &b.de)
        && is_same(&a.hl, &b.hl)
        && is_same(&a.ix, &b.ix)
        && is_same(&a.iy, &b.iy)
}
