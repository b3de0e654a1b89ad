// The ranges of a row where a way arrives at it.

ghost use Rattle.std.specs.Prelude.{◌≡◌};
ghost use Rattle.dearest_way.specs.Worth.{box_at, cut_range};

use abs_state::AbsState;
use intervals::WordRange;
use loop_bounds::{Ranges, Variable};

/// The state of a row, and a state that arrives at it. A variable has the numbers that lie in the ranges of both; where
/// there are none, those of the row.
#[derive(Clone, Copy)]
pub(crate) struct Entered<'a> {
    pub(crate) own: &'a AbsState,
    pub(crate) arriving: &'a AbsState,
}

impl<'a> Ranges for Entered<'a> {
    ghost range_of = { λ e. box_at e.own.now e.arriving.now };

    fn range(&self, variable: Variable) -> WordRange {
        let same = variable;
        let own = self.own.range(variable);
        let arriving = self.arriving.range(same);
        cut_range(own, arriving)
    }
}

/// The numbers in both ranges; those of the first where there are none.
fn cut_range(own: WordRange, arriving: WordRange) -> WordRange
    ensures { result ≡ cut_range own arriving }
{
    match own.intersection(arriving) {
        Some(both) => both,
        None => own,
    }
}
