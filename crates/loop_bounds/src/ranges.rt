// Ranges of variables, and cuts of them.
ghost use Rattle.std.specs.Prelude.{◌≡◌, ℕ, Option, Some, None, IsSomeAnd, MatchBool};
ghost use Rattle.std.specs.Bool.{OnFalse};
ghost use Rattle.intervals.specs.Range.{RangeView, Within};
ghost use Rattle.loop_bounds.specs.Ranges.{full_box};
ghost use Rattle.loop_bounds.specs.declared.variable.Variable.{Variable};

use crate::variable::Variable;
use intervals::WordRange;

/// A range for each variable. A byte variable has a range within 0 to 255. A variable that does not exist, such as a
/// slot beyond the shape, may have any range.
pub trait Ranges {
    ghost range_of: { Self → Variable → RangeView };

    fn range(&self, variable: Variable) -> WordRange
        ensures { result ≡ range_of self.now variable };
}

/// Full ranges: nothing is known of any variable.
#[derive(Drop)]
pub struct Unbounded;

impl Ranges for Unbounded {
    ghost range_of = { λ _. full_box };

    fn range(&self, _variable: Variable) -> WordRange {
        WordRange::full()
    }
}

/// A state with ranges in which one variable can be cut. The cut may change other ranges too: a cut of B changes the
/// range of BC.
pub trait Tightenable: Ranges {
    ghost holds: { Self → (Variable → ℕ) → Type 0 };

    ghost cut_to: { Self → Variable → RangeView → Option Self };

    /// Cuts a variable to a range and answers whether anything is left. If nothing is, the state stays as it was.
    fn cut(&mut self, variable: Variable, to: WordRange) -> bool
        ensures exact { MatchBool result (cut_to self.old variable to
            ≡ Some self.new) (cut_to self.old variable to ≡ None) }
        ensures unchanged { OnFalse result (self.new ≡ self.old) };

    ghost in_ranges: { (s : Self) (x : Variable → ℕ) (v : Variable) → holds s x → Within (Self.range_of s v) (x v) };

    ghost keeps: { (s : Self) (x : Variable → ℕ) (v : Variable) (to : RangeView) → holds s x → Within to (x v) → IsSomeAnd (cut_to s v to) (λ t. holds t x) };
}
