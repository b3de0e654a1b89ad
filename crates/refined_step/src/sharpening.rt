// The successor of a step with a variable cut, as to the values of a linear effect.
ghost use Rattle.std.specs.Prelude.{◌≡◌, Some};
ghost use Rattle.abs_state.specs.Variables.{range_of};
ghost use Rattle.refined_step.specs.Sharpening.{to_word, value_range, cut_successor, sharpened};

use abs_draft::settled;
use abs_state::AbsState;
use abs_step::Next;
use intervals::WordRange;
use linear_effects::LinearEffect;
use linear_limits::extremes;
use loop_bounds::{Linear, Tightenable, Variable};

/// The word nearest to an integer.
fn to_word(value: i128) -> u16
    ensures { result ≡ to_word value }
{
    if value < 0 {
        return 0;
    }
    value.unsigned_abs().min(65535) as u16
}

/// The words from the least to the greatest value of a linear, each variable ranging by itself.
fn value_range(linear: &Linear, state: &AbsState) -> Option<WordRange>
    ensures { result ≡ value_range (range_of state.now) linear.now }
{
    let span = extremes(linear, state);
    WordRange::new(to_word(span.least), to_word(span.greatest))
}

/// Cuts a variable to a range. A variable that then has one value is that constant. Where nothing is left the successor
/// stays as it is.
pub(crate) fn cut_successor(next: &mut Next, variable: Variable, range: WordRange)
    ensures { next.new ≡ cut_successor variable (Some range) next.old }
{
    let mut left = next.state.copied();
    if left.cut(variable, range) {
        next.effect = settled(&next.moved, &left);
        next.state = left;
    }
}

/// Cuts the variable of a linear effect to the values of its linear over the row's ranges.
pub(crate) fn sharpen(next: &mut Next, effect: &LinearEffect, state: &AbsState)
    ensures { next.new ≡ sharpened state.now effect.now next.old }
{
    if let Some(range) = value_range(&effect.linear, state) {
        cut_successor(next, effect.variable, range);
    }
}
