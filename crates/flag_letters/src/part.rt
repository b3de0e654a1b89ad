// Flag parts: a letter and a linear.
ghost use Rattle.std.specs.Prelude.{◌≡◌};

use crate::letter::Letter;
use loop_bounds::Linear;

/// What one flag says of a linear over the variables at a row.
#[derive(Clone, Copy, PartialEq, Eq)]
pub struct FlagPart {
    pub letter: Letter,
    pub linear: Linear,
}

impl Default for FlagPart {
    ghost use Rattle.std.specs.Prelude.{[], pos};
    ghost use Rattle.flag_letters.specs.declared.letter.Letter.TheVariants.{CarryIfBelow};

    ghost is_default = { λ part. part ≡ record { letter = CarryIfBelow; linear = record { constant = pos 0; terms = [] } } };

    /// The part that says that C is clear.
    fn default() -> FlagPart {
        FlagPart {
            letter: Letter::CarryIfBelow,
            linear: Linear::zero(),
        }
    }
}
