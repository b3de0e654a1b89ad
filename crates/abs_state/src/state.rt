// Abstract states.
ghost use Rattle.std.specs.Prelude.{◌≡◌};

use crate::fact::FlagFact;
use crate::mode::Mode;
use crate::pairs::Pairs;
use stack_shape::Shape;

/// What is known of the machine at an instruction of one procedure (docs/CHECKER.md, "What a row knows").
#[derive(Drop)]
pub struct AbsState {
    pub mode: Mode,
    /// The number of armed cells: the first of the kept cells, each with a byte of its range.
    pub armed: u16,
    pub pairs: Pairs,
    pub flag: Option<FlagFact>,
    pub shape: Shape,
}

impl AbsState {
    /// A copy. It takes no memory.
    pub fn copied(&self) -> AbsState
        ensures { result ≡ self.now }
    {
        AbsState {
            mode: self.mode,
            armed: self.armed,
            pairs: self.pairs,
            flag: self.flag,
            shape: self.shape.copied(),
        }
    }
}
