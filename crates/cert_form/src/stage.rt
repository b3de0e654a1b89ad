// The order of a certificate's lines.

ghost use Rattle.std.specs.Prelude.{◌≡◌};
ghost use Rattle.cert_form.specs.Reader.{stage_rank};

/// Which line comes next.
#[derive(Clone, Copy, PartialEq, Eq)]
pub enum Stage {
    Header,
    Rom,
    /// The board's map, from version 2 on.
    Board,
    Stack,
    Budget,
    /// A procedure or, once they are complete, any line that may come after them. The next stages allow later lines
    /// too.
    Procs,
    Splits,
    Inlines,
    Cells,
    Rows,
    /// No line: `end` was read.
    Nothing,
}

impl Stage {
    /// The place of a stage in the order, from 0.
    pub fn rank(self) -> u8
        ensures { result ≡ stage_rank self }
    {
        match self {
            Stage::Header => 0,
            Stage::Rom => 1,
            Stage::Board => 2,
            Stage::Stack => 3,
            Stage::Budget => 4,
            Stage::Procs => 5,
            Stage::Splits => 6,
            Stage::Inlines => 7,
            Stage::Cells => 8,
            Stage::Rows => 9,
            Stage::Nothing => 10,
        }
    }
}
