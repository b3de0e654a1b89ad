// Data writes, one for each byte.
ghost use Rattle.std.specs.Prelude.{◌≡◌};

use intervals::{ByteRange, WordRange};

/// A data write of one byte: the addresses that it may go to, and the bytes that it may write.
#[derive(Clone, Copy)]
pub struct DataWrite {
    pub at: WordRange,
    pub byte: ByteRange,
}

impl Default for DataWrite {
    ghost use Rattle.intervals.specs.Range.{full};

    ghost is_default = { λ w. w ≡ record { at = full 65536; byte = full 256 } };

    /// A write about which nothing is known.
    fn default() -> DataWrite {
        DataWrite {
            at: WordRange::full(),
            byte: ByteRange::full(),
        }
    }
}
