// Bytes whose bits are known to be apart, or to be kept.
ghost use Rattle.std.specs.Prelude.{◌≡◌};
ghost use Rattle.intervals.specs.Logic.{ones_from};
ghost use Rattle.linear_effects.specs.Bits.{is_above, has_all};

use intervals::ByteRange;

/// The least of 0, 1, 3, 7 .. 255 that is not below `byte`.
fn ones_from(byte: u8) -> u8
    ensures { result ≡ ones_from byte }
{
    match byte {
        0 => 0,
        1 => 1,
        2..=3 => 3,
        4..=7 => 7,
        8..=15 => 15,
        16..=31 => 31,
        32..=63 => 63,
        64..=127 => 127,
        _ => 255,
    }
}

/// The number that the second byte is, if all its bits lie above those that the first may have.
pub(crate) fn is_above(a: ByteRange, b: ByteRange) -> bool
    ensures { result ≡ is_above a b }
{
    b.low() == b.high() && u16::from(b.low()) % (u16::from(ones_from(a.high())) + 1) == 0
}

/// Whether the second byte is one number that has all bits that the first may have.
pub(crate) fn has_all(a: ByteRange, b: ByteRange) -> bool
    ensures { result ≡ has_all a b }
{
    let ones = ones_from(a.high());
    b.low() == b.high() && b.low() & ones == ones
}
