// Logic, shifts and rotates of byte ranges.
ghost use Rattle.std.specs.Prelude.{◌≡◌, ◌≤◌, ◌-◌, ◌*◌, ◌/◌, ◌%◌, bit_and, bit_or, bit_xor};
ghost use Rattle.intervals.specs.Range.{single, TakesInto, TakesBothInto};
ghost use Rattle.intervals.specs.Logic.{ones_from, conjunction, disjunction, exclusive_disjunction, complement, halves, doubles, of_single, rotation_left, rotation_right, with_bit_set, with_bit_reset};

use crate::range::ByteRange;

/// The least of 0, 1, 3, 7 .. 255 that is not below `byte`.
fn ones_from(byte: u8) -> u8
    ensures value { result ≡ ones_from byte }
    ensures above { byte ≤ result }
{
    match byte {
        0 => 0,
        1 => 1,
        2..=3 => 3,
        4..=7 => 7,
        8..=15 => 15,
        16..=31 => 31,
        32..=63 => 63,
        64..=127 => 127,
        _ => 255,
    }
}

/// Logic, shifts and rotates of bytes (UM0080, "8-Bit Arithmetic Group", "General-Purpose Arithmetic" and "Rotate and
/// Shift Group"). An instruction that is not here gives the full range.
impl ByteRange {
    /// AND s.
    pub fn and(self, other: ByteRange) -> ByteRange
        ensures exact { result ≡ conjunction self other }
        ensures contains { TakesBothInto bit_and self other result }
    {
        match (self.value(), other.value()) {
            (Some(a), Some(b)) => ByteRange::single(a & b),
            _ => ByteRange::at_most(self.high.min(other.high)),
        }
    }

    /// OR s.
    pub fn or(self, other: ByteRange) -> ByteRange
        ensures exact { result ≡ disjunction self other }
        ensures contains { TakesBothInto bit_or self other result }
    {
        match (self.value(), other.value()) {
            (Some(a), Some(b)) => ByteRange::single(a | b),
            _ => ByteRange {
                low: self.low.max(other.low),
                high: ones_from(self.high.max(other.high)),
            },
        }
    }

    /// XOR s.
    pub fn xor(self, other: ByteRange) -> ByteRange
        ensures exact { result ≡ exclusive_disjunction self other }
        ensures contains { TakesBothInto bit_xor self other result }
    {
        match (self.value(), other.value()) {
            (Some(a), Some(b)) => ByteRange::single(a ^ b),
            _ => ByteRange::at_most(ones_from(self.high.max(other.high))),
        }
    }

    /// CPL.
    pub fn complement(self) -> ByteRange
        ensures exact { result ≡ complement self }
        ensures contains { TakesInto (λ x. 255 - x) self result }
    {
        ByteRange {
            low: !self.high,
            high: !self.low,
        }
    }

    /// SRL r.
    pub fn halves(self) -> ByteRange
        ensures exact { result ≡ halves self }
        ensures contains { TakesInto (λ x. x / 2) self result }
    {
        ByteRange {
            low: self.low / 2,
            high: self.high / 2,
        }
    }

    /// SLA r.
    pub fn doubles(self) -> ByteRange
        ensures exact { result ≡ doubles self }
        ensures contains { TakesInto (λ x. 2 * x % 256) self result }
    {
        if self.high <= 127 {
            ByteRange {
                low: 2 * self.low,
                high: 2 * self.high,
            }
        } else {
            ByteRange::full()
        }
    }

    /// RLC r and RLCA.
    #[tactic(auto, using(crate::proofs::Bytes::rotate_left_byte))]
    pub fn rotation_left(self) -> ByteRange
        ensures exact { result ≡ of_single rotation_left self }
        ensures contains { TakesInto rotation_left self result }
    {
        match self.value() {
            Some(byte) => ByteRange::single(byte.rotate_left(1)),
            None => ByteRange::full(),
        }
    }

    /// RRC r and RRCA.
    #[tactic(auto, using(crate::proofs::Bytes::rotate_right_byte))]
    pub fn rotation_right(self) -> ByteRange
        ensures exact { result ≡ of_single rotation_right self }
        ensures contains { TakesInto rotation_right self result }
    {
        match self.value() {
            Some(byte) => ByteRange::single(byte.rotate_right(1)),
            None => ByteRange::full(),
        }
    }

    /// SET b,r. Bit 0 is the lowest, bit 7 the highest; `bit` counts modulo 8.
    #[tactic(auto, using(crate::proofs::Bytes::with_bit_set_below))]
    pub fn with_bit_set(self, bit: u8) -> ByteRange
        ensures exact { result ≡ of_single (with_bit_set bit) self }
        ensures contains { TakesInto (with_bit_set bit) self result }
    {
        match self.value() {
            Some(byte) => ByteRange::single(byte | 1 << (bit % 8)),
            None => ByteRange::full(),
        }
    }

    /// RES b,r. Bit 0 is the lowest, bit 7 the highest; `bit` counts modulo 8.
    pub fn with_bit_reset(self, bit: u8) -> ByteRange
        ensures exact { result ≡ of_single (with_bit_reset bit) self }
        ensures contains { TakesInto (with_bit_reset bit) self result }
    {
        match self.value() {
            Some(byte) => ByteRange::single(byte & !(1 << (bit % 8))),
            None => ByteRange::full(),
        }
    }
}
