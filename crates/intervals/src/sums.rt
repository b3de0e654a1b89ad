// Sums and differences of ranges by the window rule.
ghost use Rattle.std.specs.Prelude.{◌≡◌, ℕ, ◌+◌, ◌-◌, ◌%◌, ◌≤◌};
ghost use Rattle.intervals.specs.Range.{single, TakesInto, TakesBothInto};
ghost use Rattle.intervals.specs.Sums.{window, sum, sum_with_carry, difference, difference_with_carry, increment, decrement, negation, displacement_of, displacement};

use crate::range::{ByteRange, WordRange};

/// The residues modulo 256 of the results from `low` to `high` if these lie in one window, else full.
fn bytes_in_window(low: u16, high: u16) -> ByteRange
    requires { low ≤ high }
    ensures { result ≡ window 256 low high }
{
    if low / 256 == high / 256 {
        ByteRange {
            low: (low % 256) as u8,
            high: (high % 256) as u8,
        }
    } else {
        ByteRange::full()
    }
}

/// The residues modulo 65,536 of the results from `low` to `high` if these lie in one window, else full.
fn words_in_window(low: u32, high: u32) -> WordRange
    requires { low ≤ high }
    ensures { result ≡ window 65536 low high }
{
    if low / 65_536 == high / 65_536 {
        WordRange {
            low: (low % 65_536) as u16,
            high: (high % 65_536) as u16,
        }
    } else {
        WordRange::full()
    }
}

/// Sums and differences of bytes by the window rule (UM0080, "8-Bit Arithmetic Group"). Differences are computed 256
/// higher, which keeps them from going below 0 and changes no residue.
impl ByteRange {
    /// ADD A,s.
    pub fn sum(self, other: ByteRange) -> ByteRange
        ensures exact { result ≡ sum 256 self other }
        ensures contains { TakesBothInto (λ x y. (x + y) % 256) self other result }
    {
        let (low, high) = (u16::from(self.low), u16::from(self.high));
        let (other_low, other_high) = (u16::from(other.low), u16::from(other.high));
        bytes_in_window(low + other_low, high + other_high)
    }

    /// ADC A,s, with either carry.
    pub fn sum_with_carry(self, other: ByteRange) -> ByteRange
        ensures exact { result ≡ sum_with_carry 256 self other }
        ensures contains { (carry : ℕ) → carry ≤ 1
            → TakesBothInto (λ x y. (x + y + carry) % 256) self other result }
    {
        let (low, high) = (u16::from(self.low), u16::from(self.high));
        let (other_low, other_high) = (u16::from(other.low), u16::from(other.high));
        bytes_in_window(low + other_low, high + other_high + 1)
    }

    /// SUB s and CP s.
    pub fn difference(self, other: ByteRange) -> ByteRange
        ensures exact { result ≡ difference 256 self other }
        ensures contains { TakesBothInto (λ x y. (256 + x - y) % 256) self other result }
    {
        let (low, high) = (u16::from(self.low), u16::from(self.high));
        let (other_low, other_high) = (u16::from(other.low), u16::from(other.high));
        bytes_in_window(256 + low - other_high, 256 + high - other_low)
    }

    /// SBC A,s, with either carry.
    pub fn difference_with_carry(self, other: ByteRange) -> ByteRange
        ensures exact { result ≡ difference_with_carry 256 self other }
        ensures contains { (carry : ℕ) → carry ≤ 1
            → TakesBothInto (λ x y. (256 + x - y - carry) % 256) self other result }
    {
        let (low, high) = (u16::from(self.low), u16::from(self.high));
        let (other_low, other_high) = (u16::from(other.low), u16::from(other.high));
        bytes_in_window(256 + low - other_high - 1, 256 + high - other_low)
    }

    /// INC r.
    pub fn increment(self) -> ByteRange
        ensures exact { result ≡ increment 256 self }
        ensures contains { TakesInto (λ x. (x + 1) % 256) self result }
    {
        let (low, high) = (u16::from(self.low), u16::from(self.high));
        bytes_in_window(low + 1, high + 1)
    }

    /// DEC r.
    pub fn decrement(self) -> ByteRange
        ensures exact { result ≡ decrement 256 self }
        ensures contains { TakesInto (λ x. (256 + x - 1) % 256) self result }
    {
        let (low, high) = (u16::from(self.low), u16::from(self.high));
        bytes_in_window(256 + low - 1, 256 + high - 1)
    }

    /// NEG.
    pub fn negation(self) -> ByteRange
        ensures exact { result ≡ negation self }
        ensures contains { TakesInto (λ x. (256 - x) % 256) self result }
    {
        let (low, high) = (u16::from(self.low), u16::from(self.high));
        bytes_in_window(256 - high, 256 - low)
    }
}

/// Sums and differences of words by the window rule (UM0080, "16-Bit Arithmetic Group"). Differences are computed
/// 65,536 higher, which keeps them from going below 0 and changes no residue.
impl WordRange {
    /// ADD HL,ss, ADD IX,pp and ADD IY,rr.
    pub fn sum(self, other: WordRange) -> WordRange
        ensures exact { result ≡ sum 65536 self other }
        ensures contains { TakesBothInto (λ x y. (x + y) % 65536) self other result }
    {
        let (low, high) = (u32::from(self.low), u32::from(self.high));
        let (other_low, other_high) = (u32::from(other.low), u32::from(other.high));
        words_in_window(low + other_low, high + other_high)
    }

    /// ADC HL,ss, with either carry.
    pub fn sum_with_carry(self, other: WordRange) -> WordRange
        ensures exact { result ≡ sum_with_carry 65536 self other }
        ensures contains { (carry : ℕ) → carry ≤ 1
            → TakesBothInto (λ x y. (x + y + carry) % 65536) self other result }
    {
        let (low, high) = (u32::from(self.low), u32::from(self.high));
        let (other_low, other_high) = (u32::from(other.low), u32::from(other.high));
        words_in_window(low + other_low, high + other_high + 1)
    }

    /// SBC HL,ss, with either carry.
    pub fn difference_with_carry(self, other: WordRange) -> WordRange
        ensures exact { result ≡ difference_with_carry 65536 self other }
        ensures contains { (carry : ℕ) → carry ≤ 1
            → TakesBothInto (λ x y. (65536 + x - y - carry) % 65536) self other result }
    {
        let (low, high) = (u32::from(self.low), u32::from(self.high));
        let (other_low, other_high) = (u32::from(other.low), u32::from(other.high));
        words_in_window(65_536 + low - other_high - 1, 65_536 + high - other_low)
    }

    /// INC ss, INC IX and INC IY; also HL and DE in a block instruction that counts up.
    pub fn increment(self) -> WordRange
        ensures exact { result ≡ increment 65536 self }
        ensures contains { TakesInto (λ x. (x + 1) % 65536) self result }
    {
        let (low, high) = (u32::from(self.low), u32::from(self.high));
        words_in_window(low + 1, high + 1)
    }

    /// DEC ss, DEC IX and DEC IY; also BC in a block instruction, and HL and DE in one that counts down.
    pub fn decrement(self) -> WordRange
        ensures exact { result ≡ decrement 65536 self }
        ensures contains { TakesInto (λ x. (65536 + x - 1) % 65536) self result }
    {
        let (low, high) = (u32::from(self.low), u32::from(self.high));
        words_in_window(65_536 + low - 1, 65_536 + high - 1)
    }

    /// The addresses of (IX+d) or (IY+d). `pattern` is the byte d, which stands for -128 to 127.
    pub fn displacement(self, pattern: u8) -> WordRange
        ensures exact { result ≡ displacement self pattern }
        ensures contains { TakesInto (λ x. (x + displacement_of pattern) % 65536) self result }
    {
        let (low, high) = (u32::from(self.low), u32::from(self.high));
        let raised = if pattern < 128 {
            65_536 + u32::from(pattern)
        } else {
            65_536 + u32::from(pattern) - 256
        };
        words_in_window(low + raised, high + raised)
    }
}
