// The byte F and its eight flags.
ghost use Rattle.std.specs.Prelude.{◌≡◌};

/// The eight flags of the byte F (UM0080, "Status Indicator Flags").
#[derive(Clone, Copy)]
pub struct Flags {
    /// S, bit 7: the highest bit of the result.
    pub sign: bool,
    /// Z, bit 6: the result is 0.
    pub zero: bool,
    /// Bit 5, which the manual leaves undefined.
    pub bit5: bool,
    /// H, bit 4: a carry or a borrow between the low and the high digit.
    pub half_carry: bool,
    /// Bit 3, which the manual leaves undefined.
    pub bit3: bool,
    /// P/V, bit 2: an even number of ones, or a signed overflow.
    pub parity_overflow: bool,
    /// N, bit 1: the last operation was a subtraction.
    pub subtract: bool,
    /// C, bit 0: a carry or a borrow out of the highest bit.
    pub carry: bool,
}

impl Flags {
    ghost use Rattle.z80_alu.specs.Flags.{flags_byte, flags_of, kept_flags, result_flags};

    /// The eight flags of a byte F.
    #[inline]
    #[tactic(auto, unfolding(crate::specs::Flags::flags_of))]
    pub fn of(byte: u8) -> Flags
        ensures { result ≡ flags_of byte }
    {
        Flags {
            sign: byte & 0x80 != 0,
            zero: byte & 0x40 != 0,
            bit5: byte & 0x20 != 0,
            half_carry: byte & 0x10 != 0,
            bit3: byte & 0x08 != 0,
            parity_overflow: byte & 0x04 != 0,
            subtract: byte & 0x02 != 0,
            carry: byte & 0x01 != 0,
        }
    }

    /// The byte F with these flags.
    #[inline(always)]
    #[tactic(auto, unfolding(crate::specs::Flags::flags_byte))]
    pub fn byte(self) -> u8
        ensures { result ≡ flags_byte self }
    {
        u8::from(self.sign) << 7
            | u8::from(self.zero) << 6
            | u8::from(self.bit5) << 5
            | u8::from(self.half_carry) << 4
            | u8::from(self.bit3) << 3
            | u8::from(self.parity_overflow) << 2
            | u8::from(self.subtract) << 1
            | u8::from(self.carry)
    }

    // The six flags of `f`; bits 5 and 3 from the noise.
    #[inline]
    pub(crate) fn kept(f: u8, noise: u8) -> Flags
        ensures { result ≡ kept_flags f noise }
    {
        let noise = Flags::of(noise);
        Flags {
            bit5: noise.bit5,
            bit3: noise.bit3,
            ..Flags::of(f)
        }
    }

    // S, Z and the parity of a byte; the other bits from the noise.
    #[inline]
    pub(crate) fn of_result(value: u8, noise: u8) -> Flags
        ensures { result ≡ result_flags value noise }
    {
        Flags {
            sign: value & 0x80 != 0,
            zero: value == 0,
            parity_overflow: value.count_ones() % 2 == 0,
            ..Flags::of(noise)
        }
    }
}
