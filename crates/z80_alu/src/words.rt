// Sums and differences of words: ADD, ADC, SBC, INC and DEC of pairs.
ghost use Rattle.std.specs.Prelude.{◌≡◌, false};
ghost use Rattle.z80_alu.specs.Flags.{flags_byte};
ghost use Rattle.z80_alu.specs.Words.{sum16, sum16_flags, carried_sum16_flags, difference16, carried_difference16_flags};

use crate::flags::Flags;

/// `a + b` and the flags of ADD HL,ss, ADD IX,pp and ADD IY,rr: S, Z and P/V stay as in `f` (UM0080, "16-Bit Arithmetic
/// Group"). Flag bits 5 and 3 come from `noise`.
#[inline]
pub fn add16(a: u16, b: u16, f: u8, noise: u8) -> (u16, u8)
    ensures value { result.0 ≡ sum16 a b false }
    ensures flags { result.1 ≡ flags_byte (sum16_flags a b f noise) }
{
    let sum = u32::from(a) + u32::from(b);
    let value = (sum & 0xFFFF) as u16;
    let carries = a ^ b ^ value;
    let flags = Flags {
        half_carry: carries & 0x1000 != 0,
        subtract: false,
        carry: sum > 0xFFFF,
        ..Flags::kept(f, noise)
    };
    (value, flags.byte())
}

/// `a + b + carry` and the flags of ADC HL,ss (UM0080, "16-Bit Arithmetic Group"). Flag bits 5 and 3 come from `noise`.
#[inline]
pub fn adc16(a: u16, b: u16, carry: bool, noise: u8) -> (u16, u8)
    ensures value { result.0 ≡ sum16 a b carry }
    ensures flags { result.1 ≡ flags_byte (carried_sum16_flags a b carry noise) }
{
    let sum = u32::from(a) + u32::from(b) + u32::from(carry);
    let value = (sum & 0xFFFF) as u16;
    let carries = a ^ b ^ value;
    let flags = Flags {
        sign: value & 0x8000 != 0,
        zero: value == 0,
        half_carry: carries & 0x1000 != 0,
        parity_overflow: (a ^ value) & (b ^ value) & 0x8000 != 0,
        subtract: false,
        carry: sum > 0xFFFF,
        ..Flags::of(noise)
    };
    (value, flags.byte())
}

/// `a - b - carry` and the flags of SBC HL,ss (UM0080, "16-Bit Arithmetic Group"). Flag bits 5 and 3 come from `noise`.
#[inline]
pub fn sbc16(a: u16, b: u16, carry: bool, noise: u8) -> (u16, u8)
    ensures value { result.0 ≡ difference16 a b carry }
    ensures flags { result.1 ≡ flags_byte (carried_difference16_flags a b carry noise) }
{
    let difference = 0x1_0000 + u32::from(a) - u32::from(b) - u32::from(carry);
    let value = (difference & 0xFFFF) as u16;
    let borrows = a ^ b ^ value;
    let flags = Flags {
        sign: value & 0x8000 != 0,
        zero: value == 0,
        half_carry: borrows & 0x1000 != 0,
        parity_overflow: (a ^ b) & (a ^ value) & 0x8000 != 0,
        subtract: true,
        carry: difference < 0x1_0000,
        ..Flags::of(noise)
    };
    (value, flags.byte())
}

/// `a + 1` modulo 65,536, for INC ss (UM0080, "16-Bit Arithmetic Group"). No flag changes.
#[inline]
pub fn inc16(a: u16) -> u16
    ensures { result ≡ sum16 a 1 false }
{
    a.wrapping_add(1)
}

/// `a - 1` modulo 65,536, for DEC ss (UM0080, "16-Bit Arithmetic Group"). No flag changes.
#[inline]
pub fn dec16(a: u16) -> u16
    ensures { result ≡ difference16 a 1 false }
{
    a.wrapping_sub(1)
}
