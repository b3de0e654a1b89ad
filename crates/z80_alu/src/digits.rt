// Decimal digits: DAA, RLD and RRD.
ghost use Rattle.std.specs.Prelude.{◌≡◌};
ghost use Rattle.z80_alu.specs.Flags.{flags_byte, flags_of};
ghost use Rattle.z80_alu.specs.Digits.{decimal_correction, decimal_adjusted, daa_flags, rld_a, rld_byte, rrd_a, rrd_byte, rotate_digit_flags};

use crate::flags::Flags;

// What DAA adds to A, or subtracts after a subtraction.
#[inline]
#[tactic(auto, unfolding(crate::specs::Digits::decimal_correction))]
fn correction(a: u8, before: Flags) -> u8
    ensures { result ≡ decimal_correction a before }
{
    let low = if before.half_carry || a & 0x0F > 9 {
        0x06
    } else {
        0x00
    };
    let high = if before.carry || a > 0x99 { 0x60 } else { 0x00 };
    low + high
}

/// A after DAA, and the flags. P/V is parity, N stays as in `f`, and C is set if it was set or A was above 99h (UM0080,
/// "DAA"; docs/INSTRUCTIONS.md, "Flags"). H and bits 5 and 3 come from `noise`.
#[inline]
#[tactic(auto, unfolding(crate::specs::Digits::daa_flags, crate::specs::Digits::decimal_adjusted))]
pub fn daa(a: u8, f: u8, noise: u8) -> (u8, u8)
    ensures value { result.0 ≡ decimal_adjusted a (flags_of f) }
    ensures flags { result.1 ≡ flags_byte (daa_flags a f noise) }
{
    let before = Flags::of(f);
    let correction = correction(a, before);
    let value = if before.subtract {
        a.wrapping_sub(correction)
    } else {
        a.wrapping_add(correction)
    };
    let flags = Flags {
        subtract: before.subtract,
        carry: before.carry || a > 0x99,
        ..Flags::of_result(value, noise)
    };
    (value, flags.byte())
}

// The flags of RLD and RRD, from A after them.
#[inline]
#[tactic(auto, unfolding(crate::specs::Digits::rotate_digit_flags))]
fn digit_flags(a: u8, f: u8, noise: u8) -> u8
    ensures { result ≡ flags_byte (rotate_digit_flags a f noise) }
{
    let flags = Flags {
        half_carry: false,
        subtract: false,
        carry: Flags::of(f).carry,
        ..Flags::of_result(a, noise)
    };
    flags.byte()
}

/// A and the byte at HL after RLD, and the flags: parity of A; C stays as in `f` (UM0080, "RLD"). Bits 5 and 3 come
/// from `noise`.
#[inline]
pub fn rld(a: u8, byte: u8, f: u8, noise: u8) -> (u8, u8, u8)
    ensures a { result.0 ≡ rld_a a byte }
    ensures byte { result.1 ≡ rld_byte a byte }
    ensures flags { result.2 ≡ flags_byte (rotate_digit_flags (rld_a a byte) f noise) }
{
    let new_a = a & 0xF0 | byte >> 4;
    let new_byte = byte << 4 | a & 0x0F;
    (new_a, new_byte, digit_flags(new_a, f, noise))
}

/// A and the byte at HL after RRD, and the flags: parity of A; C stays as in `f` (UM0080, "RRD"). Bits 5 and 3 come
/// from `noise`.
#[inline]
pub fn rrd(a: u8, byte: u8, f: u8, noise: u8) -> (u8, u8, u8)
    ensures a { result.0 ≡ rrd_a a byte }
    ensures byte { result.1 ≡ rrd_byte a byte }
    ensures flags { result.2 ≡ flags_byte (rotate_digit_flags (rrd_a a byte) f noise) }
{
    let new_a = a & 0xF0 | byte & 0x0F;
    let new_byte = a << 4 | byte >> 4;
    (new_a, new_byte, digit_flags(new_a, f, noise))
}
