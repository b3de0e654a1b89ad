// Sums and differences of bytes: ADD, ADC, SUB, SBC, CP, NEG, INC and DEC.
ghost use Rattle.std.specs.Prelude.{◌≡◌, false};
ghost use Rattle.z80_alu.specs.Flags.{flags_byte};
ghost use Rattle.z80_alu.specs.Add.{sum8, sum8_flags, difference8, difference8_flags, increment8_flags, decrement8_flags};

use crate::flags::Flags;

// Bit k of `a ^ b ^ value` is the carry into bit k. The sum overflows if both operands have the sign that the value has
// not.
#[inline(always)]
fn sum(a: u8, b: u8, carry: bool, noise: u8) -> (u8, Flags)
    ensures value { result.0 ≡ sum8 a b carry }
    ensures flags { result.1 ≡ sum8_flags a b carry noise }
{
    let sum = u16::from(a) + u16::from(b) + u16::from(carry);
    let value = (sum & 0xFF) as u8;
    let carries = a ^ b ^ value;
    let flags = Flags {
        sign: value & 0x80 != 0,
        zero: value == 0,
        half_carry: carries & 0x10 != 0,
        parity_overflow: (a ^ value) & (b ^ value) & 0x80 != 0,
        subtract: false,
        carry: sum > 0xFF,
        ..Flags::of(noise)
    };
    (value, flags)
}

// Bit k of `a ^ b ^ value` is the borrow from bit k. The difference overflows if the signs of the operands differ and
// the value has not the sign of the first.
#[inline(always)]
pub(crate) fn difference(a: u8, b: u8, carry: bool, noise: u8) -> (u8, Flags)
    ensures value { result.0 ≡ difference8 a b carry }
    ensures flags { result.1 ≡ difference8_flags a b carry noise }
{
    let difference = 0x100 + u16::from(a) - u16::from(b) - u16::from(carry);
    let value = (difference & 0xFF) as u8;
    let borrows = a ^ b ^ value;
    let flags = Flags {
        sign: value & 0x80 != 0,
        zero: value == 0,
        half_carry: borrows & 0x10 != 0,
        parity_overflow: (a ^ b) & (a ^ value) & 0x80 != 0,
        subtract: true,
        carry: difference < 0x100,
        ..Flags::of(noise)
    };
    (value, flags)
}

/// `a + b + carry` and its flags: ADD without a carry, ADC with C (UM0080, "8-Bit Arithmetic Group"). Flag bits 5 and 3
/// come from `noise`.
#[inline(always)]
pub fn add8(a: u8, b: u8, carry: bool, noise: u8) -> (u8, u8)
    ensures value { result.0 ≡ sum8 a b carry }
    ensures flags { result.1 ≡ flags_byte (sum8_flags a b carry noise) }
{
    let (value, flags) = sum(a, b, carry, noise);
    (value, flags.byte())
}

/// `a - b - carry` and its flags: SUB without a carry, SBC with C, CP for the flags alone, and NEG as `0 - a` (UM0080,
/// "8-Bit Arithmetic Group"). Flag bits 5 and 3 come from `noise`.
#[inline(always)]
pub fn sub8(a: u8, b: u8, carry: bool, noise: u8) -> (u8, u8)
    ensures value { result.0 ≡ difference8 a b carry }
    ensures flags { result.1 ≡ flags_byte (difference8_flags a b carry noise) }
{
    let (value, flags) = difference(a, b, carry, noise);
    (value, flags.byte())
}

/// `a + 1` and its flags, for INC: as ADD, but C stays as in `f` (UM0080, "INC r").
#[inline(always)]
#[tactic(auto, unfolding(crate::specs::Add::increment8_flags))]
pub fn inc8(a: u8, f: u8, noise: u8) -> (u8, u8)
    ensures value { result.0 ≡ sum8 a 1 false }
    ensures flags { result.1 ≡ flags_byte (increment8_flags a f noise) }
{
    let (value, flags) = sum(a, 1, false, noise);
    let carry = Flags::of(f).carry;
    (value, Flags { carry, ..flags }.byte())
}

/// `a - 1` and its flags, for DEC: as SUB, but C stays as in `f` (UM0080, "DEC m").
#[inline(always)]
#[tactic(auto, unfolding(crate::specs::Add::decrement8_flags))]
pub fn dec8(a: u8, f: u8, noise: u8) -> (u8, u8)
    ensures value { result.0 ≡ difference8 a 1 false }
    ensures flags { result.1 ≡ flags_byte (decrement8_flags a f noise) }
{
    let (value, flags) = difference(a, 1, false, noise);
    let carry = Flags::of(f).carry;
    (value, Flags { carry, ..flags }.byte())
}
