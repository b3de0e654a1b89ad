// Bits of a byte: BIT, SET and RES.
ghost use Rattle.std.specs.Prelude.{◌≡◌, ◌%◌};
ghost use Rattle.z80_alu.specs.Flags.{flags_byte};
ghost use Rattle.z80_alu.specs.Bits.{test_bit_flags, bit_set, bit_reset};

use crate::flags::Flags;

/// The flags of BIT: Z is the complement of bit `bit`, modulo 8, of `value`; C stays as in `f` (UM0080, "BIT b,r"). S,
/// P/V and bits 5 and 3 come from `noise`.
#[inline]
#[tactic(auto, unfolding(crate::specs::Bits::test_bit_flags))]
pub fn test_bit(bit: u8, value: u8, f: u8, noise: u8) -> u8
    ensures { result ≡ flags_byte (test_bit_flags (bit % 8) value f noise) }
{
    let flags = Flags {
        zero: value >> (bit % 8) & 1 == 0,
        half_carry: true,
        subtract: false,
        carry: Flags::of(f).carry,
        ..Flags::of(noise)
    };
    flags.byte()
}

/// `value` with bit `bit`, modulo 8, set, for SET (UM0080, "SET b,r"). No flag changes.
#[inline]
pub fn set_bit(bit: u8, value: u8) -> u8
    ensures { result ≡ bit_set (bit % 8) value }
{
    value | 1 << (bit % 8)
}

/// `value` with bit `bit`, modulo 8, reset, for RES (UM0080, "RES b,m"). No flag changes.
#[inline]
pub fn reset_bit(bit: u8, value: u8) -> u8
    ensures { result ≡ bit_reset (bit % 8) value }
{
    value & !(1 << (bit % 8))
}
