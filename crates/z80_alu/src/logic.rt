// Logic of bytes, and the flag C: AND, OR, XOR, CPL, SCF and CCF.
ghost use Rattle.std.specs.Prelude.{◌≡◌, ◌-◌, bit_and, bit_or, bit_xor};
ghost use Rattle.z80_alu.specs.Flags.{flags_byte};
ghost use Rattle.z80_alu.specs.Logic.{and8_flags, or8_flags, xor8_flags, cpl_flags, scf_flags, ccf_flags};

use crate::flags::Flags;

/// `a & b` and its flags, for AND (UM0080, "AND s"). Flag bits 5 and 3 come from `noise`.
#[inline]
#[tactic(auto, unfolding(crate::specs::Logic::and8_flags))]
pub fn and8(a: u8, b: u8, noise: u8) -> (u8, u8)
    ensures value { result.0 ≡ bit_and a b }
    ensures flags { result.1 ≡ flags_byte (and8_flags a b noise) }
{
    let value = a & b;
    let flags = Flags {
        half_carry: true,
        subtract: false,
        carry: false,
        ..Flags::of_result(value, noise)
    };
    (value, flags.byte())
}

/// `a | b` and its flags, for OR (UM0080, "OR s"). Flag bits 5 and 3 come from `noise`.
#[inline]
#[tactic(auto, unfolding(crate::specs::Logic::or8_flags))]
pub fn or8(a: u8, b: u8, noise: u8) -> (u8, u8)
    ensures value { result.0 ≡ bit_or a b }
    ensures flags { result.1 ≡ flags_byte (or8_flags a b noise) }
{
    let value = a | b;
    let flags = Flags {
        half_carry: false,
        subtract: false,
        carry: false,
        ..Flags::of_result(value, noise)
    };
    (value, flags.byte())
}

/// `a ^ b` and its flags, for XOR (UM0080, "XOR s"). Flag bits 5 and 3 come from `noise`.
#[inline]
#[tactic(auto, unfolding(crate::specs::Logic::xor8_flags))]
pub fn xor8(a: u8, b: u8, noise: u8) -> (u8, u8)
    ensures value { result.0 ≡ bit_xor a b }
    ensures flags { result.1 ≡ flags_byte (xor8_flags a b noise) }
{
    let value = a ^ b;
    let flags = Flags {
        half_carry: false,
        subtract: false,
        carry: false,
        ..Flags::of_result(value, noise)
    };
    (value, flags.byte())
}

/// `!a` and its flags, for CPL: H and N are set, the others stay as in `f` (UM0080, "CPL"). Flag bits 5 and 3 come from
/// `noise`.
#[inline]
#[tactic(auto, unfolding(crate::specs::Logic::cpl_flags))]
pub fn cpl(a: u8, f: u8, noise: u8) -> (u8, u8)
    ensures value { result.0 ≡ 255 - a }
    ensures flags { result.1 ≡ flags_byte (cpl_flags f noise) }
{
    let flags = Flags {
        half_carry: true,
        subtract: true,
        ..Flags::kept(f, noise)
    };
    (!a, flags.byte())
}

/// The flags of SCF: C is set; S, Z and P/V stay as in `f` (UM0080, "SCF"). Bits 5 and 3 come from `noise`.
#[inline]
#[tactic(auto, unfolding(crate::specs::Logic::scf_flags))]
pub fn scf(f: u8, noise: u8) -> u8
    ensures { result ≡ flags_byte (scf_flags f noise) }
{
    let flags = Flags {
        half_carry: false,
        subtract: false,
        carry: true,
        ..Flags::kept(f, noise)
    };
    flags.byte()
}

/// The flags of CCF: C is inverted, H is the old C; S, Z and P/V stay as in `f` (UM0080, "CCF"). Bits 5 and 3 come from
/// `noise`.
#[inline]
#[tactic(auto, unfolding(crate::specs::Logic::ccf_flags))]
pub fn ccf(f: u8, noise: u8) -> u8
    ensures { result ≡ flags_byte (ccf_flags f noise) }
{
    let carry = Flags::of(f).carry;
    let flags = Flags {
        half_carry: carry,
        subtract: false,
        carry: !carry,
        ..Flags::kept(f, noise)
    };
    flags.byte()
}
