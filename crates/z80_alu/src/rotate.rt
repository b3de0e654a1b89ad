// Shifts and rotates with their flags.
ghost use Rattle.std.specs.Prelude.{◌≡◌};
ghost use Rattle.z80_alu.specs.declared.shift.Shift.TheVariants.{Rlc, Rrc, Rl, Rr};
ghost use Rattle.z80_alu.specs.Flags.{flags_byte, flags_of};
ghost use Rattle.z80_alu.specs.Rotate.{shift8_flags, rotate_a_flags};
ghost use Rattle.z80_alu.specs.Shift.{shifted};

use crate::flags::Flags;
use crate::shift::Shift;

/// The byte after a shift or rotate of a register or of memory, and its flags. RL and RR take `carry`, the old C, in
/// (UM0080, "Rotate and Shift Group"). Flag bits 5 and 3 come from `noise`.
#[inline]
#[tactic(auto, unfolding(crate::specs::Rotate::shift8_flags))]
pub fn shift8(shift: Shift, value: u8, carry: bool, noise: u8) -> (u8, u8)
    ensures value { result.0 ≡ shifted shift value carry }
    ensures flags { result.1 ≡ flags_byte (shift8_flags shift value carry noise) }
{
    let (value, out) = shift.applied(value, carry);
    let flags = Flags {
        half_carry: false,
        subtract: false,
        carry: out,
        ..Flags::of_result(value, noise)
    };
    (value, flags.byte())
}

// A and the flags after RLCA, RRCA, RLA or RRA.
#[inline]
#[tactic(auto, unfolding(crate::specs::Rotate::rotate_a_flags))]
fn rotate_a(shift: Shift, a: u8, f: u8, noise: u8) -> (u8, u8)
    ensures value { result.0 ≡ shifted shift a (flags_of f).carry }
    ensures flags { result.1 ≡ flags_byte (rotate_a_flags shift a f noise) }
{
    let (value, out) = shift.applied(a, Flags::of(f).carry);
    let flags = Flags {
        half_carry: false,
        subtract: false,
        carry: out,
        ..Flags::kept(f, noise)
    };
    (value, flags.byte())
}

/// A after RLCA, and the flags: S, Z and P/V stay as in `f` (UM0080, "RLCA"). Bits 5 and 3 come from `noise`.
#[inline]
pub fn rlca(a: u8, f: u8, noise: u8) -> (u8, u8)
    ensures value { result.0 ≡ shifted Rlc a (flags_of f).carry }
    ensures flags { result.1 ≡ flags_byte (rotate_a_flags Rlc a f noise) }
{
    rotate_a(Shift::Rlc, a, f, noise)
}

/// A after RRCA, and the flags: S, Z and P/V stay as in `f` (UM0080, "RRCA"). Bits 5 and 3 come from `noise`.
#[inline]
pub fn rrca(a: u8, f: u8, noise: u8) -> (u8, u8)
    ensures value { result.0 ≡ shifted Rrc a (flags_of f).carry }
    ensures flags { result.1 ≡ flags_byte (rotate_a_flags Rrc a f noise) }
{
    rotate_a(Shift::Rrc, a, f, noise)
}

/// A after RLA, and the flags: S, Z and P/V stay as in `f` (UM0080, "RLA"). Bits 5 and 3 come from `noise`.
#[inline]
pub fn rla(a: u8, f: u8, noise: u8) -> (u8, u8)
    ensures value { result.0 ≡ shifted Rl a (flags_of f).carry }
    ensures flags { result.1 ≡ flags_byte (rotate_a_flags Rl a f noise) }
{
    rotate_a(Shift::Rl, a, f, noise)
}

/// A after RRA, and the flags: S, Z and P/V stay as in `f` (UM0080, "RRA"). Bits 5 and 3 come from `noise`.
#[inline]
pub fn rra(a: u8, f: u8, noise: u8) -> (u8, u8)
    ensures value { result.0 ≡ shifted Rr a (flags_of f).carry }
    ensures flags { result.1 ≡ flags_byte (rotate_a_flags Rr a f noise) }
{
    rotate_a(Shift::Rr, a, f, noise)
}
