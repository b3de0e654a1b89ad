// The flags of LD A,I and LD A,R.
ghost use Rattle.std.specs.Prelude.{◌≡◌};
ghost use Rattle.z80_alu.specs.Flags.{flags_byte};
ghost use Rattle.z80_alu.specs.Load.{load_a_flags};

use crate::flags::Flags;

/// The flags of LD A,I and LD A,R, where A receives `value`. C stays as in `f` (UM0080, "LD A,I"). P/V and bits 5 and 3
/// come from `noise` (docs/INSTRUCTIONS.md, "Flags").
#[inline]
#[tactic(auto, unfolding(crate::specs::Load::load_a_flags))]
pub fn load_a_flags(value: u8, f: u8, noise: u8) -> u8
    ensures { result ≡ flags_byte (load_a_flags value f noise) }
{
    let flags = Flags {
        sign: value & 0x80 != 0,
        zero: value == 0,
        half_carry: false,
        subtract: false,
        carry: Flags::of(f).carry,
        ..Flags::of(noise)
    };
    flags.byte()
}
