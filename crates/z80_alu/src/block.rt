// The flags of the block instructions: LDI, CPI and the like.
ghost use Rattle.std.specs.Prelude.{◌≡◌};
ghost use Rattle.z80_alu.specs.Flags.{flags_byte};
ghost use Rattle.z80_alu.specs.Block.{block_load_flags, block_compare_flags};

use crate::add::difference;
use crate::flags::Flags;

/// The flags of one turn of LDI, LDD, LDIR or LDDR. `more` says that BC is not 0 after it and becomes P/V; S, Z and C
/// stay as in `f` (UM0080, "LDI"). Bits 5 and 3 come from `noise`.
#[inline]
#[tactic(auto, unfolding(crate::specs::Block::block_load_flags))]
pub fn block_load_flags(f: u8, more: bool, noise: u8) -> u8
    ensures { result ≡ flags_byte (block_load_flags f more noise) }
{
    let flags = Flags {
        half_carry: false,
        parity_overflow: more,
        subtract: false,
        ..Flags::kept(f, noise)
    };
    flags.byte()
}

/// The flags of one turn of CPI, CPD, CPIR or CPDR. S, Z, H and N are those of `a - byte`. `more` says that BC is not 0
/// after it and becomes P/V; C stays as in `f` (UM0080, "CPI"). Bits 5 and 3 come from `noise`.
#[inline]
#[tactic(auto, unfolding(crate::specs::Block::block_compare_flags))]
pub fn block_compare_flags(a: u8, byte: u8, more: bool, f: u8, noise: u8) -> u8
    ensures { result ≡ flags_byte (block_compare_flags a byte more f noise) }
{
    let (_, compared) = difference(a, byte, false, noise);
    let flags = Flags {
        parity_overflow: more,
        carry: Flags::of(f).carry,
        ..compared
    };
    flags.byte()
}
