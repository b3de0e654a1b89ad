// The names of registers, modes and register pairs.
ghost use Rattle.intervals.specs.RegPair.{name_of};
ghost use Rattle.cert_fields.specs.Names.{mode_letter, register_letter};
ghost use Rattle.texts.specs.Numbers.{Always, Reads};

use abs_state::Mode;
use intervals::RegPair;
use z80_decode::Register8;

/// The register with this letter.
pub fn register_field(field: &[u8]) -> Option<Register8>
    ensures { Reads register_letter Always field.now result }
{
    match field {
        [b'A'] => Some(Register8::A),
        [b'B'] => Some(Register8::B),
        [b'C'] => Some(Register8::C),
        [b'D'] => Some(Register8::D),
        [b'E'] => Some(Register8::E),
        [b'H'] => Some(Register8::H),
        [b'L'] => Some(Register8::L),
        _ => None,
    }
}

/// The mode with this letter.
pub fn mode_field(field: &[u8]) -> Option<Mode>
    ensures { Reads mode_letter Always field.now result }
{
    match field {
        [b'u'] => Some(Mode::Unset),
        [b's'] => Some(Mode::Set),
        [b'n'] => Some(Mode::Nmi),
        _ => None,
    }
}

/// The register pair with this name.
pub(crate) fn reg_pair_field(field: &[u8]) -> Option<RegPair>
    ensures { Reads name_of Always field.now result }
{
    match field {
        [b'A', b'F'] => Some(RegPair::Af),
        [b'B', b'C'] => Some(RegPair::Bc),
        [b'D', b'E'] => Some(RegPair::De),
        [b'H', b'L'] => Some(RegPair::Hl),
        [b'I', b'X'] => Some(RegPair::Ix),
        [b'I', b'Y'] => Some(RegPair::Iy),
        [b'A', b'F', b'\''] => Some(RegPair::AlternateAf),
        [b'B', b'C', b'\''] => Some(RegPair::AlternateBc),
        [b'D', b'E', b'\''] => Some(RegPair::AlternateDe),
        [b'H', b'L', b'\''] => Some(RegPair::AlternateHl),
        _ => None,
    }
}
