// The instruction at an address of the ROM.
#![tactic(auto)]

ghost use Rattle.std.specs.Prelude.{◌≡◌, Ok, Err, IfOk, IfErr, length};
ghost use Rattle.board_fetch.specs.Decoded.{StandsAt};
ghost use Rattle.z80_decode.specs.Spelling.{spelling};

use address_map::Rom;
use z80_decode::{DecodeFault, Instr, decode};

/// Decodes the instruction at an address of the ROM. Returns it with its length in bytes, 1 to 4, or the decoder's
/// fault for the bytes from there to the ROM's end.
pub fn fetch(rom: &Rom, at: u16) -> Result<(Instr, u8), DecodeFault>
    ensures stands { IfOk result (λ x. StandsAt rom.now at (Ok x.0)) }
    ensures length { IfOk result (λ x. x.1 ≡ length (spelling x.0)) }
    ensures fault { IfErr result (λ fault. StandsAt rom.now at (Err fault)) }
{
    decode(rom.bytes_from(at))
}
