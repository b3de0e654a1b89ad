// The decoder: the instruction at the beginning of a byte string.
ghost use Rattle.std.specs.Prelude.{◌≡◌, ◌≤◌, ◌↔◌, ℕ, List, ◌++◌, length, take, IfOk};
ghost use Rattle.z80_decode.specs.declared.instr.Instr.{Instr};
ghost use Rattle.z80_decode.specs.Spelling.{spelling, IsProperBeginning};
ghost use Rattle.z80_decode.specs.Undocumented.{IsUndocumented};
ghost use Rattle.z80_decode.specs.Decoding.{byte_at, first_instr, decoded, indexed, word_from};

use crate::cb_page::behind_cb;
use crate::ed_page::behind_ed;
use crate::fault::DecodeFault;
use crate::index_page::behind_index;
use crate::instr::Instr;
use crate::operands::{Index, Memory, Place};
use crate::unprefixed_page::unprefixed;

/// The instruction at the beginning of the bytes, with its length in bytes, 1 to 4. Later bytes are ignored. The
/// documented spellings are the table of docs/INSTRUCTIONS.md, "Codes" (UM0080, "Z80 Instruction Description").
///
/// # Errors
///
/// Truncated: the bytes, or none at all, are a proper beginning of a documented spelling.
/// Undocumented: they neither begin with a documented spelling nor are the beginning of one.
pub fn decode(bytes: &[u8]) -> Result<(Instr, u8), DecodeFault>
    // As many bytes as the length says spell the instruction.
    ensures found { IfOk result (λ x. (x.1 ≤ length bytes.now)
        × (take x.1 bytes.now ≡ spelling x.0)) }
    ensures only { (i : Instr) (rest : List ℕ) → bytes.now ≡ spelling i ++ rest
        → result ≡ Ok (i, length (spelling i)) }
    ensures truncated { (result ≡ Err DecodeFault.Truncated) ↔ IsProperBeginning bytes.now }
    ensures undocumented { (result ≡ Err DecodeFault.Undocumented) ↔ IsUndocumented bytes.now }
    ensures short { IfOk result (λ x. (1 ≤ x.1) × (x.1 ≤ 4)) }
{
    let Some(instr) = first_instr(bytes) else {
        return Err(DecodeFault::Undocumented);
    };
    let length = instr.length();
    if usize::from(length) > bytes.len() {
        return Err(DecodeFault::Truncated);
    }
    Ok((instr, length))
}

/// The instruction at the beginning of the bytes, if the bytes suffice. A missing byte counts as 46h, which completes
/// each proper beginning of a spelling: see LD B,(HL), IM 0, LD B,(IX+d) and BIT 0,(IX+d).
fn first_instr(bytes: &[u8]) -> Option<Instr>
    ensures { result ≡ first_instr bytes.now }
{
    decoded(
        byte_at(bytes, 0),
        byte_at(bytes, 1),
        byte_at(bytes, 2),
        byte_at(bytes, 3),
    )
}

fn byte_at(bytes: &[u8], place: usize) -> u8
    ensures { result ≡ byte_at bytes.now place }
{
    bytes.get(place).copied().unwrap_or(0x46)
}

fn word_from(low: u8, high: u8) -> u16
    ensures { result ≡ word_from low high }
{
    u16::from(low) + 256 * u16::from(high)
}

/// The instruction at the beginning of a window of four bytes, if there is one.
fn decoded(first: u8, second: u8, third: u8, fourth: u8) -> Option<Instr>
    ensures { result ≡ decoded first second third fourth }
{
    match first {
        0xCB => behind_cb(second, Place::of(second & 7)),
        0xDD => indexed(Index::Ix, second, third, fourth),
        0xED => behind_ed(second, word_from(third, fourth)),
        0xFD => indexed(Index::Iy, second, third, fourth),
        _ => unprefixed(first, second, word_from(second, third)),
    }
}

/// The instruction after the prefix of an index register. With CB, d comes before the opcode.
// A call out of line would pass its result through memory, and with it that of every other instruction.
#[inline(always)]
fn indexed(index: Index, second: u8, third: u8, fourth: u8) -> Option<Instr>
    ensures { result ≡ indexed index second third fourth }
{
    if second != 0xCB {
        return behind_index(index, second, third, fourth, word_from(third, fourth));
    }
    if fourth & 7 != 6 {
        return None;
    }
    behind_cb(fourth, Place::Memory(Memory::At(index, third)))
}
