// The values of A after ADC and SBC where the carry is known.
ghost use Rattle.std.specs.Prelude.{◌≡◌};
ghost use Rattle.linear_effects.specs.Carried.{carried_by, carried_if, carried_range, IsTrueRange, residues};

use crate::byte_effects::operand_range;
use abs_state::Pairs;
use intervals::{ByteRange, WordRange};
use z80_decode::{ArithmeticKind, Instr};

/// The residues of the numbers from `low` to `high`, if they lie in one window of 256.
fn residues(low: u32, high: u32) -> Option<WordRange>
    ensures { result ≡ residues low high }
{
    if low / 256 == high / 256 {
        WordRange::new((low % 256) as u16, (high % 256) as u16)
    } else {
        None
    }
}

fn carried_by(kind: ArithmeticKind, a: ByteRange, b: ByteRange, carry: bool) -> Option<WordRange>
    ensures { result ≡ carried_by kind a b carry }
{
    let carry = u32::from(carry);
    let (low, high) = (u32::from(a.low()), u32::from(a.high()));
    let (other_low, other_high) = (u32::from(b.low()), u32::from(b.high()));
    match kind {
        ArithmeticKind::Adc => residues(low + other_low + carry, high + other_high + carry),
        ArithmeticKind::Sbc => residues(
            256 + low - other_high - carry,
            256 + high - other_low - carry,
        ),
        _ => None,
    }
}

fn carried_if(
    kind: ArithmeticKind,
    a: ByteRange,
    b: ByteRange,
    carry: Option<bool>,
) -> Option<WordRange>
    ensures { result ≡ carried_if kind a b carry }
{
    match carry {
        Some(carry) => carried_by(kind, a, b, carry),
        None => None,
    }
}

/// The values that A may have after ADC or SBC with a known carry, if the results over the whole numbers lie in one
/// window of 256. `byte` is the range of the byte in work at the end of the instruction, `carry` the carry before it,
/// if it is known.
#[tactic(auto, using(crate::proofs::CarriedRanges::table_ranges_true), unfolding(crate::specs::Carried::carried_range))]
pub fn carried_range(
    instr: &Instr,
    pairs: &Pairs,
    byte: ByteRange,
    carry: Option<bool>,
) -> Option<WordRange>
    ensures exact { result ≡ carried_range instr.now pairs.now byte carry }
    ensures of_machines { IsTrueRange result instr.now pairs.now byte carry }
{
    match instr {
        Instr::Arithmetic(kind, operand) => carried_if(
            *kind,
            pairs.af.high,
            operand_range(*operand, pairs, byte),
            carry,
        ),
        _ => None,
    }
}
