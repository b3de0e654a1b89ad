// The carry that a row's parts tell.
ghost use Rattle.std.specs.Prelude.{◌≡◌, List, IfSome};
ghost use Rattle.intervals.specs.Domain.{Entry};
ghost use Rattle.z80_alu.specs.Flags.{flags_of};
ghost use Rattle.z80_draft.specs.Registers.{IsRegs};
ghost use Rattle.abs_state.specs.Holds.{Holds};
ghost use Rattle.abs_state.specs.Seen.{Seen};
ghost use Rattle.abs_state.specs.Variables.{range_of};
ghost use Rattle.abs_state.specs.declared.cell.KeptCell.{KeptCell};
ghost use Rattle.flag_parts.specs.Carry.{told_sign, told_carry, known_carry};
ghost use Rattle.flag_parts.specs.Parts.{AreSeen};

use abs_state::AbsState;
use flag_letters::{FlagPart, FlagParts, Letter};
use linear_limits::{ValueSpan, extremes};

/// Whether all values of a span are below 0; None if only some are.
fn told_sign(span: ValueSpan) -> Option<bool>
    ensures { result ≡ told_sign span.least span.greatest }
{
    if span.greatest < 0 {
        return Some(true);
    }
    if span.least >= 0 {
        return Some(false);
    }
    None
}

/// The C flag, if the part tells it: its linear is below 0 at all values of the ranges, or at none. Each variable
/// ranges by itself.
fn told_carry(part: &FlagPart, state: &AbsState) -> Option<bool>
    ensures { result ≡ told_carry (range_of state.now) part.now }
{
    match part.letter {
        Letter::CarryIfBelow => told_sign(extremes(&part.linear, state)),
        _ => None,
    }
}

/// The C flag, if a part tells it: the first whose linear is below 0 at all values of the state's ranges, or at none.
/// Each variable ranges by itself. It is the C flag of each machine that the state and the parts describe.
pub fn known_carry(parts: &FlagParts, state: &AbsState) -> Option<bool>
    ensures exact { result ≡ known_carry (range_of state.now) parts.now }
    ensures holds { (cells : List KeptCell) (entry : Entry) (m : Seen) → IsRegs m.regs
        → Holds state.now cells entry m → AreSeen parts.now m
        → IfSome result (λ carry. (flags_of m.regs.main.f).carry ≡ carry) }
{
    first_told(parts.parts(), state)
}

/// The first carry that one of the parts tells.
fn first_told(parts: &[FlagPart], state: &AbsState) -> Option<bool>
    ensures { result ≡ known_carry (range_of state.now) parts.now }
{
    for part in parts {
        if let Some(carry) = told_carry(part, state) {
            return Some(carry);
        }
    }
    None
}
