// Narrowing: what a condition and the parts of a row leave of its ranges.
ghost use Rattle.std.specs.Prelude.{◌≡◌, ◌≢◌, List, Some, None, IsTrue, MatchBool, pos};
ghost use Rattle.intervals.specs.Domain.{Entry};
ghost use Rattle.loop_bounds.specs.Effect.{whole};
ghost use Rattle.loop_bounds.specs.Linear.{value};
ghost use Rattle.z80_alu.specs.Flags.{flags_of};
ghost use Rattle.z80_draft.specs.Arithmetic.{holds};
ghost use Rattle.z80_draft.specs.Registers.{IsRegs};
ghost use Rattle.abs_state.specs.Holds.{Holds};
ghost use Rattle.abs_state.specs.Seen.{Seen};
ghost use Rattle.abs_state.specs.Variables.{value_in};
ghost use Rattle.abs_state.specs.declared.cell.KeptCell.{KeptCell};
ghost use Rattle.flag_parts.specs.Narrowing.{said, IsAsSaid, at_zero, narrowed_by, narrowed_by_part, narrowed};
ghost use Rattle.flag_parts.specs.Parts.{HoldsPart, AreSeen};

use crate::excluding::exclude_zero;
use abs_state::AbsState;
use flag_letters::{FlagPart, FlagParts, Letter};
use linear_limits::{SideOfZero, limit};
use loop_bounds::Linear;
use z80_decode::Condition;

/// What a met condition says of a part's linear.
#[derive(Clone, Copy)]
pub(crate) enum ZeroTest {
    IsZero,
    IsNotZero,
    LiesOn(SideOfZero),
}

/// What a met condition says of the linear of a part with this letter; None if it tests another flag.
fn said(letter: Letter, condition: Condition) -> Option<ZeroTest>
    ensures { result ≡ said letter condition }
{
    match (letter, condition) {
        (Letter::Zero, Condition::Zero) => Some(ZeroTest::IsZero),
        (Letter::Zero, Condition::NotZero) => Some(ZeroTest::IsNotZero),
        (Letter::ZeroIfBelow, Condition::Zero)
        | (Letter::CarryIfBelow, Condition::Carry)
        | (Letter::SignIfBelow, Condition::Minus) => Some(ZeroTest::LiesOn(SideOfZero::Below)),
        (Letter::ZeroIfBelow, Condition::NotZero)
        | (Letter::CarryIfBelow, Condition::NotCarry)
        | (Letter::SignIfBelow, Condition::Plus) => Some(ZeroTest::LiesOn(SideOfZero::NotBelow)),
        _ => None,
    }
}

/// Restricts a state to where a linear is 0. Nothing is left if the linear is another constant.
fn restrict_to_zero(linear: &Linear, state: &mut AbsState) -> bool
    ensures exact { MatchBool result (at_zero linear.now state.old ≡ Some state.new)
        (at_zero linear.now state.old ≡ None) }
    ensures holds { (cells : List KeptCell) (entry : Entry) (m : Seen) → IsRegs m.regs
        → Holds state.old cells entry m → value (whole (value_in m)) linear.now ≡ pos 0
        → IsTrue result × Holds state.new cells entry m }
{
    if linear.terms().is_empty() {
        return linear.constant() == 0;
    }
    state.tighten(linear)
}

/// Restricts a state to where a linear is as said.
fn narrow_by(said: ZeroTest, linear: &Linear, state: &mut AbsState) -> bool
    ensures exact { MatchBool result (narrowed_by said linear.now state.old ≡ Some state.new)
        (narrowed_by said linear.now state.old ≡ None) }
    ensures holds { (cells : List KeptCell) (entry : Entry) (m : Seen) → IsRegs m.regs
        → Holds state.old cells entry m → IsAsSaid said (value (whole (value_in m)) linear.now)
        → IsTrue result × Holds state.new cells entry m }
{
    let _terms = linear.terms();
    match said {
        ZeroTest::IsZero => restrict_to_zero(linear, state),
        ZeroTest::IsNotZero => exclude_zero(linear, state),
        ZeroTest::LiesOn(side) => limit(side, linear, state),
    }
}

/// Narrows a state by one part.
fn narrow_by_part(part: &FlagPart, condition: Condition, state: &mut AbsState) -> bool
    ensures exact { MatchBool result (narrowed_by_part condition part.now state.old ≡ Some state.new)
        (narrowed_by_part condition part.now state.old ≡ None) }
    ensures holds { (cells : List KeptCell) (entry : Entry) (m : Seen) → IsRegs m.regs
        → Holds state.old cells entry m → HoldsPart part.now (flags_of m.regs.main.f) (value_in m)
        → IsTrue (holds condition (flags_of m.regs.main.f))
        → IsTrue result × Holds state.new cells entry m }
{
    match said(part.letter, condition) {
        Some(said) => narrow_by(said, &part.linear, state),
        None => true,
    }
}

/// Narrows a state by the parts of its row where a condition is met: each part of the condition's flag restricts the
/// ranges to where its linear is as the condition says, in the row's order. No origin is dropped. Answers whether
/// anything is left. If nothing is, the state has the cuts made before the one that failed.
pub fn narrow(parts: &FlagParts, condition: Condition, state: &mut AbsState) -> bool
    ensures exact { MatchBool result (narrowed condition parts.now state.old ≡ Some state.new)
        (narrowed condition parts.now state.old ≡ None) }
    ensures holds { (cells : List KeptCell) (entry : Entry) (m : Seen) → IsRegs m.regs
        → Holds state.old cells entry m → AreSeen parts.now m
        → IsTrue (holds condition (flags_of m.regs.main.f))
        → IsTrue result × Holds state.new cells entry m }
{
    for part in parts.parts() {
        if !narrow_by_part(part, condition, state) {
            return false;
        }
    }
    true
}
