// The condition of an instruction, and the successors of its two outcomes.
ghost use Rattle.std.specs.Prelude.{◌≡◌, ◌≤◌, ◌++◌, List, IsSomeAnd, IsTrue, length, option_to_list};
ghost use Rattle.intervals.specs.Domain.{Entry};
ghost use Rattle.z80_alu.specs.Flags.{flags_of};
ghost use Rattle.z80_decode.specs.Spelling.{spelling};
ghost use Rattle.z80_draft.specs.Arithmetic.{holds};
ghost use Rattle.z80_draft.specs.Registers.{IsRegs};
ghost use Rattle.z80_moves.specs.Operands.{long_condition};
ghost use Rattle.abs_state.specs.Holds.{Holds};
ghost use Rattle.abs_state.specs.Seen.{Seen};
ghost use Rattle.abs_state.specs.declared.cell.KeptCell.{KeptCell};
ghost use Rattle.flag_parts.specs.Narrowing.{narrowed};
ghost use Rattle.flag_parts.specs.Parts.{AreSeen};
ghost use Rattle.refined_step.specs.Conditionals.{tested_condition, opposite, met, conditional_way, conditional_nexts, NarrowsSoundly};

use abs_draft::Ground;
use abs_state::AbsState;
use abs_step::{Next, Nexts, outcome_next};
use flag_letters::FlagParts;
use flag_parts::narrow;
use smallvec::SmallVec;
use std::alloc::Global;
use z80_decode::{Condition, Instr, ShortCondition};

fn of_short(condition: ShortCondition) -> Condition
    ensures { result ≡ long_condition condition }
{
    match condition {
        ShortCondition::NotZero => Condition::NotZero,
        ShortCondition::Zero => Condition::Zero,
        ShortCondition::NotCarry => Condition::NotCarry,
        ShortCondition::Carry => Condition::Carry,
    }
}

/// The condition of JP cc, JR cc, CALL cc and RET cc. None for other instructions.
pub fn tested_condition(instr: &Instr) -> Option<Condition>
    ensures { result ≡ tested_condition instr.now }
{
    match instr {
        Instr::JumpIf(condition, _) | Instr::CallIf(condition, _) | Instr::ReturnIf(condition) =>
            Some(*condition),
        Instr::JumpRelativeIf(condition, _) => Some(of_short(*condition)),
        _ => None,
    }
}

/// The condition that is met where this one is not.
pub fn opposite(condition: Condition) -> Condition
    ensures { result ≡ opposite condition }
{
    match condition {
        Condition::NotZero => Condition::Zero,
        Condition::Zero => Condition::NotZero,
        Condition::NotCarry => Condition::Carry,
        Condition::Carry => Condition::NotCarry,
        Condition::ParityOdd => Condition::ParityEven,
        Condition::ParityEven => Condition::ParityOdd,
        Condition::Plus => Condition::Minus,
        Condition::Minus => Condition::Plus,
    }
}

/// The condition that is met at an outcome.
fn met(condition: Condition, taken: bool) -> Condition
    ensures { result ≡ met condition taken }
{
    if taken {
        condition
    } else {
        opposite(condition)
    }
}

/// The state that the parts leave where the condition is met, if anything is left.
fn narrowed_state(state: &AbsState, parts: &FlagParts, condition: Condition) -> Option<AbsState>
    ensures exact { result ≡ narrowed condition parts.now state.now }
    ensures holds { (cells : List KeptCell) (entry : Entry) (m : Seen) → IsRegs m.regs
        → Holds state.now cells entry m → AreSeen parts.now m
        → IsTrue (holds condition (flags_of m.regs.main.f))
        → IsSomeAnd result (λ t. Holds t cells entry m) }
{
    let mut left = state.copied();
    if narrow(parts, condition, &mut left) {
        Some(left)
    } else {
        None
    }
}

/// The successor of an outcome of the condition, if it is feasible.
fn conditional_way(
    ground: &Ground,
    address: u16,
    main: bool,
    inline: bool,
    instr: &Instr,
    len: u8,
    condition: Condition,
    parts: &FlagParts,
    state: &AbsState,
    taken: bool,
) -> Option<Next>
    requires cells { length ground.now.cells ≤ 256 }
    requires len { len ≡ length (spelling instr.now) }
    ensures value { option_to_list result
        ≡ conditional_way ground.now address main inline instr.now condition parts.now state.now taken }
    ensures holds { (cells : List KeptCell) (entry : Entry) (m : Seen) → IsRegs m.regs
        → Holds state.now cells entry m → AreSeen parts.now m
        → IsTrue (holds (met condition taken) (flags_of m.regs.main.f))
        → IsSomeAnd (narrowed (met condition taken) parts.now state.now) (λ t. Holds t cells entry m) }
{
    match narrowed_state(state, parts, met(condition, taken)) {
        Some(left) => outcome_next(ground, address, main, inline, instr, len, &left, taken),
        None => None,
    }
}

/// The successors of an instruction with a condition: where it is met, and where it is not, each from the state that
/// the parts leave there.
pub(crate) fn conditional_nexts(
    alloc: Global,
    ground: &Ground,
    address: u16,
    main: bool,
    inline: bool,
    instr: &Instr,
    len: u8,
    condition: Condition,
    parts: &FlagParts,
    state: &AbsState,
) -> Nexts
    requires cells { length ground.now.cells ≤ 256 }
    requires len { len ≡ length (spelling instr.now) }
    ensures value { result.items
        ≡ conditional_nexts ground.now address main inline instr.now condition parts.now state.now }
    ensures holds { NarrowsSoundly condition parts.now state.now }
{
    let taken = conditional_way(
        ground, address, main, inline, instr, len, condition, parts, state, true,
    );
    let left = conditional_way(
        ground, address, main, inline, instr, len, condition, parts, state, false,
    );
    both(alloc, taken, left)
}

/// A list of up to two successors.
fn both(alloc: Global, first: Option<Next>, second: Option<Next>) -> Nexts
    ensures { result.items ≡ option_to_list first ++ option_to_list second }
{
    let mut nexts = SmallVec::new(alloc);
    if let Some(next) = first {
        nexts.push_reserved(next);
    }
    if let Some(next) = second {
        nexts.push_reserved(next);
    }
    nexts
}
