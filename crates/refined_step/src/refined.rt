// The refined step of a row with flag parts.
ghost use Rattle.std.specs.Prelude.{◌≡◌, ◌≤◌, length, map, option_to_list, Ok, Err, Some, None, IfOk, IfErr, IfSome};
ghost use Rattle.board_fetch.specs.Decoded.{StandsAt};
ghost use Rattle.z80_decode.specs.Spelling.{spelling};
ghost use Rattle.z80_decode.specs.declared.kinds.Condition.{Condition as ConditionKind};
ghost use Rattle.abs_step.specs.Successors.{answer_of, nexts_of, operand_of, writes_of};
ghost use Rattle.linear_effects.specs.Effects.{HasSlightTerms};
ghost use Rattle.refined_step.specs.Conditionals.{tested_condition, NarrowsSoundly};
ghost use Rattle.refined_step.specs.Kept.{KeepsRefined};
ghost use Rattle.refined_step.specs.Refined.{step_effect, step_told, step_carried, sharpened_nexts, refined_nexts, refined_answer};
ghost use Rattle.refined_step.specs.Sharpening.{cut_successor, sharpened};

use crate::conditionals::{conditional_nexts, tested_condition};
use crate::sharpening::{cut_successor, sharpen};
use crate::told::StepTold;
use abs_draft::Ground;
use abs_state::AbsState;
use abs_step::{DataWrite, Next, Nexts, Reason, RowStep, outcome_next, row_step};
use flag_conditions::conditions;
use flag_letters::FlagParts;
use flag_parts::known_carry;
use intervals::{ByteRange, WordRange};
use linear_effects::{LinearEffect, carried_range, linear_effect};
use loop_bounds::Variable;
use smallvec::SmallVec;
use std::alloc::Global;
use z80_decode::Instr;

/// What the refined step makes of a row with flag parts.
#[derive(Drop)]
pub struct RefinedStep {
    /// The data writes of the instruction, a byte each, in order.
    pub writes: SmallVec<DataWrite, 2>,
    /// The successors, at most two, or why the step refuses the row, as in `RowStep`. The parts change no reason.
    pub answer: Result<Nexts, Reason>,
    /// The linear effect and the conditions of the step.
    pub told: StepTold,
    /// The range of the byte in work at the end of the instruction, as in `RowStep`.
    pub operand: ByteRange,
}

/// The successor, if there is one, sharpened by a linear effect.
fn with_sharpened(
    alloc: Global,
    next: Option<Next>,
    effect: &LinearEffect,
    state: &AbsState,
) -> Nexts
    ensures { result.items ≡ map (sharpened state.now effect.now) (option_to_list next) }
{
    let mut nexts = SmallVec::new(alloc);
    if let Some(next) = next {
        let mut next = next;
        sharpen(&mut next, effect, state);
        nexts.push_reserved(next);
    }
    nexts
}

/// The successor, if there is one, with A cut to a range.
fn with_cut(alloc: Global, next: Option<Next>, range: WordRange) -> Nexts
    ensures { result.items ≡ map (cut_successor Variable.A (Some range)) (option_to_list next) }
{
    let mut nexts = SmallVec::new(alloc);
    if let Some(next) = next {
        let mut next = next;
        cut_successor(&mut next, Variable::A, range);
        nexts.push_reserved(next);
    }
    nexts
}

/// The successors of a row whose instruction has no condition: its own, or with a linear effect or a known carry its
/// one successor, sharpened.
fn sharpened_nexts(
    alloc: Global,
    ground: &Ground,
    address: u16,
    main: bool,
    inline: bool,
    instr: &Instr,
    len: u8,
    linear: &Option<LinearEffect>,
    carried: Option<WordRange>,
    state: &AbsState,
    own: Nexts,
) -> Nexts
    requires cells { length ground.now.cells ≤ 256 }
    requires len { len ≡ length (spelling instr.now) }
    requires own { own.items ≡ nexts_of ground.now address main inline instr.now state.now }
    ensures { result.items
        ≡ sharpened_nexts ground.now address main inline instr.now linear.now carried state.now }
{
    match linear {
        Some(effect) => {
            let next = outcome_next(ground, address, main, inline, instr, len, state, false);
            with_sharpened(alloc, next, effect, state)
        }
        None => match carried {
            Some(range) => {
                let next = outcome_next(ground, address, main, inline, instr, len, state, false);
                with_cut(alloc, next, range)
            }
            None => own,
        },
    }
}

/// The refined successors of a row that is not refused, from its own.
fn refined_nexts(
    alloc: Global,
    ground: &Ground,
    address: u16,
    main: bool,
    inline: bool,
    instr: &Instr,
    len: u8,
    parts: &FlagParts,
    linear: &Option<LinearEffect>,
    carried: Option<WordRange>,
    state: &AbsState,
    own: Nexts,
) -> Nexts
    requires cells { length ground.now.cells ≤ 256 }
    requires len { len ≡ length (spelling instr.now) }
    requires own { own.items ≡ nexts_of ground.now address main inline instr.now state.now }
    requires linear { linear.now ≡ step_effect ground.now address inline instr.now parts.now state.now }
    requires carried { carried ≡ step_carried ground.now address inline instr.now parts.now state.now }
    ensures value { result.items
        ≡ refined_nexts ground.now address main inline instr.now parts.now state.now }
    ensures narrows { (condition : ConditionKind) → tested_condition instr.now ≡ Some condition
        → NarrowsSoundly condition parts.now state.now }
{
    match tested_condition(instr) {
        Some(condition) => conditional_nexts(
            alloc, ground, address, main, inline, instr, len, condition, parts, state,
        ),
        None => sharpened_nexts(
            alloc, ground, address, main, inline, instr, len, linear, carried, state, own,
        ),
    }
}

/// The refined answer to a row, from that of the abstract step.
fn refined_answer(
    alloc: Global,
    ground: &Ground,
    address: u16,
    main: bool,
    inline: bool,
    instr: &Instr,
    len: u8,
    parts: &FlagParts,
    linear: &Option<LinearEffect>,
    carried: Option<WordRange>,
    state: &AbsState,
    answer: Result<Nexts, Reason>,
) -> Result<Nexts, Reason>
    requires cells { length ground.now.cells ≤ 256 }
    requires len { len ≡ length (spelling instr.now) }
    requires linear { linear.now ≡ step_effect ground.now address inline instr.now parts.now state.now }
    requires carried { carried ≡ step_carried ground.now address inline instr.now parts.now state.now }
    requires ok { IfOk answer (λ nexts.
        answer_of ground.now address main inline state.now (Ok instr.now) ≡ Ok nexts.items) }
    requires err { IfErr answer (λ reason.
        answer_of ground.now address main inline state.now (Ok instr.now) ≡ Err reason) }
    requires fits { IfOk answer (λ nexts. length state.now.shape ≤ 64) }
    ensures ok { IfOk result (λ nexts.
        refined_answer ground.now address main inline instr.now parts.now state.now ≡ Ok nexts.items) }
    ensures err { IfErr result (λ reason.
        refined_answer ground.now address main inline instr.now parts.now state.now ≡ Err reason) }
    ensures fits { IfOk result (λ nexts. length state.now.shape ≤ 64) }
    ensures narrows { IfOk result (λ nexts. (condition : ConditionKind)
        → tested_condition instr.now ≡ Some condition → NarrowsSoundly condition parts.now state.now) }
{
    match answer {
        Ok(own) => Ok(refined_nexts(
            alloc, ground, address, main, inline, instr, len, parts, linear, carried, state, own,
        )),
        Err(reason) => Err(reason),
    }
}

/// Makes the refined step of a row with flag parts. `instr` is the instruction at the row's address, 0 to 65,535, and
/// `len` its length, 1 to 4 bytes. `main` says whether the row is main code's, and `inline` whether the address is that
/// of an inline call. There are at most 256 kept cells. It takes no memory.
///
/// At JP cc, JR cc, CALL cc and RET cc there is a successor for each outcome of the condition, from the state that the
/// parts leave there, and none where they leave nothing. A step with a linear effect has its successor cut to the
/// values of the linear, and ADC and SBC with a known carry have A cut to the results with that carry. All other
/// successors are those of `row_step`, and so are data writes and reasons (docs/CHECKER.md, "The refined step").
///
/// Take a board that the row and its parts describe. If no reason that the certificate decides applies to the row, the
/// instruction does what one of these successors says. The conditions and the linear effect are true, and the linear
/// has coefficients up to 256 in size.
pub fn refined_step(
    alloc: Global,
    ground: &Ground,
    address: u16,
    main: bool,
    inline: bool,
    instr: &Instr,
    len: u8,
    state: &AbsState,
    parts: &FlagParts,
) -> RefinedStep
    requires cells { length ground.now.cells ≤ 256 }
    requires len { len ≡ length (spelling instr.now) }
    ensures writes { result.writes.items ≡ writes_of ground.now address state.now (Ok instr.now) }
    ensures told { result.told
        ≡ step_told ground.now address inline instr.now parts.now state.now }
    ensures slight { IfSome result.told.linear HasSlightTerms }
    ensures operand { result.operand ≡ operand_of ground.now address inline state.now instr.now }
    ensures ok { IfOk result.answer (λ nexts.
        refined_answer ground.now address main inline instr.now parts.now state.now ≡ Ok nexts.items) }
    ensures err { IfErr result.answer (λ reason.
        refined_answer ground.now address main inline instr.now parts.now state.now ≡ Err reason) }
    ensures keeps { IfOk result.answer (λ nexts. StandsAt ground.now.rom address (Ok instr.now)
        → KeepsRefined ground.now address main state.now instr.now parts.now nexts.items
        result.told.conditions result.told.linear) }
{
    let RowStep {
        writes,
        answer,
        operand,
    } = row_step(alloc, ground, address, main, inline, instr, len, state);
    let carry = known_carry(parts, state);
    let found = conditions(instr, operand, parts, carry);
    let linear = linear_effect(instr, &state.pairs, operand, carry);
    let carried = carried_range(instr, &state.pairs, operand, carry);
    let refined = refined_answer(
        alloc, ground, address, main, inline, instr, len, parts, &linear, carried, state, answer,
    );
    RefinedStep {
        writes,
        answer: refined,
        told: StepTold {
            linear,
            conditions: found,
        },
        operand,
    }
}
