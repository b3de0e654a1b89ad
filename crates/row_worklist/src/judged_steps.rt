// What the step of a judged row leads to: its successors, its flag parts, and the space of its variables.

use crate::setting::Setting;
use abs_state::AbsState;
use abs_step::{Next, NextKind};
use affine::Space;
use analysis::{JudgedRow, Task};
use board_fetch::fetch;
use cert_lines::Version;
use check_claims::StepSource;
use derived_parts::parts_after;
use flag_conditions::conditions;
use flag_letters::FlagParts;
use flag_parts::known_carry;
use inferred_rows::{ArrivingParts, ContextPoint, InferredRow, Manner};
use intervals::ByteRange;
use judged_rows::{Arriving, ArrivingKind};
use linear_effects::linear_effect;
use loop_bounds::{Effect, Linear};
use refined_step::StepTold;

/// The successors to which an analysis goes on from a judged row.
pub(crate) fn nexts_of<'j>(manner: Manner, judged: &'j JudgedRow) -> &'j [Next] {
    match &judged.nexts {
        Some(nexts) if manner.explores || judged.reason.is_none() => nexts.as_slice(),
        _ => &[],
    }
}

/// The most bytes of slots at a judged row and its successors.
pub fn bytes_of(manner: Manner, row: &InferredRow, judged: &JudgedRow) -> u16 {
    let mut bytes = row.state.shape.bytes();
    for next in nexts_of(manner, judged) {
        bytes = bytes.max(next.state.shape.bytes());
    }
    bytes
}

/// The state in which a judged row leaves its procedure, if it does.
pub fn state_at_exit<'j>(manner: Manner, judged: &'j JudgedRow) -> Option<&'j AbsState> {
    let mut exit = None;
    for next in nexts_of(manner, judged) {
        if next.kind == NextKind::Exit {
            exit = Some(&next.state);
        }
    }
    exit
}

/// What the step of a judged row says beside its successors. Nothing is said before version 3, nor in an analysis that
/// keeps no relations.
pub fn told_by(setting: Setting, number: u64, row: &InferredRow, judged: &JudgedRow) -> StepTold {
    if !setting.manner.relates || setting.task.version() != Version::Three {
        return StepTold::none();
    }
    told_at(
        setting.task,
        ContextPoint::of(number).address,
        judged.operand,
        &row.state,
        &row.parts,
    )
}

/// What the refined step of a row says beside its successors; nothing before version 3. `operand` is the range of the
/// byte in work at the end of the row's instruction.
pub fn told_at(
    task: &Task,
    address: u16,
    operand: ByteRange,
    state: &AbsState,
    parts: &FlagParts,
) -> StepTold {
    match (task.version(), fetch(task.rom(), address)) {
        (Version::Three, Ok((instr, _))) => {
            let carry = known_carry(parts, state);
            StepTold {
                linear: linear_effect(&instr, &state.pairs, operand, carry),
                conditions: conditions(&instr, operand, parts, carry),
            }
        }
        _ => StepTold::none(),
    }
}

/// What a state that a row sends tells of the flags where it arrives. A call or a return tells nothing.
pub fn parts_told(
    number: u64,
    row: &InferredRow,
    told: &StepTold,
    arriving: &Arriving,
) -> ArrivingParts {
    let parts = if arriving.kind == ArrivingKind::Jump {
        parts_by(
            row.relations.as_slice(),
            &row.state,
            told,
            &arriving.effect,
            &arriving.moved,
            arriving.state(),
        )
    } else {
        FlagParts::empty()
    };
    ArrivingParts {
        parts,
        from: number,
    }
}

/// The flag parts that are known after a step from a state with these facts, in the state `after`, by what the step
/// says beside and by its two effects.
pub fn parts_by(
    facts: &[Linear],
    before: &AbsState,
    told: &StepTold,
    settled: &Effect,
    moved: &Effect,
    after: &AbsState,
) -> FlagParts {
    if told.conditions.before().is_empty() && told.conditions.after().is_empty() {
        return FlagParts::empty();
    }
    let source = StepSource {
        facts,
        before,
        settled,
        moved,
        linear: &told.linear,
        conditions: &told.conditions,
    };
    parts_after(&source, after)
}

/// What is known of the variables together after a step.
pub fn space_after(manner: Manner, space: &Space, told: &StepTold, arriving: &Arriving) -> Space {
    if !manner.relates {
        return Space::full();
    }
    let slots = arriving.state().shape.len();
    match &told.linear {
        Some(linear) if arriving.kind == ArrivingKind::Jump => {
            space.after_linear(&arriving.effect, slots, linear.variable, &linear.linear)
        }
        _ => space.after(&arriving.effect, slots),
    }
}
