// Which parts two rows share, and which parts are worth more than others.

use abs_state::AbsState;
use flag_letters::{FlagPart, FlagParts};
use flag_parts::{known_carry, narrow};
use loop_bounds::{Linear, Ranges};
use refined_step::opposite;
use z80_decode::Condition;

/// The parts that the other row has too, in the order of the first one.
pub fn common_parts(one: &FlagParts, other: &FlagParts) -> FlagParts {
    let mut common = FlagParts::empty();
    for part in one.parts() {
        if other.parts().contains(part) && !common.is_full() {
            common.push(*part);
        }
    }
    common
}

/// The first part that alone makes the carry known in a state.
pub fn carry_part(parts: &FlagParts, state: &AbsState) -> Option<FlagPart> {
    for part in parts.parts() {
        let mut alone = FlagParts::empty();
        alone.push(*part);
        if known_carry(&alone, state).is_some() {
            return Some(*part);
        }
    }
    None
}

/// What a further part leaves of a state, against what is left without it.
#[derive(Clone, Copy, PartialEq, Eq)]
enum Gain {
    Nothing,
    /// The range of a variable is smaller.
    Less,
    /// Nothing is left.
    All,
}

/// A part that narrows a state where a condition is met, or where it is not, more than the parts that are known. It is
/// none of these. It is the first part with which nothing is left in one of the two cases, else the first with which a
/// variable has a smaller range. None also if eight parts are known.
pub fn narrowing_part(
    parts: &FlagParts,
    known: &FlagParts,
    condition: Condition,
    state: &AbsState,
) -> Option<FlagPart> {
    if known.is_full() {
        return None;
    }
    let met = narrowed(known, condition, state);
    let unmet = narrowed(known, opposite(condition), state);
    let mut first: Option<FlagPart> = None;
    for part in parts.parts() {
        if known.parts().contains(part) {
            continue;
        }
        let more = with_part(known, *part);
        let gains = [
            gain_by(&more, condition, &met, state, &part.linear),
            gain_by(&more, opposite(condition), &unmet, state, &part.linear),
        ];
        if gains.contains(&Gain::All) {
            return Some(*part);
        }
        if first.is_none() && gains.contains(&Gain::Less) {
            first = Some(*part);
        }
    }
    first
}

/// Parts with a further one, if there is room.
fn with_part(parts: &FlagParts, part: FlagPart) -> FlagParts {
    let mut more = parts.copied();
    if !more.is_full() {
        more.push(part);
    }
    more
}

/// What parts leave of a state where a condition is met.
fn narrowed(parts: &FlagParts, condition: Condition, state: &AbsState) -> Option<AbsState> {
    let mut left = state.copied();
    if narrow(parts, condition, &mut left) {
        Some(left)
    } else {
        None
    }
}

/// What parts with a further one at the end gain where a condition is met. `linear` is that of the further one, and
/// `left` what the others leave.
fn gain_by(
    more: &FlagParts,
    condition: Condition,
    left: &Option<AbsState>,
    state: &AbsState,
    linear: &Linear,
) -> Gain {
    let Some(left) = left else {
        return Gain::Nothing;
    };
    match narrowed(more, condition, state) {
        Some(less) if !is_smaller(linear, left, &less) => Gain::Nothing,
        Some(_) => Gain::Less,
        None => Gain::All,
    }
}

/// Whether a variable of a linear has another range in the second state, which lies in the first.
fn is_smaller(linear: &Linear, left: &AbsState, less: &AbsState) -> bool {
    linear.terms().iter().any(|term| left.range(term.variable) != less.range(term.variable))
}
