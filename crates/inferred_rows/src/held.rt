// Ranges that no widening leaves.

use abs_state::AbsState;
use annotations::RangeNote;
use intervals::{ByteRange, Pair, RegPair, WordRange};
use loop_bounds::{Part, Ranges, Variable};
use stack_shape::Slot;
use z80_decode::Register8;

/// Cuts a widened state to a range, if what was joined lies in it.
pub(crate) fn hold(widened: &mut AbsState, joined: &AbsState, note: &RangeNote) {
    if names_missing_slot(widened, note.variable) || names_missing_slot(joined, note.variable) {
        return;
    }
    let now = joined.range(note.variable);
    if note.range.low() <= now.low() && now.high() <= note.range.high() {
        cut(widened, note.variable, note.range);
    }
}

/// Whether a variable is a slot that a state does not have.
fn names_missing_slot(state: &AbsState, variable: Variable) -> bool {
    match variable {
        Variable::Slot(number, _) => usize::from(number.number()) >= state.shape.len(),
        _ => false,
    }
}

/// Cuts the range of a variable. A cut that would leave nothing is passed over.
fn cut(state: &mut AbsState, variable: Variable, to: WordRange) {
    let mut left = state.copied();
    let is_left = match variable {
        Variable::A => left.cut_byte(Register8::A, bytes_of(to)),
        Variable::B => left.cut_byte(Register8::B, bytes_of(to)),
        Variable::C => left.cut_byte(Register8::C, bytes_of(to)),
        Variable::D => left.cut_byte(Register8::D, bytes_of(to)),
        Variable::E => left.cut_byte(Register8::E, bytes_of(to)),
        Variable::H => left.cut_byte(Register8::H, bytes_of(to)),
        Variable::L => left.cut_byte(Register8::L, bytes_of(to)),
        Variable::Bc => left.cut_word(RegPair::Bc, to),
        Variable::De => left.cut_word(RegPair::De, to),
        Variable::Hl => left.cut_word(RegPair::Hl, to),
        Variable::Ix => left.cut_word(RegPair::Ix, to),
        Variable::Iy => left.cut_word(RegPair::Iy, to),
        Variable::Slot(number, part) => cut_slot(&mut left, usize::from(number.number()), part, to),
    };
    if is_left {
        *state = left;
    }
}

/// Cuts a slot; false if nothing would be left.
fn cut_slot(state: &mut AbsState, place: usize, part: Part, to: WordRange) -> bool {
    let Some(slot) = state.shape.slots().get(place).copied() else {
        return false;
    };
    let cut: Option<Pair> = match part {
        Part::Word => slot.pair.cut_word(to),
        Part::High => slot.pair.cut_high(bytes_of(to)),
        Part::Low => slot.pair.cut_low(bytes_of(to)),
    };
    match cut {
        Some(pair) => {
            let _old = state.shape.replace(place, Slot { pair });
            true
        }
        None => false,
    }
}

/// The bytes of a range of words.
fn bytes_of(range: WordRange) -> ByteRange {
    let (low, high) = (range.low().min(255) as u8, range.high().min(255) as u8);
    ByteRange::new(low, high).unwrap_or(ByteRange::full())
}
