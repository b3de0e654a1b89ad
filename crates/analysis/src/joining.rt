// The join and the widening of states (docs/ANALYSIS.md, "Rows").

use abs_state::{AbsState, Mode, Pairs};
use intervals::{ByteRange, Pair, WordRange};
use stack_shape::{Shape, Slot};

/// The join of two states. None if their shapes have two lengths, or modes `u` and `n` meet, or the join has mode `n`
/// and fewer than `cells` armed cells.
pub fn joined(state: &AbsState, other: &AbsState, cells: usize) -> Option<AbsState> {
    let both = state.join(other)?;
    if both.mode == Mode::Nmi && usize::from(both.armed) < cells {
        return None;
    }
    Some(both)
}

/// The widening: in the join, each bound that differs from the state before goes to its end. An upper one goes to the
/// greatest value; a lower one goes to 1, or to 0 where the join made it 0. The pairs with a moved bound are put in
/// normal form.
pub(crate) fn grown(before: &AbsState, joined: &AbsState) -> AbsState {
    AbsState {
        mode: joined.mode,
        armed: joined.armed,
        pairs: grown_pairs(&before.pairs, &joined.pairs),
        flag: joined.flag,
        shape: grown_shape(&before.shape, &joined.shape),
    }
}

/// A state with all its ranges full.
pub fn widest(state: &AbsState) -> AbsState {
    AbsState {
        mode: state.mode,
        armed: state.armed,
        pairs: widest_pairs(&state.pairs),
        flag: state.flag,
        shape: widest_shape(&state.shape),
    }
}

fn grown_pairs(before: &Pairs, joined: &Pairs) -> Pairs {
    Pairs {
        af: grown_pair(before.af, joined.af),
        bc: grown_pair(before.bc, joined.bc),
        de: grown_pair(before.de, joined.de),
        hl: grown_pair(before.hl, joined.hl),
        ix: grown_pair(before.ix, joined.ix),
        iy: grown_pair(before.iy, joined.iy),
        alternate_af: grown_pair(before.alternate_af, joined.alternate_af),
        alternate_bc: grown_pair(before.alternate_bc, joined.alternate_bc),
        alternate_de: grown_pair(before.alternate_de, joined.alternate_de),
        alternate_hl: grown_pair(before.alternate_hl, joined.alternate_hl),
    }
}

fn grown_shape(before: &Shape, joined: &Shape) -> Shape {
    let mut shape = joined.copied();
    let slots = before.slots();
    for place in 0..slots.len() {
        if let (Some(old), Some(new)) = (slots.get(place), joined.slots().get(place)) {
            let pair = grown_pair(old.pair, new.pair);
            let _old = shape.replace(place, Slot { pair });
        }
    }
    shape
}

fn grown_pair(before: Pair, joined: Pair) -> Pair {
    let grown = Pair {
        word: grown_word(before.word, joined.word),
        high: grown_byte(before.high, joined.high),
        low: grown_byte(before.low, joined.low),
        origin: joined.origin,
    };
    if grown == joined {
        return joined;
    }
    grown.normal_form().unwrap_or(grown)
}

fn grown_word(before: WordRange, joined: WordRange) -> WordRange {
    let low = if joined.low() == before.low() {
        before.low()
    } else {
        joined.low().min(1)
    };
    let high = if joined.high() == before.high() {
        before.high()
    } else {
        u16::MAX
    };
    WordRange::new(low, high).unwrap_or(joined)
}

fn grown_byte(before: ByteRange, joined: ByteRange) -> ByteRange {
    let low = if joined.low() == before.low() {
        before.low()
    } else {
        joined.low().min(1)
    };
    let high = if joined.high() == before.high() {
        before.high()
    } else {
        u8::MAX
    };
    ByteRange::new(low, high).unwrap_or(joined)
}

fn widest_pairs(pairs: &Pairs) -> Pairs {
    Pairs {
        af: widest_pair(pairs.af),
        bc: widest_pair(pairs.bc),
        de: widest_pair(pairs.de),
        hl: widest_pair(pairs.hl),
        ix: widest_pair(pairs.ix),
        iy: widest_pair(pairs.iy),
        alternate_af: widest_pair(pairs.alternate_af),
        alternate_bc: widest_pair(pairs.alternate_bc),
        alternate_de: widest_pair(pairs.alternate_de),
        alternate_hl: widest_pair(pairs.alternate_hl),
    }
}

fn widest_shape(shape: &Shape) -> Shape {
    let mut widest = shape.copied();
    for place in 0..shape.len() {
        if let Some(slot) = shape.slots().get(place) {
            let pair = widest_pair(slot.pair);
            let _old = widest.replace(place, Slot { pair });
        }
    }
    widest
}

/// A pair with full ranges and the same origin.
fn widest_pair(pair: Pair) -> Pair {
    Pair {
        origin: pair.origin,
        ..Pair::full()
    }
}
