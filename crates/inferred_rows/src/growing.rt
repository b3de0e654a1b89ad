// The widening of an inferring analysis: each bound for itself, first to thresholds.

use crate::bounds::{pair_at, with_pair};
use crate::thresholds::Thresholds;
use abs_state::AbsState;
use intervals::{ByteRange, Pair, WordRange};
use stack_shape::Slot;

/// After how many moves a bound goes to the next threshold.
const MOVES: u8 = 8;

/// After how many moves a bound goes to its end.
const JUMPS: u8 = 40;

/// How often each bound of a row moved: of the ten pairs, and of the slots by their number modulo 6. A pair has six
/// bounds.
#[derive(Clone, Copy)]
pub(crate) struct Growth {
    moves: [u8; 96],
}

impl Growth {
    /// No bound moved.
    pub(crate) fn none() -> Growth {
        Growth { moves: [0; 96] }
    }

    /// Whether a bound moved so often that it was widened.
    pub(crate) fn is_widened(&self) -> bool {
        self.moves.iter().any(|moves| *moves > MOVES)
    }

    /// Counts a move of a bound, and answers how often it moved.
    fn count(&mut self, bound: usize) -> u8 {
        match self.moves.get_mut(bound) {
            Some(moves) => {
                *moves = moves.saturating_add(1);
                *moves
            }
            None => u8::MAX,
        }
    }

    /// Widens each bound of a row's join that moved too often.
    pub(crate) fn widen(
        &mut self,
        before: &AbsState,
        joined: &mut AbsState,
        thresholds: &Thresholds,
    ) {
        for number in 0..10u8 {
            let (old, new) = (
                pair_at(&before.pairs, number),
                pair_at(&joined.pairs, number),
            );
            if old != new {
                let pair = self.grown_pair(usize::from(number) * 6, old, new, thresholds);
                with_pair(&mut joined.pairs, number, pair);
            }
        }
        for place in 0..joined.shape.len() {
            let slots = (
                before.shape.slots().get(place).copied(),
                joined.shape.slots().get(place).copied(),
            );
            if let (Some(old), Some(new)) = slots {
                if old.pair != new.pair {
                    let pair = self.grown_pair(60 + place % 6 * 6, old.pair, new.pair, thresholds);
                    let _old = joined.shape.replace(place, Slot { pair });
                }
            }
        }
    }

    fn grown_pair(
        &mut self,
        first: usize,
        before: Pair,
        joined: Pair,
        thresholds: &Thresholds,
    ) -> Pair {
        let grown = Pair {
            word: self.grown_word(first, before.word, joined.word, thresholds),
            high: self.grown_byte(
                first.saturating_add(2),
                before.high,
                joined.high,
                thresholds,
            ),
            low: self.grown_byte(first.saturating_add(4), before.low, joined.low, thresholds),
            origin: joined.origin,
        };
        if grown == joined {
            return joined;
        }
        grown.normal_form().unwrap_or(grown)
    }

    fn grown_word(
        &mut self,
        first: usize,
        before: WordRange,
        joined: WordRange,
        thresholds: &Thresholds,
    ) -> WordRange {
        let mut low = joined.low();
        if low < before.low() {
            let moves = self.count(first);
            if moves > JUMPS {
                low = low.min(1);
            } else if moves > MOVES {
                low = thresholds.word_below(low);
            }
        }
        let mut high = joined.high();
        if high > before.high() {
            let moves = self.count(first.saturating_add(1));
            if moves > JUMPS {
                high = u16::MAX;
            } else if moves > MOVES {
                high = thresholds.word_above(high);
            }
        }
        WordRange::new(low, high).unwrap_or(joined)
    }

    fn grown_byte(
        &mut self,
        first: usize,
        before: ByteRange,
        joined: ByteRange,
        thresholds: &Thresholds,
    ) -> ByteRange {
        let mut low = joined.low();
        if low < before.low() {
            let moves = self.count(first);
            if moves > JUMPS {
                low = low.min(1);
            } else if moves > MOVES {
                low = thresholds.byte_below(low);
            }
        }
        let mut high = joined.high();
        if high > before.high() {
            let moves = self.count(first.saturating_add(1));
            if moves > JUMPS {
                high = u8::MAX;
            } else if moves > MOVES {
                high = thresholds.byte_above(high);
            }
        }
        ByteRange::new(low, high).unwrap_or(joined)
    }
}
