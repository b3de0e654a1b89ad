// Slots: what is known of one word on the stack.
ghost use Rattle.std.specs.Prelude.{◌≡◌};

use intervals::{Domain, Pair};

/// What is known of one word on the stack, as of a register pair.
#[derive(Clone, Copy, PartialEq, Eq, Hash)]
pub struct Slot {
    pub pair: Pair,
}

impl Default for Slot {
    ghost use Rattle.intervals.specs.Pair.{full_pair};

    ghost is_default = { λ s. s ≡ record { pair = full_pair } };

    /// A word about which nothing is known.
    fn default() -> Slot {
        Slot { pair: Pair::full() }
    }
}

impl Domain for Slot {
    ghost use Rattle.intervals.specs.PairLaws.{covers_itself, covers_along, holds_wider, hull_covers_first, hull_covers_second};
    ghost use Rattle.stack_shape.specs.Slot.{HoldsSlot, CoversSlot, hull_of_slots};

    ghost holds = { HoldsSlot };

    ghost Covers = { CoversSlot };

    ghost joined = { hull_of_slots };

    ghost reflexive = { λ a. covers_itself a.pair };

    ghost transitive = { λ a b c. covers_along a.pair b.pair c.pair };

    ghost widens = { λ a b. holds_wider a.pair b.pair };

    ghost joins_first = { λ a b. hull_covers_first a.pair b.pair };

    ghost joins_second = { λ a b. hull_covers_second a.pair b.pair };

    fn covers(&self, other: &Self) -> bool {
        self.pair.covers(&other.pair)
    }

    fn join(&self, other: &Self) -> Self {
        Slot {
            pair: self.pair.join(&other.pair),
        }
    }
}
