// What several rows know together: the hull of their ranges.

use intervals::{Domain, Pair};

/// The hull of what two rows know of a pair, range by range. It has no origin.
pub fn pair_hull(one: Pair, other: Pair) -> Pair {
    Pair {
        word: one.word.join(&other.word),
        high: one.high.join(&other.high),
        low: one.low.join(&other.low),
        origin: None,
    }
}
