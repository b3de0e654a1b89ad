// The pairs of a state by number.

use abs_state::Pairs;
use intervals::{Pair, RegPair};

/// The pairs, in the order of their numbers.
const ORDER: [RegPair; 10] = [
    RegPair::Af,
    RegPair::Bc,
    RegPair::De,
    RegPair::Hl,
    RegPair::Ix,
    RegPair::Iy,
    RegPair::AlternateAf,
    RegPair::AlternateBc,
    RegPair::AlternateDe,
    RegPair::AlternateHl,
];

/// The pair with this number, 0 to 9; AF for any other.
fn named(number: u8) -> RegPair {
    ORDER
        .get(usize::from(number))
        .copied()
        .unwrap_or(RegPair::Af)
}

/// What is known of the pair with this number, 0 to 9.
pub(crate) fn pair_at(pairs: &Pairs, number: u8) -> Pair {
    pairs.pair(named(number))
}

/// Replaces what is known of the pair with this number, 0 to 9.
pub(crate) fn with_pair(pairs: &mut Pairs, number: u8, pair: Pair) {
    pairs.set(named(number), pair);
}
