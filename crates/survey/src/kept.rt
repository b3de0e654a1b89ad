// The register pairs that a procedure gives back as it got them.

use abs_state::Pairs;
use intervals::RegPair;

/// The ten pairs, in the order of rows.
pub const PAIRS: [RegPair; 10] = [
    RegPair::Af,
    RegPair::Bc,
    RegPair::De,
    RegPair::Hl,
    RegPair::Ix,
    RegPair::Iy,
    RegPair::AlternateAf,
    RegPair::AlternateBc,
    RegPair::AlternateDe,
    RegPair::AlternateHl,
];

/// A set of register pairs.
#[derive(Clone, Copy, PartialEq, Eq)]
pub struct KeptPairs {
    flags: [bool; 10],
}

impl KeptPairs {
    /// The pairs that are their own origin: at an exit they have their values at the entry.
    pub(crate) fn at_exit(pairs: &Pairs) -> KeptPairs {
        let mut flags = [false; 10];
        for pair in PAIRS {
            flags[pair.place()] = pairs.pair(pair).origin == Some(pair);
        }
        KeptPairs { flags }
    }

    /// The pairs in both sets.
    pub(crate) fn and(self, other: KeptPairs) -> KeptPairs {
        let mut flags = [false; 10];
        for pair in PAIRS {
            flags[pair.place()] = self.contains(pair) && other.contains(pair);
        }
        KeptPairs { flags }
    }

    /// Whether a pair is in the set.
    pub fn contains(&self, pair: RegPair) -> bool {
        self.flags[pair.place()]
    }
}
