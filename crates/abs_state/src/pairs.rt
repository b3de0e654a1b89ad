// The ten register pairs of a state.
ghost use Rattle.std.specs.Prelude.{◌≡◌, ◌↔◌, IsTrue, Some};
ghost use Rattle.abs_state.specs.Pairs.{pair_of, with_pair, full_pairs, own_pairs, CoversMainSet, CoversAlternate, CoversPairs, KeepsPair, KeepsPairs, OverlapsPairs, join_of_pairs};

use intervals::{Domain, Pair, RegPair};

/// What is known of the ten register pairs.
#[derive(Clone, Copy)]
pub struct Pairs {
    pub af: Pair,
    pub bc: Pair,
    pub de: Pair,
    pub hl: Pair,
    pub ix: Pair,
    pub iy: Pair,
    pub alternate_af: Pair,
    pub alternate_bc: Pair,
    pub alternate_de: Pair,
    pub alternate_hl: Pair,
}

impl Pairs {
    /// Nothing is known of any pair.
    pub fn full() -> Pairs
        ensures { result ≡ full_pairs }
    {
        Pairs {
            af: Pair::full(),
            bc: Pair::full(),
            de: Pair::full(),
            hl: Pair::full(),
            ix: Pair::full(),
            iy: Pair::full(),
            alternate_af: Pair::full(),
            alternate_bc: Pair::full(),
            alternate_de: Pair::full(),
            alternate_hl: Pair::full(),
        }
    }

    /// The same ranges, with each pair as its own origin.
    pub fn own(&self) -> Pairs
        ensures { result ≡ own_pairs self.now }
    {
        Pairs {
            af: own(self.af, RegPair::Af),
            bc: own(self.bc, RegPair::Bc),
            de: own(self.de, RegPair::De),
            hl: own(self.hl, RegPair::Hl),
            ix: own(self.ix, RegPair::Ix),
            iy: own(self.iy, RegPair::Iy),
            alternate_af: own(self.alternate_af, RegPair::AlternateAf),
            alternate_bc: own(self.alternate_bc, RegPair::AlternateBc),
            alternate_de: own(self.alternate_de, RegPair::AlternateDe),
            alternate_hl: own(self.alternate_hl, RegPair::AlternateHl),
        }
    }

    /// What is known of a pair.
    pub fn pair(&self, of: RegPair) -> Pair
        ensures { result ≡ pair_of of self.now }
    {
        match of {
            RegPair::Af => self.af,
            RegPair::Bc => self.bc,
            RegPair::De => self.de,
            RegPair::Hl => self.hl,
            RegPair::Ix => self.ix,
            RegPair::Iy => self.iy,
            RegPair::AlternateAf => self.alternate_af,
            RegPair::AlternateBc => self.alternate_bc,
            RegPair::AlternateDe => self.alternate_de,
            RegPair::AlternateHl => self.alternate_hl,
        }
    }

    /// Replaces what is known of one pair.
    pub fn set(&mut self, of: RegPair, pair: Pair)
        ensures { self.new ≡ with_pair of pair self.old }
    {
        match of {
            RegPair::Af => self.af = pair,
            RegPair::Bc => self.bc = pair,
            RegPair::De => self.de = pair,
            RegPair::Hl => self.hl = pair,
            RegPair::Ix => self.ix = pair,
            RegPair::Iy => self.iy = pair,
            RegPair::AlternateAf => self.alternate_af = pair,
            RegPair::AlternateBc => self.alternate_bc = pair,
            RegPair::AlternateDe => self.alternate_de = pair,
            RegPair::AlternateHl => self.alternate_hl = pair,
        }
    }

    /// Whether each pair covers the other's.
    pub fn covers(&self, other: &Pairs) -> bool
        ensures { IsTrue result ↔ CoversPairs self.now other.now }
    {
        self.covers_main(other) && self.covers_alternate(other)
    }

    fn covers_main(&self, other: &Pairs) -> bool
        ensures { IsTrue result ↔ CoversMainSet self.now other.now }
    {
        self.af.covers(&other.af)
            && self.bc.covers(&other.bc)
            && self.de.covers(&other.de)
            && self.hl.covers(&other.hl)
            && self.ix.covers(&other.ix)
            && self.iy.covers(&other.iy)
    }

    fn covers_alternate(&self, other: &Pairs) -> bool
        ensures { IsTrue result ↔ CoversAlternate self.now other.now }
    {
        self.alternate_af.covers(&other.alternate_af)
            && self.alternate_bc.covers(&other.alternate_bc)
            && self.alternate_de.covers(&other.alternate_de)
            && self.alternate_hl.covers(&other.alternate_hl)
    }

    /// Whether each origin of these pairs is the other's.
    pub fn keeps(&self, other: &Pairs) -> bool
        ensures { IsTrue result ↔ KeepsPairs self.now other.now }
    {
        keeps_pair(self.af, other.af)
            && keeps_pair(self.bc, other.bc)
            && keeps_pair(self.de, other.de)
            && keeps_pair(self.hl, other.hl)
            && keeps_pair(self.ix, other.ix)
            && keeps_pair(self.iy, other.iy)
            && keeps_pair(self.alternate_af, other.alternate_af)
            && keeps_pair(self.alternate_bc, other.alternate_bc)
            && keeps_pair(self.alternate_de, other.alternate_de)
            && keeps_pair(self.alternate_hl, other.alternate_hl)
    }

    /// Whether each pair overlaps the other's: their ranges share a value each.
    pub fn overlaps(&self, other: &Pairs) -> bool
        ensures { IsTrue result ↔ OverlapsPairs self.now other.now }
    {
        self.af.overlaps(other.af)
            && self.bc.overlaps(other.bc)
            && self.de.overlaps(other.de)
            && self.hl.overlaps(other.hl)
            && self.ix.overlaps(other.ix)
            && self.iy.overlaps(other.iy)
            && self.alternate_af.overlaps(other.alternate_af)
            && self.alternate_bc.overlaps(other.alternate_bc)
            && self.alternate_de.overlaps(other.alternate_de)
            && self.alternate_hl.overlaps(other.alternate_hl)
    }

    /// The join of each pair with the other's.
    pub(crate) fn join(&self, other: &Pairs) -> Pairs
        ensures { result ≡ join_of_pairs self.now other.now }
    {
        Pairs {
            af: self.af.join(&other.af),
            bc: self.bc.join(&other.bc),
            de: self.de.join(&other.de),
            hl: self.hl.join(&other.hl),
            ix: self.ix.join(&other.ix),
            iy: self.iy.join(&other.iy),
            alternate_af: self.alternate_af.join(&other.alternate_af),
            alternate_bc: self.alternate_bc.join(&other.alternate_bc),
            alternate_de: self.alternate_de.join(&other.alternate_de),
            alternate_hl: self.alternate_hl.join(&other.alternate_hl),
        }
    }
}

/// A pair with another origin.
fn own(pair: Pair, origin: RegPair) -> Pair
    ensures { result ≡ record pair { origin = Some origin } }
{
    Pair {
        origin: Some(origin),
        ..pair
    }
}

/// Whether the origin of a pair, if it has one, is the other's.
pub(crate) fn keeps_pair(pair: Pair, other: Pair) -> bool
    ensures { IsTrue result ↔ KeepsPair pair other }
{
    pair.origin.is_none() || pair.origin == other.origin
}
