// Register pairs: the ranges of the word and of its bytes, and the origin.
ghost use Rattle.std.specs.Prelude.{◌≡◌, ℕ, ◌+◌, ◌*◌, ◌/◌, ◌%◌, ◌≤◌, ◌≢◌, ◌↔◌, IsTrue, Some, IsSomeAnd};
ghost use Rattle.intervals.specs.Domain.{Entry};
ghost use Rattle.intervals.specs.Range.{Within, intersection, without};

use crate::domain::Domain;
use crate::range::{ByteRange, WordRange};
use crate::reg_pair::RegPair;

/// What is known of a register pair or of a word on the stack: the range of the word, those of its high and low byte,
/// and perhaps the origin. The origin is the register pair whose value at the activation's entry this word still is. A
/// pair that a certificate gives need not be in normal form. Its ranges may contradict one another; then it holds of no
/// word.
#[derive(Clone, Copy, PartialEq, Eq, Hash)]
pub struct Pair {
    pub word: WordRange,
    pub high: ByteRange,
    pub low: ByteRange,
    pub origin: Option<RegPair>,
}

impl WordRange {
    ghost use Rattle.intervals.specs.Pair.{words_of, high_bytes, low_bytes};

    /// The words made of the lower bounds and of the upper bounds.
    pub fn of_bytes(high: ByteRange, low: ByteRange) -> WordRange
        ensures { result ≡ words_of high low }
    {
        WordRange {
            low: u16::from(high.low) * 256 + u16::from(low.low),
            high: u16::from(high.high) * 256 + u16::from(low.high),
        }
    }

    /// The range of the high bytes of the words.
    pub fn high_bytes(self) -> ByteRange
        ensures { result ≡ high_bytes self }
    {
        ByteRange {
            low: (self.low / 256) as u8,
            high: (self.high / 256) as u8,
        }
    }

    /// The range of the low bytes of the words, if all have the same high byte; else None.
    pub fn low_bytes(self) -> Option<ByteRange>
        ensures { result ≡ low_bytes self }
    {
        if self.low / 256 == self.high / 256 {
            Some(ByteRange {
                low: (self.low % 256) as u8,
                high: (self.high % 256) as u8,
            })
        } else {
            None
        }
    }
}

impl Pair {
    ghost use Rattle.intervals.specs.Pair.{HoldsPair, OverlapsPair, full_pair, normal_form, written_word, written_bytes, with_word_cut, with_high_cut, with_low_cut};

    /// A pair about which nothing is known.
    pub fn full() -> Pair
        ensures { result ≡ full_pair }
    {
        Pair {
            word: WordRange::full(),
            high: ByteRange::full(),
            low: ByteRange::full(),
            origin: None,
        }
    }

    /// A pair with an origin and full ranges.
    pub fn of_origin(origin: RegPair) -> Pair
        ensures { result ≡ record full_pair { origin = Some origin } }
    {
        Pair {
            origin: Some(origin),
            ..Pair::full()
        }
    }

    /// Whether all three ranges are full, whatever the origin.
    pub fn is_full(self) -> bool
        ensures { IsTrue result ↔ (record self { origin = full_pair.origin } ≡ full_pair) }
    {
        self.word.is_full() && self.high.is_full() && self.low.is_full()
    }

    /// Whether the words share a value, the high bytes do, and the low bytes do. Origins are not compared.
    pub fn overlaps(self, other: Pair) -> bool
        ensures { IsTrue result ↔ OverlapsPair self other }
    {
        self.word.overlaps(other.word)
            && self.high.overlaps(other.high)
            && self.low.overlaps(other.low)
    }

    /// The pair after the three cuts of the normal form, or None if one of them leaves nothing. The cuts are not
    /// repeated, so the result need not be its own normal form (docs/CHECKER.md, "Ranges and their normal form").
    pub fn normal_form(self) -> Option<Pair>
        ensures exact { result ≡ normal_form self }
        ensures keeps { (entry : Entry) (v : ℕ) → HoldsPair self entry v
            → IsSomeAnd result (λ p. HoldsPair p entry v) }
    {
        let high = self.high.intersection(self.word.high_bytes())?;
        let low = match self.word.low_bytes() {
            Some(bytes) => self.low.intersection(bytes)?,
            None => self.low,
        };
        let word = self.word.intersection(WordRange::of_bytes(high, low))?;
        Some(Pair {
            word,
            high,
            low,
            origin: self.origin,
        })
    }

    /// The pair after a word was written: the bytes get what the word leaves of them. No origin; in normal form.
    pub fn of_word(word: WordRange) -> Pair
        ensures exact { result ≡ written_word word }
        ensures normal { normal_form (record full_pair { word = word }) ≡ Some result }
        ensures contains { (entry : Entry) (v : ℕ) → Within word v → HoldsPair result entry v }
    {
        Pair {
            word,
            high: word.high_bytes(),
            low: word.low_bytes().unwrap_or(ByteRange::full()),
            origin: None,
        }
    }

    /// The pair after both bytes were written: the word is made of them. No origin; in normal form.
    pub fn of_bytes(high: ByteRange, low: ByteRange) -> Pair
        ensures exact { result ≡ written_bytes high low }
        ensures normal { normal_form result ≡ Some result }
        ensures contains { (entry : Entry) (x y : ℕ) → Within high x → Within low y
            → HoldsPair result entry (x * 256 + y) }
    {
        Pair {
            word: WordRange::of_bytes(high, low),
            high,
            low,
            origin: None,
        }
    }

    /// The pair after its high byte was written. No origin.
    pub fn with_high(self, high: ByteRange) -> Pair
        ensures exact { result ≡ written_bytes high self.low }
        ensures contains { (entry : Entry) (v x : ℕ) → HoldsPair self entry v → Within high x
            → HoldsPair result entry (x * 256 + v % 256) }
    {
        Pair::of_bytes(high, self.low)
    }

    /// The pair after its low byte was written. No origin.
    pub fn with_low(self, low: ByteRange) -> Pair
        ensures exact { result ≡ written_bytes self.high low }
        ensures contains { (entry : Entry) (v y : ℕ) → HoldsPair self entry v → Within low y
            → HoldsPair result entry (v / 256 * 256 + y) }
    {
        Pair::of_bytes(self.high, low)
    }

    /// The normal form of the pair with its word cut to a range, or None if nothing is left. The origin stays.
    pub fn cut_word(self, to: WordRange) -> Option<Pair>
        ensures exact { result ≡ with_word_cut self (intersection self.word to) }
        ensures keeps { (entry : Entry) (v : ℕ) → HoldsPair self entry v → Within to v
            → IsSomeAnd result (λ p. HoldsPair p entry v) }
    {
        let word = self.word.intersection(to)?;
        Pair { word, ..self }.normal_form()
    }

    /// The normal form of the pair with its high byte cut to a range, or None if nothing is left. The origin stays.
    pub fn cut_high(self, to: ByteRange) -> Option<Pair>
        ensures exact { result ≡ with_high_cut self (intersection self.high to) }
        ensures keeps { (entry : Entry) (v : ℕ) → HoldsPair self entry v → Within to (v / 256)
            → IsSomeAnd result (λ p. HoldsPair p entry v) }
    {
        let high = self.high.intersection(to)?;
        Pair { high, ..self }.normal_form()
    }

    /// The normal form of the pair with its low byte cut to a range, or None if nothing is left. The origin stays.
    pub fn cut_low(self, to: ByteRange) -> Option<Pair>
        ensures exact { result ≡ with_low_cut self (intersection self.low to) }
        ensures keeps { (entry : Entry) (v : ℕ) → HoldsPair self entry v → Within to (v % 256)
            → IsSomeAnd result (λ p. HoldsPair p entry v) }
    {
        let low = self.low.intersection(to)?;
        Pair { low, ..self }.normal_form()
    }

    /// The normal form of the pair with one value cut from the ends of its word, or None if nothing is left. The origin
    /// stays.
    pub fn without_word(self, value: u16) -> Option<Pair>
        ensures exact { result ≡ with_word_cut self (without self.word value) }
        ensures keeps { (entry : Entry) (v : ℕ) → HoldsPair self entry v → v ≢ value
            → IsSomeAnd result (λ p. HoldsPair p entry v) }
    {
        let word = self.word.without(value)?;
        Pair { word, ..self }.normal_form()
    }

    /// The normal form of the pair with one value cut from the ends of its high byte, or None if nothing is left. The
    /// origin stays.
    pub fn without_high(self, value: u8) -> Option<Pair>
        ensures exact { result ≡ with_high_cut self (without self.high value) }
        ensures keeps { (entry : Entry) (v : ℕ) → HoldsPair self entry v → v / 256 ≢ value
            → IsSomeAnd result (λ p. HoldsPair p entry v) }
    {
        let high = self.high.without(value)?;
        Pair { high, ..self }.normal_form()
    }

    /// The normal form of the pair with one value cut from the ends of its low byte, or None if nothing is left. The
    /// origin stays.
    pub fn without_low(self, value: u8) -> Option<Pair>
        ensures exact { result ≡ with_low_cut self (without self.low value) }
        ensures keeps { (entry : Entry) (v : ℕ) → HoldsPair self entry v → v % 256 ≢ value
            → IsSomeAnd result (λ p. HoldsPair p entry v) }
    {
        let low = self.low.without(value)?;
        Pair { low, ..self }.normal_form()
    }
}

impl Domain for Pair {
    ghost use Rattle.intervals.specs.Pair.{HoldsPair, CoversPair, hull_of_pairs};
    ghost use Rattle.intervals.specs.PairLaws.{covers_itself, covers_along, holds_wider, hull_covers_first, hull_covers_second};

    ghost holds = { HoldsPair };

    ghost Covers = { CoversPair };

    ghost joined = { hull_of_pairs };

    ghost reflexive = { covers_itself };

    ghost transitive = { covers_along };

    ghost widens = { holds_wider };

    ghost joins_first = { hull_covers_first };

    ghost joins_second = { hull_covers_second };

    /// Each range covers the other's, and an origin of this pair is also the other's.
    fn covers(&self, other: &Self) -> bool {
        self.word.covers(&other.word)
            && self.high.covers(&other.high)
            && self.low.covers(&other.low)
            && (self.origin.is_none() || self.origin == other.origin)
    }

    /// The hull of each range, not put in normal form again, with the origin if both have the same.
    fn join(&self, other: &Self) -> Self {
        Pair {
            word: self.word.join(&other.word),
            high: self.high.join(&other.high),
            low: self.low.join(&other.low),
            origin: if self.origin == other.origin {
                self.origin
            } else {
                None
            },
        }
    }
}
