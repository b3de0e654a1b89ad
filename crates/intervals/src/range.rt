// Ranges of bytes and of words: constructors, membership, cuts and joins.
ghost use Rattle.std.specs.Prelude.{◌≡◌, ℕ, ◌+◌, ◌≤◌, ◌≢◌, ◌↔◌, ⊤, IsTrue, IsSomeAnd, min, max};
ghost use Rattle.std.specs.Option.{SomeIff};
ghost use Rattle.std.proofs.Common.{rules};
ghost use Rattle.intervals.specs.Range.{Within, Covers, Overlaps, single, full, between, hull, intersection, without};

use crate::bound::Bound;
use crate::domain::Domain;
use std::alloc::AllocError;
use std::marker::Model;

/// The numbers from a lower to an upper bound, both included. The lower bound is never above the upper.
#[derive(Copy, PartialEq, Eq, Hash)]
pub struct Range<T: Bound> {
    pub(crate) low: T,
    pub(crate) high: T,
}

/// A range of bytes.
pub type ByteRange = Range<u8>;

/// A range of words.
pub type WordRange = Range<u16>;

impl<T: Bound> Model for Range<T> {
    ghost use Rattle.std.specs.Prelude.{◌≤◌};
    ghost use Rattle.intervals.specs.Range.{RangeView};

    ghost Value = { RangeView };

    ghost view = { λ r. record { low = T.number r.low; high = T.number r.high } };

    ghost invariant = { λ r. T.number r.low ≤ T.number r.high };

    ghost inverse = { λ r. record { low = T.of_number r.low; high = T.of_number r.high } };

    ghost inverse_ok = { λ r _. rw (T.back r.low, T.back r.high) };
}

impl<T: Bound> Clone for Range<T> {
    ghost is_clone = { λ x y. y ≡ x };

    ghost is_infallible = { λ _. ⊤ };

    fn clone(&self) -> Result<Self, AllocError> {
        Ok(*self)
    }
}

/// The lower of two numbers.
fn lower<T: Bound>(a: T, b: T) -> T
    ensures { T.number result ≡ min (T.number a) (T.number b) }
{
    if a.to_word() <= b.to_word() { a } else { b }
}

/// The higher of two numbers.
fn higher<T: Bound>(a: T, b: T) -> T
    ensures { T.number result ≡ max (T.number a) (T.number b) }
{
    if a.to_word() <= b.to_word() { b } else { a }
}

impl<T: Bound> Range<T> {
    /// The range from low to high, or None where low is above high.
    pub fn new(low: T, high: T) -> Option<Range<T>>
        ensures { result ≡ between (T.number low) (T.number high) }
    {
        if low.to_word() <= high.to_word() {
            Some(Range { low, high })
        } else {
            None
        }
    }

    /// All numbers of the type: 0 to 255, or 0 to 65,535.
    pub fn full() -> Range<T>
        ensures { result ≡ full (T.GREATEST + 1) }
    {
        Range {
            low: T::of_word(0),
            high: T::of_word(T::GREATEST),
        }
    }

    /// One number.
    pub fn single(value: T) -> Range<T>
        ensures { result ≡ single (T.number value) }
    {
        Range {
            low: value,
            high: value,
        }
    }

    /// The numbers from 0 to `bound`, both included.
    pub fn at_most(bound: T) -> Range<T>
        ensures { result ≡ record { low = 0; high = T.number bound } }
    {
        Range {
            low: T::of_word(0),
            high: bound,
        }
    }

    /// The numbers from `bound` to the greatest, both included.
    pub fn at_least(bound: T) -> Range<T>
        ensures { result ≡ record { low = T.number bound; high = T.GREATEST } }
    {
        let _word = bound.to_word();
        Range {
            low: bound,
            ..Range::full()
        }
    }

    /// The lower bound.
    pub fn low(self) -> T
        ensures value { T.number result ≡ self.low }
        ensures order { self.low ≤ self.high }
        ensures within { self.high ≤ T.GREATEST }
    {
        let _high = self.high.to_word();
        self.low
    }

    /// The upper bound.
    pub fn high(self) -> T
        ensures value { T.number result ≡ self.high }
        ensures order { self.low ≤ self.high }
        ensures within { self.high ≤ T.GREATEST }
    {
        let _high = self.high.to_word();
        self.high
    }

    /// The number if the range has only one, else None.
    pub fn value(self) -> Option<T>
        ensures { SomeIff result (self.low ≡ self.high) (T.of_number self.low) }
    {
        (self.low.to_word() == self.high.to_word()).then_some(self.low)
    }

    /// Whether the range is all numbers of the type.
    pub fn is_full(self) -> bool
        ensures { IsTrue result ↔ (self ≡ full (T.GREATEST + 1)) }
    {
        self.low.to_word() == 0 && self.high.to_word() == T::GREATEST
    }

    /// Whether a number lies in the range.
    pub fn contains(self, value: T) -> bool
        ensures { IsTrue result ↔ Within self (T.number value) }
    {
        self.low.to_word() <= value.to_word() && value.to_word() <= self.high.to_word()
    }

    /// Whether the ranges share a number.
    pub fn overlaps(self, other: Range<T>) -> bool
        ensures { IsTrue result ↔ Overlaps self other }
    {
        self.low.to_word() <= other.high.to_word() && other.low.to_word() <= self.high.to_word()
    }

    /// The numbers that lie in both ranges, or None if there are none.
    pub fn intersection(self, other: Range<T>) -> Option<Range<T>>
        ensures exact { result ≡ intersection self other }
        ensures keeps { (x : ℕ) → Within self x → Within other x
            → IsSomeAnd result (λ r. Within r x) }
    {
        Range::new(higher(self.low, other.low), lower(self.high, other.high))
    }

    /// The range without `value` if that is a bound; None if nothing is left. A value between the bounds stays.
    pub fn without(self, value: T) -> Option<Range<T>>
        ensures exact { result ≡ without self (T.number value) }
        ensures keeps { (x : ℕ) → Within self x → x ≢ T.number value
            → IsSomeAnd result (λ r. Within r x) }
    {
        let (low, high, value) = (self.low.to_word(), self.high.to_word(), value.to_word());
        match (low == value, high == value) {
            (true, true) => None,
            (true, false) => Range::new(T::of_word(low + 1), self.high),
            (false, true) => Range::new(self.low, T::of_word(high - 1)),
            (false, false) => Range::new(self.low, self.high),
        }
    }
}

impl<T: Bound> Domain for Range<T> {
    ghost holds = { λ r _ v. Within r v };

    ghost Covers = { Covers };

    ghost joined = { hull };

    ghost reflexive = { Prim.search rules };

    ghost transitive = { Prim.search rules };

    ghost widens = { Prim.search rules };

    ghost joins_first = { Prim.search rules };

    ghost joins_second = { Prim.search rules };

    fn covers(&self, other: &Self) -> bool {
        self.low.to_word() <= other.low.to_word() && other.high.to_word() <= self.high.to_word()
    }

    /// The hull: the smallest range that contains both.
    fn join(&self, other: &Self) -> Self {
        Range {
            low: lower(self.low, other.low),
            high: higher(self.high, other.high),
        }
    }
}
