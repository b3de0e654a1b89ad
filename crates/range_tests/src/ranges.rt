// Tests of ranges and pairs, worked by hand from the window rule and the table of results.

use intervals::{ByteRange, Domain, Pair, RegPair, WordRange};

fn bytes(low: u8, high: u8) -> ByteRange {
    ByteRange::new(low, high).unwrap_or(ByteRange::full())
}

fn words(low: u16, high: u16) -> WordRange {
    WordRange::new(low, high).unwrap_or(WordRange::full())
}

/// An operation on a byte range.
#[derive(Clone, Copy)]
enum ByteOp {
    Sum(u8, u8),
    SumWithCarry(u8, u8),
    Difference(u8, u8),
    DifferenceWithCarry(u8, u8),
    Increment,
    Decrement,
    Negation,
    And(u8, u8),
    Or(u8, u8),
    Xor(u8, u8),
    Complement,
    Halves,
    Doubles,
    RotationLeft,
    RotationRight,
    WithBit7Set,
    WithBit0Reset,
}

fn bytes_after(op: ByteOp, (low, high): (u8, u8)) -> ByteRange {
    let range = bytes(low, high);
    match op {
        ByteOp::Sum(low, high) => range.sum(bytes(low, high)),
        ByteOp::SumWithCarry(low, high) => range.sum_with_carry(bytes(low, high)),
        ByteOp::Difference(low, high) => range.difference(bytes(low, high)),
        ByteOp::DifferenceWithCarry(low, high) => range.difference_with_carry(bytes(low, high)),
        ByteOp::Increment => range.increment(),
        ByteOp::Decrement => range.decrement(),
        ByteOp::Negation => range.negation(),
        ByteOp::And(low, high) => range.and(bytes(low, high)),
        ByteOp::Or(low, high) => range.or(bytes(low, high)),
        ByteOp::Xor(low, high) => range.xor(bytes(low, high)),
        ByteOp::Complement => range.complement(),
        ByteOp::Halves => range.halves(),
        ByteOp::Doubles => range.doubles(),
        ByteOp::RotationLeft => range.rotation_left(),
        ByteOp::RotationRight => range.rotation_right(),
        ByteOp::WithBit7Set => range.with_bit_set(7),
        ByteOp::WithBit0Reset => range.with_bit_reset(0),
    }
}

/// A byte range, an operation, and the range of its results.
const BYTE_SUMS: &[((u8, u8), ByteOp, (u8, u8))] = &[
    ((1, 3), ByteOp::Sum(10, 20), (11, 23)),
    ((200, 210), ByteOp::Sum(60, 70), (4, 24)),
    ((200, 210), ByteOp::Sum(40, 70), (0, 255)),
    ((250, 255), ByteOp::SumWithCarry(0, 0), (0, 255)),
    ((0, 254), ByteOp::SumWithCarry(0, 0), (0, 255)),
    ((8, 9), ByteOp::Difference(1, 3), (5, 8)),
    ((1, 2), ByteOp::Difference(3, 4), (253, 255)),
    ((1, 4), ByteOp::Difference(3, 3), (0, 255)),
    ((5, 5), ByteOp::DifferenceWithCarry(5, 5), (0, 255)),
    ((9, 9), ByteOp::DifferenceWithCarry(4, 4), (4, 5)),
    ((255, 255), ByteOp::Increment, (0, 0)),
    ((254, 255), ByteOp::Increment, (0, 255)),
    ((0, 0), ByteOp::Decrement, (255, 255)),
    ((1, 9), ByteOp::Decrement, (0, 8)),
    ((1, 128), ByteOp::Negation, (128, 255)),
    ((0, 1), ByteOp::Negation, (0, 255)),
    ((0, 0), ByteOp::Negation, (0, 0)),
];

#[test]
fn sums_of_bytes(rt: HostRuntime) {
    for (place, &(range, op, (low, high))) in BYTE_SUMS.iter().enumerate() {
        assert!(rt; bytes_after(op, range) == bytes(low, high), "row {place}");
    }
}

/// A byte range, an operation, and the range of its results.
const BYTE_LOGIC: &[((u8, u8), ByteOp, (u8, u8))] = &[
    ((12, 12), ByteOp::And(10, 10), (8, 8)),
    ((0, 255), ByteOp::And(7, 7), (0, 7)),
    ((12, 12), ByteOp::Or(3, 3), (15, 15)),
    ((2, 4), ByteOp::Or(3, 9), (3, 15)),
    ((0, 64), ByteOp::Or(1, 1), (1, 127)),
    ((0, 0), ByteOp::Or(0, 1), (0, 1)),
    ((12, 12), ByteOp::Xor(10, 10), (6, 6)),
    ((3, 4), ByteOp::Xor(3, 3), (0, 7)),
    ((0, 16), ByteOp::Complement, (239, 255)),
    ((3, 9), ByteOp::Halves, (1, 4)),
    ((3, 127), ByteOp::Doubles, (6, 254)),
    ((3, 128), ByteOp::Doubles, (0, 255)),
    ((0x81, 0x81), ByteOp::RotationLeft, (3, 3)),
    ((0x81, 0x81), ByteOp::RotationRight, (0xc0, 0xc0)),
    ((1, 2), ByteOp::RotationLeft, (0, 255)),
    ((1, 1), ByteOp::WithBit7Set, (0x81, 0x81)),
    ((0xff, 0xff), ByteOp::WithBit0Reset, (0xfe, 0xfe)),
];

#[test]
fn logic_of_bytes(rt: HostRuntime) {
    for (place, &(range, op, (low, high))) in BYTE_LOGIC.iter().enumerate() {
        assert!(rt; bytes_after(op, range) == bytes(low, high), "row {place}");
    }
}

/// An operation on a word range.
#[derive(Clone, Copy)]
enum WordOp {
    Sum(u16, u16),
    SumWithCarry(u16, u16),
    DifferenceWithCarry(u16, u16),
    Increment,
    Decrement,
    Displacement(u8),
}

fn words_after(op: WordOp, (low, high): (u16, u16)) -> WordRange {
    let range = words(low, high);
    match op {
        WordOp::Sum(low, high) => range.sum(words(low, high)),
        WordOp::SumWithCarry(low, high) => range.sum_with_carry(words(low, high)),
        WordOp::DifferenceWithCarry(low, high) => range.difference_with_carry(words(low, high)),
        WordOp::Increment => range.increment(),
        WordOp::Decrement => range.decrement(),
        WordOp::Displacement(byte) => range.displacement(byte),
    }
}

/// A word range, an operation, and the range of its results.
const WORD_SUMS: &[((u16, u16), WordOp, (u16, u16))] = &[
    ((0x4000, 0x40ff), WordOp::Sum(1, 2), (0x4001, 0x4101)),
    ((0xffff, 0xffff), WordOp::Sum(1, 1), (0, 0)),
    ((0xfffe, 0xffff), WordOp::Sum(1, 1), (0, 65_535)),
    ((0, 9), WordOp::SumWithCarry(5, 5), (5, 15)),
    ((9, 9), WordOp::DifferenceWithCarry(9, 9), (0, 65_535)),
    ((100, 110), WordOp::DifferenceWithCarry(1, 9), (90, 109)),
    ((0xffff, 0xffff), WordOp::Increment, (0, 0)),
    ((0, 0), WordOp::Decrement, (0xffff, 0xffff)),
    ((0, 5), WordOp::Decrement, (0, 65_535)),
    (
        (0x5000, 0x5010),
        WordOp::Displacement(0x7f),
        (0x507f, 0x508f),
    ),
    (
        (0x5000, 0x5010),
        WordOp::Displacement(0x80),
        (0x4f80, 0x4f90),
    ),
    ((0, 0), WordOp::Displacement(0xff), (0xffff, 0xffff)),
];

#[test]
fn sums_of_words(rt: HostRuntime) {
    for (place, &(range, op, (low, high))) in WORD_SUMS.iter().enumerate() {
        assert!(rt; words_after(op, range) == words(low, high), "row {place}");
    }
}

fn bytes_hold() -> bool {
    let range = bytes(4, 9);
    ByteRange::new(4, 3).is_none()
        && range.intersection(ByteRange::at_most(6)) == Some(bytes(4, 6))
        && range.intersection(ByteRange::at_least(10)).is_none()
        && range.without(4) == Some(bytes(5, 9))
        && range.without(5) == Some(range)
        && ByteRange::single(0).without(0).is_none()
        && range.join(&bytes(20, 30)) == bytes(4, 30)
        && range.covers(&bytes(5, 9))
        && !range.covers(&bytes(5, 10))
        && range.overlaps(bytes(9, 20))
        && !range.overlaps(bytes(10, 20))
        && range.value().is_none()
        && ByteRange::single(7).value() == Some(7)
}

fn words_hold() -> bool {
    let range = words(4, 9);
    range.low() == 4
        && range.high() == 9
        && range.without(9) == Some(words(4, 8))
        && range.contains(9)
        && !range.contains(10)
        && WordRange::at_least(0).is_full()
        && !WordRange::at_most(9).is_full()
}

#[test]
fn ranges(rt: HostRuntime) {
    assert!(rt; bytes_hold());
    assert!(rt; words_hold());
}

/// Whether a pair has these ranges.
fn is_of(pair: Pair, word: WordRange, high: ByteRange, low: ByteRange) -> bool {
    pair.word == word && pair.high == high && pair.low == low
}

fn made_pairs_hold() -> bool {
    let loop_count = Pair::of_origin(RegPair::Bc).with_high(bytes(1, 8));
    is_of(
        loop_count,
        words(0x0100, 0x08ff),
        bytes(1, 8),
        ByteRange::full(),
    ) && loop_count.origin == None
        && is_of(
            Pair::of_word(words(0x4380, 0x43ff)),
            words(0x4380, 0x43ff),
            bytes(0x43, 0x43),
            bytes(0x80, 0xff),
        )
        && is_of(
            Pair::of_word(words(0x43ff, 0x4400)),
            words(0x43ff, 0x4400),
            bytes(0x43, 0x44),
            ByteRange::full(),
        )
}

/// Cuts the high byte of the pair with B from 1 to 8 and any C; whether the result has these words, or is empty.
fn counts_cut_to(high: ByteRange, left: Option<WordRange>) -> bool {
    let loop_count = Pair::of_origin(RegPair::Bc).with_high(bytes(1, 8));
    match (loop_count.cut_high(high), left) {
        (Some(pair), Some(word)) => is_of(pair, word, high, ByteRange::full()),
        (None, None) => true,
        _ => false,
    }
}

fn cut_words_hold() -> bool {
    match Pair::of_origin(RegPair::Bc).cut_word(words(0, 5)) {
        Some(kept) => {
            is_of(kept, words(0, 5), bytes(0, 0), bytes(0, 5)) && kept.origin == Some(RegPair::Bc)
        }
        None => false,
    }
}

fn not_zero_holds() -> bool {
    match Pair::full().without_word(0) {
        Some(pair) => is_of(pair, words(1, 0xffff), ByteRange::full(), ByteRange::full()),
        None => false,
    }
}

#[test]
fn pairs(rt: HostRuntime) {
    assert!(rt; made_pairs_hold());
    assert!(rt; counts_cut_to(bytes(1, 1), Some(words(0x0100, 0x01ff))));
    assert!(rt; counts_cut_to(bytes(9, 9), None));
    assert!(rt; cut_words_hold());
    assert!(rt; not_zero_holds());
}

/// Whether the normal form of the pair with the words from 0105 to `last`, the high byte 01 and the low byte from
/// `least` to 09 has the words from 0105 to 0109 and the low byte from `cut` to 09.
fn becomes(last: u16, least: u8, cut: u8) -> bool {
    let pair = Pair {
        word: words(0x0105, last),
        high: bytes(1, 1),
        low: bytes(least, 9),
        origin: None,
    };
    match pair.normal_form() {
        Some(normal) => is_of(normal, words(0x0105, 0x0109), bytes(1, 1), bytes(cut, 9)),
        None => false,
    }
}

#[test]
fn the_three_cuts_are_made_once(rt: HostRuntime) {
    // The ends of the word have one high byte only after the word was cut to 0105 to 0109, so the low byte keeps 03 to
    // 09 at first.
    assert!(rt; becomes(0x02ff, 3, 3));
    assert!(rt; becomes(0x0109, 3, 5));
}

fn origins_hold() -> bool {
    let saved = Pair::of_origin(RegPair::De);
    let other = Pair::of_origin(RegPair::AlternateHl);
    Pair::full().covers(&saved)
        && !saved.covers(&Pair::full())
        && !saved.covers(&other)
        && saved.join(&other) == Pair::full()
        && saved.join(&saved) == saved
        && saved.is_full()
        && RegPair::AlternateHl.place() == 9
}

fn joins_hold() -> bool {
    let low = Pair::of_word(words(0x4000, 0x4003));
    let high = Pair::of_word(words(0x4200, 0x4201));
    let both = low.join(&high);
    is_of(both, words(0x4000, 0x4201), bytes(0x40, 0x42), bytes(0, 3))
        && !low.overlaps(high)
        && both.overlaps(high)
        && both.covers(&low)
        && !low.is_full()
}

#[test]
fn pairs_covered_and_joined(rt: HostRuntime) {
    assert!(rt; origins_hold());
    assert!(rt; joins_hold());
}
