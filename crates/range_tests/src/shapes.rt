// Tests of shapes of the stack, worked by hand.
use intervals::{ByteRange, Pair, RegPair, WordRange};
use stack_shape::{SLOTS, Shape, ShapeFault, Slot};

/// What is known of a slot.
#[derive(Clone, Copy)]
enum Known {
    /// A range of words.
    Words(u16, u16),
    /// A pair's value at the entry.
    Saved(RegPair),
    Nothing,
}

use Known::{Nothing, Saved, Words};

fn slot(known: Known) -> Slot {
    let pair = match known {
        Words(low, high) => Pair::of_word(WordRange::new(low, high).unwrap_or(WordRange::full())),
        Saved(register) => Pair::of_origin(register),
        Nothing => Pair::full(),
    };
    Slot { pair }
}

fn shape_of(slots: &[Known]) -> Shape {
    let mut shape = Shape::empty();
    for known in slots {
        let _ = shape.push(slot(*known));
    }
    shape
}

/// A shape of 64 slots with the words from 0 on, and whether each push fitted.
fn filled() -> (Shape, bool) {
    let mut shape = Shape::empty();
    let mut fits = true;
    for word in 0..64 {
        fits = fits && shape.push(slot(Words(word, word))).is_ok();
    }
    (shape, fits)
}

fn sixty_four_slots_fit() -> bool {
    let (mut shape, fits) = filled();
    let before = shape.copied();
    fits && shape.push(slot(Nothing)) == Err(ShapeFault::Full)
        && shape == before
        && shape.len() == SLOTS
        && SLOTS == 64
        && shape.bytes() == 128
        && shape.slots().first().copied() == Some(slot(Words(0, 0)))
        && shape.pop().ok() == Some(slot(Words(63, 63)))
        && shape.push(slot(Nothing)).is_ok()
}

#[test]
fn sixty_four_slots_and_no_more(rt: HostRuntime) {
    assert!(rt; sixty_four_slots_fit());
}

/// An operation on a shape.
#[derive(Clone, Copy)]
enum Op {
    Push(Known),
    Pop,
    Exchange(Known),
    Replace(usize, Known),
}

/// The slot that the operation returns, or None.
fn taken(shape: &mut Shape, op: Op) -> Option<Slot> {
    match op {
        Op::Push(known) => {
            let _ = shape.push(slot(known));
            None
        }
        Op::Pop => shape.pop().ok(),
        Op::Exchange(known) => shape.exchange(slot(known)).ok(),
        Op::Replace(place, known) => shape.replace(place, slot(known)),
    }
}

/// The slots before, the operation, the slot that it returns, and the slots after it.
type Change = (&'static [Known], Op, Option<Known>, &'static [Known]);

const CHANGES: &[Change] = &[
    (
        &[],
        Op::Push(Saved(RegPair::Af)),
        None,
        &[Saved(RegPair::Af)],
    ),
    (
        &[Words(1, 1)],
        Op::Push(Words(2, 3)),
        None,
        &[Words(1, 1), Words(2, 3)],
    ),
    // The slot pushed last is popped first.
    (
        &[
            Saved(RegPair::Af),
            Saved(RegPair::Bc),
            Words(0x4000, 0x40ff),
        ],
        Op::Pop,
        Some(Words(0x4000, 0x40ff)),
        &[Saved(RegPair::Af), Saved(RegPair::Bc)],
    ),
    (
        &[Saved(RegPair::Af), Saved(RegPair::Bc)],
        Op::Pop,
        Some(Saved(RegPair::Bc)),
        &[Saved(RegPair::Af)],
    ),
    (
        &[Saved(RegPair::Af)],
        Op::Pop,
        Some(Saved(RegPair::Af)),
        &[],
    ),
    (&[], Op::Pop, None, &[]),
    // The top is exchanged, if there is one.
    (
        &[Words(1, 1), Words(2, 2)],
        Op::Exchange(Saved(RegPair::Hl)),
        Some(Words(2, 2)),
        &[Words(1, 1), Saved(RegPair::Hl)],
    ),
    (&[], Op::Exchange(Saved(RegPair::Hl)), None, &[]),
    // Slots count from 0, the one pushed first.
    (
        &[Words(1, 1), Words(2, 2), Words(3, 3)],
        Op::Replace(1, Saved(RegPair::Hl)),
        Some(Words(2, 2)),
        &[Words(1, 1), Saved(RegPair::Hl), Words(3, 3)],
    ),
    (
        &[Words(1, 1), Words(2, 2)],
        Op::Replace(0, Nothing),
        Some(Words(1, 1)),
        &[Nothing, Words(2, 2)],
    ),
    (
        &[Words(1, 1)],
        Op::Replace(1, Nothing),
        None,
        &[Words(1, 1)],
    ),
    (&[], Op::Replace(0, Nothing), None, &[]),
];

fn is_as_told((before, op, out, after): Change) -> bool {
    let mut shape = shape_of(before);
    let copy = shape.copied();
    taken(&mut shape, op) == out.map(slot)
        && shape == shape_of(after)
        && copy == shape_of(before)
        && shape.len() == after.len()
        && usize::from(shape.bytes()) == after.len().wrapping_mul(2)
        && shape.top() == after.last().copied().map(slot)
        && shape.is_empty() == after.is_empty()
}

fn nothing_is_taken_of_none() -> bool {
    Shape::empty().pop().err() == Some(ShapeFault::Empty)
        && Shape::empty().exchange(slot(Nothing)).err() == Some(ShapeFault::Empty)
}

#[test]
fn changes_by_the_table(rt: HostRuntime) {
    for (place, change) in CHANGES.iter().enumerate() {
        assert!(rt; is_as_told(*change), "change {place}");
    }
    assert!(rt; nothing_is_taken_of_none());
}

/// Two shapes, whether the first covers the second, whether the second covers the first, and whether they overlap.
type Pairing = (&'static [Known], &'static [Known], bool, bool, bool);

const PAIRINGS: &[Pairing] = &[
    (
        &[Words(0x4000, 0x40ff), Words(0, 10)],
        &[Words(0x4010, 0x4020), Words(5, 5)],
        true,
        false,
        true,
    ),
    // The same ranges in the other order.
    (
        &[Words(0x4000, 0x40ff), Words(0, 10)],
        &[Words(5, 5), Words(0x4010, 0x4020)],
        false,
        false,
        false,
    ),
    (
        &[Words(1, 1), Saved(RegPair::Ix)],
        &[Words(1, 1), Saved(RegPair::Ix)],
        true,
        true,
        true,
    ),
    (&[Nothing], &[Saved(RegPair::Hl)], true, false, true),
    (
        &[Saved(RegPair::De)],
        &[Saved(RegPair::Hl)],
        false,
        false,
        true,
    ),
    // Different lengths.
    (&[Nothing], &[Nothing, Nothing], false, false, false),
    (&[], &[Nothing], false, false, false),
    (&[], &[], true, true, true),
    // One word shared, and none in the second slot.
    (
        &[Words(0x4000, 0x40ff), Words(0, 10)],
        &[Words(0x40ff, 0x4100), Saved(RegPair::Hl)],
        false,
        false,
        true,
    ),
    (
        &[Words(0x4000, 0x40ff), Words(0, 10)],
        &[Words(0x40ff, 0x4100), Words(11, 12)],
        false,
        false,
        false,
    ),
];

fn are_as_told((one, other, covers, covered, overlap): Pairing) -> bool {
    let (one, other) = (shape_of(one), shape_of(other));
    one.covers(&other) == covers
        && other.covers(&one) == covered
        && one.overlaps(&other) == overlap
        && other.overlaps(&one) == overlap
}

#[test]
fn covered_and_met_slot_by_slot(rt: HostRuntime) {
    for (place, pairing) in PAIRINGS.iter().enumerate() {
        assert!(rt; are_as_told(*pairing), "pair {place}");
    }
}

fn joins_hold() -> bool {
    let low = shape_of(&[
        Words(0x4000, 0x4003),
        Saved(RegPair::Hl),
        Saved(RegPair::De),
    ]);
    let high = shape_of(&[
        Words(0x4200, 0x4201),
        Saved(RegPair::Hl),
        Saved(RegPair::Bc),
    ]);
    let mut both = shape_of(&[Nothing, Saved(RegPair::Hl), Nothing]);
    let hull = Pair {
        word: WordRange::new(0x4000, 0x4201).unwrap_or(WordRange::full()),
        high: ByteRange::new(0x40, 0x42).unwrap_or(ByteRange::full()),
        low: ByteRange::at_most(3),
        origin: None,
    };
    let _ = both.replace(0, Slot { pair: hull });
    both.covers(&low) && both.covers(&high) && low.join(&high) == Some(both)
}

fn lengths_part_joins() -> bool {
    let (one, two) = (shape_of(&[Nothing]), shape_of(&[Nothing, Nothing]));
    one.join(&two).is_none()
        && two.join(&one).is_none()
        && Shape::empty().join(&Shape::empty()) == Some(Shape::empty())
        && one.clone().ok() == Some(one)
}

#[test]
fn joined_slot_by_slot(rt: HostRuntime) {
    assert!(rt; joins_hold());
    assert!(rt; lengths_part_joins());
}
