// Limits: slots, coefficients, directions and the number of equalities.

use crate::instructions::{count_down, load, load_hl, push, push_hl, raise_hl};
use crate::sums::{after_all, are, linear, run};
use affine::{DIRECTIONS, MOST_RELATIONS, Space};
use loop_bounds::{Change, Effect, Part, SlotNumber, Variable};

/// The word at the slot of a number, where 4000 was pushed there and the shape then has `slots` slots.
fn pushed_constant(number: u8, slots: usize) -> Option<Option<i32>> {
    let slot = SlotNumber::new(number)?;
    let pushed = after_all(&[load_hl(0x4000)]).after(&push_hl(slot), slots);
    Some(pushed.constant(Variable::Slot(slot, Part::Word)))
}

#[test]
fn slots_are_tracked_below_12_and_below_the_shape(rt: HostRuntime) {
    assert!(rt; pushed_constant(0, 1) == Some(Some(0x4000)));
    assert!(rt; pushed_constant(11, 12) == Some(Some(0x4000)));
    assert!(rt; pushed_constant(12, 13) == Some(None));
    assert!(rt; pushed_constant(63, 64) == Some(None));
    assert!(rt; pushed_constant(3, 3) == Some(None));
}

/// A is 7, and IX and B have these values.
fn at(ix: u16, b: u16) -> Space {
    let load_ix = Effect {
        ix: Change::Constant(ix),
        ..Effect::unchanged()
    };
    after_all(&[load(Variable::A, 7), load_ix, load(Variable::B, b)])
}

/// Where IX is 0 and B is 0, or IX is `far` and B is 1.
fn along(far: u16) -> Space {
    let mut here = at(0, 0);
    here.join(&at(far, 1));
    here
}

/// A coefficient of an equality is at most 1,000. One of a direction is at most 32,767: a greater direction is not
/// kept, and its variables are forgotten. Then the join with a state in which nothing is known of them changes nothing.
#[test]
fn great_coefficients_are_not_kept(rt: HostRuntime) {
    let wanted = linear(0, &[(1000, Variable::B), (-1, Variable::Ix)]);
    assert!(rt; are(&along(1000).relations(), &[wanted]));
    assert!(rt; are(&along(1001).relations(), &[]));
    let only_a = after_all(&[load(Variable::A, 7)]);
    assert!(rt; along(32_767).join(&only_a));
    let mut forgotten = along(32_768);
    assert!(rt; !forgotten.join(&only_a));
    assert!(rt; forgotten.constant(Variable::A) == Some(7));
}

/// How many equalities are kept after PUSH HL; PUSH DE; PUSH BC: nine copies, and room for the directions of eight.
fn three_pushed() -> Option<usize> {
    let first = Space::full().after(&push_hl(SlotNumber::new(0)?), 1);
    let second = first.after(
        &push(SlotNumber::new(1)?, Variable::De, Variable::D, Variable::E),
        2,
    );
    let third = second.after(
        &push(SlotNumber::new(2)?, Variable::Bc, Variable::B, Variable::C),
        3,
    );
    Some(third.relations().as_slice().len())
}

/// How many are kept where all registers have A's value, and two pushed bytes too: 36 pairs.
fn nine_equal() -> Option<usize> {
    let equal = Effect {
        b: Change::Old(Variable::A),
        c: Change::Old(Variable::A),
        d: Change::Old(Variable::A),
        e: Change::Old(Variable::A),
        h: Change::Old(Variable::A),
        l: Change::Old(Variable::A),
        ..Effect::unchanged()
    };
    let all = Space::full().after(&equal, 0);
    let pushed = all.after(&push_hl(SlotNumber::new(0)?), 1);
    Some(pushed.relations().as_slice().len())
}

#[test]
fn eight_directions_and_24_equalities_are_kept(rt: HostRuntime) {
    assert!(rt; three_pushed() == Some(DIRECTIONS));
    assert!(rt; nine_equal() == Some(MOST_RELATIONS));
}

/// Joins of states that have nothing in common end after few steps: A, B, H, L and HL are forgotten one after another.
#[test]
fn joins_end(rt: HostRuntime) {
    let mut at = after_all(&[load(Variable::A, 0), load(Variable::B, 0), load_hl(0)]);
    let mut grown = 0u16;
    for value in 1..200u16 {
        let more = after_all(&[
            load(Variable::A, value * value % 251),
            load(Variable::B, value * 7 % 256),
            load_hl(value * 300),
        ]);
        if at.join(&run(&more, &[raise_hl(), count_down()])) {
            grown = grown.wrapping_add(1);
        }
    }
    assert!(rt; grown <= 5);
    assert!(rt; are(&at.relations(), &[]));
}
