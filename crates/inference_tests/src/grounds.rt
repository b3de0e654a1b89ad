// What claims after a step follow from.
use crate::setting::{
    Claimed, a_less, bytes, carry_set, ground, l_less_64, of_a, of_l, part, with_a,
};
use derived_parts::PartGround;
use flag_conditions::{one_term, two_terms};
use flag_letters::{FlagPart, Letter};
use intervals::{ByteRange, Pair};
use loop_bounds::{Linear, Variable};
use std::alloc::Global;

/// The ground of a claim after a step is exactly this part and this fact.
fn needs(found: Option<Option<PartGround>>, part: Option<FlagPart>, fact: Option<Linear>) -> bool {
    match found {
        Some(Some(found)) => found == PartGround { part, fact },
        _ => false,
    }
}

/// The ground of a part after an instruction before which A is a copy of L.
fn of_part(
    alloc: Global,
    code: &[u8],
    row: &[FlagPart],
    claim: FlagPart,
) -> Option<Option<PartGround>> {
    let facts = [a_less(Variable::B), a_less(Variable::L)];
    ground(
        alloc,
        code,
        &with_a(0, 255),
        &facts,
        row,
        &Claimed::Part(claim),
    )
}

/// SUB 40h: what C tells of the copy needs the fact. What it tells of A needs nothing. A wrong part has no ground.
#[test]
fn a_new_part(rt: HostRuntime) {
    let found = of_part(rt.alloc(), &[0xD6, 0x40], &[], of_l());
    assert!(rt; needs(found, None, Some(a_less(Variable::L))));
    let of_great_a = part(Letter::CarryIfBelow, one_term(191, -1, Variable::A));
    let found = of_part(rt.alloc(), &[0xD6, 0x40], &[of_l()], of_great_a);
    assert!(rt; needs(found, None, None));
    let wrong = part(Letter::CarryIfBelow, one_term(-65, 1, Variable::L));
    let found = of_part(rt.alloc(), &[0xD6, 0x40], &[of_l()], wrong);
    assert!(rt; found == Some(None));
}

/// LD H,43h: the part of C is that of the row. LD A,1: the part of A goes on as one of L.
#[test]
fn a_carried_part(rt: HostRuntime) {
    let row = [part(Letter::Zero, l_less_64()), of_l()];
    let found = of_part(rt.alloc(), &[0x26, 0x43], &row, of_l());
    assert!(rt; needs(found, Some(of_l()), None));
    let found = of_part(rt.alloc(), &[0x3E, 1], &[of_a()], of_l());
    assert!(rt; needs(found, Some(of_a()), Some(a_less(Variable::L))));
}

/// ADC A,1 with C set makes A 2 more: it needs to be known that C is set.
fn needs_carry(alloc: Global) -> bool {
    let facts = [a_less(Variable::L)];
    let mut state = with_a(0, 10);
    state.pairs.hl = Pair::of_bytes(ByteRange::full(), bytes(0, 10));
    let claim = Claimed::Fact(two_terms(-2, 1, Variable::A, -1, Variable::L));
    let row = [part(Letter::Zero, l_less_64()), carry_set()];
    let found = ground(alloc, &[0xCE, 1], &state, &facts, &row, &claim);
    needs(found, Some(carry_set()), Some(a_less(Variable::L)))
}

/// SUB 10, where A is at least 10. The claim after it, A + 10 - L = 0, needs the fact A - L = 0 before it.
#[test]
fn a_moved_fact(rt: HostRuntime) {
    let facts = [a_less(Variable::B), a_less(Variable::L)];
    let claim = Claimed::Fact(two_terms(10, 1, Variable::A, -1, Variable::L));
    let found = ground(
        rt.alloc(),
        &[0xD6, 10],
        &with_a(10, 255),
        &facts,
        &[of_l()],
        &claim,
    );
    assert!(rt; needs(found, None, Some(a_less(Variable::L))));
    assert!(rt; needs_carry(rt.alloc()));
}
