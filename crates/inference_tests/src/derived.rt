// The parts after a step.
use crate::setting::{
    a_less, any_state, bytes, carry_set, derives, derives_only, l_less_64, of_a, of_l, part, with_a,
};
use flag_conditions::{no_terms, one_term};
use flag_letters::{FlagPart, Letter};
use intervals::{ByteRange, Pair};
use loop_bounds::{Linear, Part, SlotNumber, Variable};
use std::alloc::Global;

/// Z is set exactly if A is 0.
fn zero_a() -> FlagPart {
    part(Letter::Zero, one_term(0, 1, Variable::A))
}

/// C is set exactly if A is above 191.
fn of_great_a() -> FlagPart {
    part(Letter::CarryIfBelow, one_term(191, -1, Variable::A))
}

/// Whether these are among the parts after an instruction before which A is a copy.
fn of_copy(alloc: Global, code: &[u8], copy: Variable, wanted: &[FlagPart]) -> bool {
    derives(alloc, code, &with_a(0, 255), &[a_less(copy)], &[], wanted)
}

/// A is a copy before an operation. SUB 40h: C is set exactly if L was below 40h, and exactly if the difference is
/// above BFh. OR C where A is a copy of B: Z is set exactly if BC is 0, and exactly if A is. CP 8 and OR A leave A
/// alone, so Z tells of C.
#[test]
fn an_operation_tells_of_a_copy(rt: HostRuntime) {
    let of_sub = [
        of_l(),
        of_great_a(),
        zero_a(),
        part(Letter::Zero, l_less_64()),
    ];
    assert!(rt; of_copy(rt.alloc(), &[0xD6, 0x40], Variable::L, &of_sub));
    let of_or = [zero_a(), part(Letter::Zero, one_term(0, 1, Variable::Bc))];
    assert!(rt; of_copy(rt.alloc(), &[0xB1, 0], Variable::B, &of_or));
    let of_cp = [
        part(Letter::Zero, one_term(-8, 1, Variable::A)),
        part(Letter::Zero, one_term(-8, 1, Variable::C)),
    ];
    assert!(rt; of_copy(rt.alloc(), &[0xFE, 8], Variable::C, &of_cp));
    let of_or_a = [zero_a(), part(Letter::Zero, one_term(0, 1, Variable::C))];
    assert!(rt; of_copy(rt.alloc(), &[0xB7, 0], Variable::C, &of_or_a));
}

/// Whether exactly these are the parts after an instruction.
fn tells(
    alloc: Global,
    code: &[u8],
    facts: &[Linear],
    row: &[FlagPart],
    wanted: &[FlagPart],
) -> bool {
    derives_only(alloc, code, &with_a(0, 255), facts, row, wanted)
}

/// LD L,A leaves the flags alone, and C then tells of both. JR leaves all alone. CPL leaves C alone and makes A 255 -
/// A: A was below 64 exactly if 191 - A is below 0 now.
#[test]
fn parts_go_on(rt: HostRuntime) {
    assert!(rt; tells(rt.alloc(), &[0x6F, 0], &[], &[of_a()], &[of_a(), of_l()]));
    let row = [zero_a(), of_l()];
    assert!(rt; tells(rt.alloc(), &[0x18, 0, 0], &[], &row, &row));
    assert!(rt; tells(rt.alloc(), &[0x2F, 0], &[], &[of_a()], &[of_great_a()]));
}

/// BIT 7,A tells of the sign, and SCF that C is set.
#[test]
fn an_instruction_tells_of_a_flag(rt: HostRuntime) {
    let sign = part(Letter::ZeroIfBelow, one_term(-128, 1, Variable::A));
    assert!(rt; tells(rt.alloc(), &[0xCB, 0x7F], &[], &[], &[sign]));
    assert!(rt; tells(rt.alloc(), &[0x37, 0], &[], &[], &[carry_set()]));
}

/// A is a copy of L. LD A,1 takes A away, and what the fact says of it is left. LD L,A without parts tells nothing.
#[test]
fn a_fact_stands_for_what_is_gone(rt: HostRuntime) {
    let facts = [a_less(Variable::L)];
    assert!(rt; tells(rt.alloc(), &[0x3E, 1], &facts, &[of_a()], &[of_l()]));
    assert!(rt; tells(rt.alloc(), &[0x6F, 0], &facts, &[], &[]));
}

/// POP HL: the part follows the word into HL, and no part names the slot, which is gone.
fn follows_a_pop(alloc: Global) -> bool {
    let Some(number) = SlotNumber::new(0) else {
        return false;
    };
    let mut state = any_state();
    let _fits = state.push(Pair::full());
    let low = Variable::Slot(number, Part::Low);
    let row = [part(Letter::CarryIfBelow, one_term(-64, 1, low))];
    derives_only(alloc, &[0xE1, 0], &state, &[], &row, &[of_l()])
}

/// INC L with L from 0 to 10 leaves C alone: L was below 64 exactly if it is below 65 now. ADD A,A with A 1: C is set
/// exactly if 253 is below 0. It is clear, and the part says so.
#[test]
fn parts_follow_their_values(rt: HostRuntime) {
    let mut state = any_state();
    state.pairs.hl = Pair::of_bytes(ByteRange::full(), bytes(0, 10));
    let raised = [part(Letter::CarryIfBelow, one_term(-65, 1, Variable::L))];
    assert!(rt; derives(rt.alloc(), &[0x2C, 0], &state, &[], &[of_l()], &raised));
    assert!(rt; follows_a_pop(rt.alloc()));
    let clear = [part(Letter::CarryIfBelow, no_terms(253))];
    assert!(rt; derives(rt.alloc(), &[0x87, 0], &with_a(1, 1), &[], &[], &clear));
}
