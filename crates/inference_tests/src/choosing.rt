// Common parts, and parts that are worth more than others.
use crate::setting::{any_state, bytes, carry_set, of_l, part, parts, with_a};
use abs_state::AbsState;
use derived_parts::{carry_part, common_parts, narrowing_part};
use flag_conditions::one_term;
use flag_letters::{FlagPart, FlagParts, Letter};
use intervals::{ByteRange, Pair};
use loop_bounds::Variable;
use z80_decode::Condition;

fn of_a() -> FlagPart {
    part(Letter::Zero, one_term(0, 1, Variable::A))
}

/// B is below 32 exactly if C is set.
fn of_b() -> FlagPart {
    part(Letter::CarryIfBelow, one_term(-32, 1, Variable::B))
}

/// Common parts are in order. A constant makes the carry known.
#[test]
fn parts_in_common(rt: HostRuntime) {
    let one = parts(&[of_b(), of_l(), of_a()]);
    let other = parts(&[of_a(), of_b()]);
    assert!(rt; common_parts(&one, &other) == parts(&[of_b(), of_a()]));
    assert!(rt; common_parts(&one, &FlagParts::empty()).is_empty());
    let row = parts(&[of_a(), of_l(), carry_set()]);
    assert!(rt; carry_part(&row, &any_state()) == Some(carry_set()));
    assert!(rt; carry_part(&parts(&[of_a(), of_l()]), &any_state()) == None);
}

/// B is below 32.
fn with_small_b() -> AbsState {
    let mut state = with_a(0, 255);
    state.pairs.bc = Pair::of_bytes(bytes(0, 31), ByteRange::full());
    state
}

/// The row has three flag parts. The part `of_a` tells Z, so it says nothing where C is tested. The part `of_l` narrows
/// the range of L. Where B is below 32, the part `of_b` leaves nothing if C is clear. A known part is not chosen.
#[test]
fn what_leaves_nothing_is_preferred(rt: HostRuntime) {
    let row = parts(&[of_a(), of_l(), of_b()]);
    let known = FlagParts::empty();
    let found = narrowing_part(&row, &known, Condition::Carry, &with_small_b());
    assert!(rt; found == Some(of_b()));
    let found = narrowing_part(&row, &known, Condition::NotCarry, &any_state());
    assert!(rt; found == Some(of_l()));
    let row = parts(&[of_a(), of_l()]);
    let known = parts(&[of_l()]);
    assert!(rt; narrowing_part(&row, &known, Condition::Carry, &any_state()) == None);
    assert!(rt; narrowing_part(&row, &known, Condition::Zero, &any_state()) == Some(of_a()));
}
