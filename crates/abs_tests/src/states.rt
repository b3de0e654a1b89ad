// States on their own: entries, the state after a call, covering, joins and tightening.
use crate::claims::are_same;
use crate::reading::{columns_of, linear_of, state_of, with};
use abs_state::AbsState;

/// A caller's state at a call: DE is 2000, B is 00 to 08 with a flag fact, and a word is on the stack.
const CALLER: &str = "mode:n armed:3 DE:2000 B:00-08 fact:zB shape:*";

/// Whether these words hold of a state.
fn is(state: &AbsState, text: &str) -> bool {
    match with(state, text) {
        Some(wanted) => are_same(&wanted, state),
        None => false,
    }
}

/// The callee has its own DE and HL'. It leaves the old DE in HL, 00 to 03 in D, and 07 in A.
fn gives_back() -> bool {
    let Some(caller) = state_of(CALLER) else {
        return false;
    };
    let begun = "mode:n armed:3 fact:- shape:- DE:2000-2000:20-20:00-00@DE HL':*@HL'";
    let left = "armed:4 HL:2000-2000:20-20:00-00@DE D:00-03 A:07";
    let after = "armed:4 HL:2000 D:00-03 B:00-08 A:07 fact:- shape:*";
    let callee = caller.callee();
    match with(&callee, left) {
        Some(exit) => is(&callee, begun) && is(&caller.after_call(&exit), after),
        None => false,
    }
}

/// The NMI routine begins in mode `n` with each pair its own origin; main begins in mode `u` with nothing known.
fn begin() -> bool {
    is(&AbsState::of_main(), "mode:u armed:0 AF:*")
        && is(&AbsState::of_nmi(2), "mode:n armed:2 shape:- IY:*@IY")
}

/// 2 * B - C - 3 = 0 with B and C from 0 to 10: B is 3 / 2 to 13 / 2, inwards 2 to 6, and then C 1 to 9.
fn is_tightened() -> bool {
    let state = state_of("BC:0000-0A0A:00-0A:00-0A");
    let (Some(mut state), Some(fact)) = (state, linear_of(b"-3+2*B-1*C")) else {
        return false;
    };
    state.tighten(&fact) && is(&state, "BC:0201-0609:02-06:01-09")
}

#[test]
fn states_begin_return_and_are_cut(rt: HostRuntime) {
    assert!(rt; begin(), "entries");
    assert!(rt; gives_back(), "a call");
    assert!(rt; is_tightened(), "a fact");
}

/// What another state has otherwise than the caller's, and whether the caller's covers it.
const COVERED: &str = "\
mode:s                      | yes
armed:4                     | yes
mode:u                      | no
armed:2                     | no
fact:-                      | no
fact:c00                    | no
shape:-                     | no
shape:0001-0002:00-00:01-02 | yes
";

fn is_covered(row: &str) -> bool {
    let columns = columns_of(row);
    let ([other, wanted], Some(caller)) = (columns.as_slice(), state_of(CALLER)) else {
        return false;
    };
    match (with(&caller, other), *wanted) {
        (Some(other), "yes") => caller.covers(&other),
        (Some(other), "no") => !caller.covers(&other),
        _ => false,
    }
}

/// What another state has otherwise than the caller's, and what the join has otherwise.
const JOINED: &str = "\
mode:s armed:1 fact:- shape:0001-0002:00-00:01-02 DE:2100 | armed:1 fact:- shape:* DE:2000-2100:20-21:00-00
mode:u                                                    | none
shape:-                                                   | none
";

fn is_joined(row: &str) -> bool {
    let columns = columns_of(row);
    let ([other, wanted], Some(caller)) = (columns.as_slice(), state_of(CALLER)) else {
        return false;
    };
    let Some(other) = with(&caller, other) else {
        return false;
    };
    match (caller.join(&other), with(&caller, wanted)) {
        (Some(both), Some(wanted)) => are_same(&both, &wanted),
        (None, _) => *wanted == "none",
        _ => false,
    }
}

#[test]
fn states_are_covered_and_joined(rt: HostRuntime) {
    for row in COVERED.lines() {
        assert!(rt; is_covered(row), "{row}");
    }
    for row in JOINED.lines() {
        assert!(rt; is_joined(row), "{row}");
    }
}
