// T-states and ports against UM0080. Each table was written from the manual's T-states, not from the code.
use crate::pages::with_code;
use t_states::{FRAME, IDLE_COST, MAX_BUDGET, NMI_COST, cost, cost_range, fixed_numbers, is_io};
use z80_decode::decode;

/// The T-states for each first byte, followed by zeros, not taken; sixteen codes a line. A digit is itself, A to N are
/// 10 to 23, and '-' is undocumented.
const UNPREFIXED: &[u8; 256] = b"\
    4A7644744B764474\
    8A764474CB764474\
    7AG644747BG64474\
    7AD6BBA47BD64474\
    4444447444444474\
    4444447444444474\
    4444447444444474\
    7777774744444474\
    4444447444444474\
    4444447444444474\
    4444447444444474\
    4444447444444474\
    5AAAAB7B5AA8AH7B\
    5AABAB7B54ABA-7B\
    5AAJAB7B54A4A-7B\
    5AA4AB7B56A4A-7B";

/// The same after CB.
const BEHIND_CB: &[u8; 256] = b"\
    888888F8888888F8\
    888888F8888888F8\
    888888F8888888F8\
    --------888888F8\
    888888C8888888C8\
    888888C8888888C8\
    888888C8888888C8\
    888888C8888888C8\
    888888F8888888F8\
    888888F8888888F8\
    888888F8888888F8\
    888888F8888888F8\
    888888F8888888F8\
    888888F8888888F8\
    888888F8888888F8\
    888888F8888888F8";

/// The same after ED.
const BEHIND_ED: &[u8; 256] = b"\
    ----------------\
    ----------------\
    ----------------\
    ----------------\
    CCFK8E89CCFK-E-9\
    CCFK--89CCFK--89\
    CCFK---ICCFK---I\
    --FK----CCFK----\
    ----------------\
    ----------------\
    GGGG----GGGG----\
    GGGG----GGGG----\
    ----------------\
    ----------------\
    ----------------\
    ----------------";

/// The same after DD and after FD.
const BEHIND_INDEX: &[u8; 256] = b"\
    ---------F------\
    ---------F------\
    -EKA-----FKA----\
    ----NNJ--F------\
    ------J-------J-\
    ------J-------J-\
    ------J-------J-\
    JJJJJJ-J------J-\
    ------J-------J-\
    ------J-------J-\
    ------J-------J-\
    ------J-------J-\
    ----------------\
    ----------------\
    -E-N-F---8------\
    ---------A------";

/// The same for each last byte of DD CB 05 and FD CB 05.
const BEHIND_INDEX_CB: &[u8; 256] = b"\
    ------N-------N-\
    ------N-------N-\
    ------N-------N-\
    --------------N-\
    ------K-------K-\
    ------K-------K-\
    ------K-------K-\
    ------K-------K-\
    ------N-------N-\
    ------N-------N-\
    ------N-------N-\
    ------N-------N-\
    ------N-------N-\
    ------N-------N-\
    ------N-------N-\
    ------N-------N-";

/// The T-states for each first byte, taken; '.' where that makes no difference.
const UNPREFIXED_TAKEN: &[u8; 256] = b"\
    ................\
    D...............\
    C.......C.......\
    C.......C.......\
    ................\
    ................\
    ................\
    ................\
    ................\
    ................\
    ................\
    ................\
    B...H...B...H...\
    B...H...B...H...\
    B...H...B...H...\
    B...H...B...H...";

/// The T-states after ED of a block instruction that repeats; '.' where there is one cost.
const BEHIND_ED_TAKEN: &[u8; 256] = b"\
    ................\
    ................\
    ................\
    ................\
    ................\
    ................\
    ................\
    ................\
    ................\
    ................\
    ................\
    LLLL....LLLL....\
    ................\
    ................\
    ................\
    ................";

/// The I/O group after ED.
const PORTS_BEHIND_ED: &[u8; 256] = b"\
    ................\
    ................\
    ................\
    ................\
    ##......##......\
    ##......##......\
    ##......##......\
    ........##......\
    ................\
    ................\
    ..##......##....\
    ..##......##....\
    ................\
    ................\
    ................\
    ................";

/// The digits of the tables, indexed by T-states.
const DIGITS: &[u8; 24] = b"0123456789ABCDEFGHIJKLMN";

/// The T-states as a digit or a letter, or '-' for no instruction.
fn mark_of(bytes: &[u8], taken: bool) -> u8 {
    let Ok((instr, _)) = decode(bytes) else {
        return b'-';
    };
    let states = cost(&instr, taken);
    DIGITS[usize::from(states)]
}

/// The entry of a table of taken costs, or the first cost for '.'.
fn or_same(taken: u8, first: u8) -> u8 {
    if taken == b'.' { first } else { taken }
}

fn uses_port(bytes: &[u8]) -> bool {
    match decode(bytes) {
        Ok((instr, _)) => is_io(&instr),
        Err(_) => false,
    }
}

/// The name of a page, its bytes, the index of the varying byte, the T-states not taken, and those taken.
const PAGES: &[(&str, [u8; 4], usize, &[u8; 256], &[u8; 256])] = &[
    ("", [0, 0, 0, 0], 0, UNPREFIXED, UNPREFIXED_TAKEN),
    ("CB", [0xCB, 0, 0, 0], 1, BEHIND_CB, BEHIND_CB),
    ("ED", [0xED, 0, 0, 0], 1, BEHIND_ED, BEHIND_ED_TAKEN),
    ("DD", [0xDD, 0, 0, 0], 1, BEHIND_INDEX, BEHIND_INDEX),
    ("FD", [0xFD, 0, 0, 0], 1, BEHIND_INDEX, BEHIND_INDEX),
    (
        "DD CB 05",
        [0xDD, 0xCB, 5, 0],
        3,
        BEHIND_INDEX_CB,
        BEHIND_INDEX_CB,
    ),
    (
        "FD CB 05",
        [0xFD, 0xCB, 5, 0],
        3,
        BEHIND_INDEX_CB,
        BEHIND_INDEX_CB,
    ),
];

#[test]
fn costs_every_code(rt: HostRuntime) {
    for &(name, page, place, marks, taken_marks) in PAGES {
        for code in 0..=255u8 {
            let bytes = with_code(page, place, code);
            let first = marks[usize::from(code)];
            let taken = or_same(taken_marks[usize::from(code)], first);
            assert!(rt;
                mark_of(&bytes, false) == first && mark_of(&bytes, true) == taken,
                "{name} {code:02X}"
            );
        }
    }
}

#[test]
fn tells_ports(rt: HostRuntime) {
    for code in 0..=255u8 {
        let behind_ed = PORTS_BEHIND_ED[usize::from(code)] == b'#';
        assert!(rt;
            uses_port(&[code, 0, 0, 0]) == (code == 0xD3 || code == 0xDB)
                && uses_port(&[0xED, code, 0, 0]) == behind_ed
                && !uses_port(&[0xCB, code, 0, 0])
                && !uses_port(&[0xDD, code, 0, 0]),
            "{code:02X}"
        );
    }
}

/// The T-states of an acceptance and of an idle turn, and the frame of 264 lines of 192.
#[test]
fn frame_has_its_numbers(rt: HostRuntime) {
    assert!(rt; NMI_COST == 11 && IDLE_COST == 4);
    assert!(rt; FRAME == 50_688 && MAX_BUDGET == 50_665);
    fixed_numbers();
    cost_range();
}
