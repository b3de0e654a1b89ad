// The decoder against UM0080. Each table was written from the manual's list of codes, not from the code. What a code
// decodes to is seen in its text (codes.rt).
use crate::pages::with_code;
use z80_decode::{DecodeFault, decode, one_spelling};

/// The length of the instruction for each first byte, followed by zeros; sixteen codes a line. '-' is undocumented.
const UNPREFIXED: &[u8; 256] = b"\
    1311112111111121\
    2311112121111121\
    2331112121311121\
    2331112121311121\
    1111111111111111\
    1111111111111111\
    1111111111111111\
    1111111111111111\
    1111111111111111\
    1111111111111111\
    1111111111111111\
    1111111111111111\
    1133312111323321\
    1132312111323-21\
    1131312111313-21\
    1131312111313-21";

/// The same for each second byte after CB.
const BEHIND_CB: &[u8; 256] = b"\
    2222222222222222\
    2222222222222222\
    2222222222222222\
    --------22222222\
    2222222222222222\
    2222222222222222\
    2222222222222222\
    2222222222222222\
    2222222222222222\
    2222222222222222\
    2222222222222222\
    2222222222222222\
    2222222222222222\
    2222222222222222\
    2222222222222222\
    2222222222222222";

/// The same after ED.
const BEHIND_ED: &[u8; 256] = b"\
    ----------------\
    ----------------\
    ----------------\
    ----------------\
    222422222224-2-2\
    2224--222224--22\
    2224---22224---2\
    --24----2224----\
    ----------------\
    ----------------\
    2222----2222----\
    2222----2222----\
    ----------------\
    ----------------\
    ----------------\
    ----------------";

/// The same after DD and after FD.
const BEHIND_INDEX: &[u8; 256] = b"\
    ---------2------\
    ---------2------\
    -442-----242----\
    ----334--2------\
    ------3-------3-\
    ------3-------3-\
    ------3-------3-\
    333333-3------3-\
    ------3-------3-\
    ------3-------3-\
    ------3-------3-\
    ------3-------3-\
    ----------------\
    ----------------\
    -2-2-2---2------\
    ---------2------";

/// The same for each last byte of DD CB 05 and FD CB 05.
const BEHIND_INDEX_CB: &[u8; 256] = b"\
    ------4-------4-\
    ------4-------4-\
    ------4-------4-\
    --------------4-\
    ------4-------4-\
    ------4-------4-\
    ------4-------4-\
    ------4-------4-\
    ------4-------4-\
    ------4-------4-\
    ------4-------4-\
    ------4-------4-\
    ------4-------4-\
    ------4-------4-\
    ------4-------4-\
    ------4-------4-";

/// The length as a digit, '-' for Undocumented, or 't' for Truncated.
fn mark_of(bytes: &[u8]) -> u8 {
    match decode(bytes) {
        Ok((_, length)) => b'0' + length,
        Err(DecodeFault::Undocumented) => b'-',
        Err(DecodeFault::Truncated) => b't',
    }
}

/// The name of a page, its bytes, the index of the varying byte, and the marks of all codes.
const PAGES: &[(&str, [u8; 4], usize, &[u8; 256])] = &[
    ("", [0, 0, 0, 0], 0, UNPREFIXED),
    ("CB", [0xCB, 0, 0, 0], 1, BEHIND_CB),
    ("ED", [0xED, 0, 0, 0], 1, BEHIND_ED),
    ("DD", [0xDD, 0, 0, 0], 1, BEHIND_INDEX),
    ("FD", [0xFD, 0, 0, 0], 1, BEHIND_INDEX),
    ("DD CB 05", [0xDD, 0xCB, 5, 0], 3, BEHIND_INDEX_CB),
    ("FD CB 05", [0xFD, 0xCB, 5, 0], 3, BEHIND_INDEX_CB),
];

/// There are 698 documented codes. CB 00 is in two tables.
#[test]
fn decodes_every_code(rt: HostRuntime) {
    let mut documented = 0u16;
    for &(name, page, place, marks) in PAGES {
        for code in 0..=255u8 {
            let mark = mark_of(&with_code(page, place, code));
            assert!(rt; mark == marks[usize::from(code)], "{name} {code:02X}");
            if mark != b'-' {
                documented = documented.wrapping_add(1);
            }
        }
    }
    assert!(rt; documented == 698 + 1);
}

#[test]
fn tells_truncated_from_undocumented(rt: HostRuntime) {
    let rows: &[(&[u8], u8)] = &[
        (&[], b't'),
        (&[0xCB], b't'),
        (&[0xDD], b't'),
        (&[0xDD, 0xCB, 0x05], b't'),
        (&[0xED, 0x63, 0x00], b't'),
        (&[0xC3, 0x00], b't'),
        (&[0xDD, 0x00], b'-'),
        (&[0xDD, 0xDD, 0x21], b'-'),
        (&[0xDD, 0xCB, 0x05, 0x36], b'-'),
        (&[0xED, 0x70], b'-'),
        (&[0xCB, 0x37], b'-'),
        (&[0xED, 0x63, 0x00, 0x40, 0xDD], b'4'),
    ];
    for &(bytes, mark) in rows {
        assert!(rt; mark_of(bytes) == mark, "{bytes:?}");
    }
    one_spelling();
}
