// The parts of a text, between which a label may stand.

use disassembly::{Reference, defined_bytes, reference_of, shares_text, spelled};
use std::test::Fail;
use z80_decode::decode;

/// Bytes of an instruction at 1000h, the text before its number, the number, and the text after it.
type Parted = (&'static [u8], &'static str, Option<Reference>, &'static str);

const PARTS: &[Parted] = &[
    (
        &[0xC3, 0x34, 0x12],
        "JP ",
        Some(Reference::Target(0x1234)),
        "",
    ),
    (
        &[0xFA, 0x34, 0x12],
        "JP M,",
        Some(Reference::Target(0x1234)),
        "",
    ),
    (
        &[0xCD, 0x34, 0x12],
        "CALL ",
        Some(Reference::Target(0x1234)),
        "",
    ),
    (
        &[0xC4, 0x34, 0x12],
        "CALL NZ,",
        Some(Reference::Target(0x1234)),
        "",
    ),
    (&[0x18, 0x05], "JR ", Some(Reference::Target(0x1007)), ""),
    (&[0x38, 0xFE], "JR C,", Some(Reference::Target(0x1000)), ""),
    (&[0x10, 0xFE], "DJNZ ", Some(Reference::Target(0x1000)), ""),
    (&[0xEF], "RST ", Some(Reference::Restart(0x28)), ""),
    (
        &[0x3A, 0x34, 0x12],
        "LD A,(",
        Some(Reference::Memory(0x1234)),
        ")",
    ),
    (
        &[0x32, 0x34, 0x12],
        "LD (",
        Some(Reference::Memory(0x1234)),
        "),A",
    ),
    (
        &[0x22, 0x34, 0x12],
        "LD (",
        Some(Reference::Memory(0x1234)),
        "),HL",
    ),
    (
        &[0xED, 0x4B, 0x34, 0x12],
        "LD BC,(",
        Some(Reference::Memory(0x1234)),
        ")",
    ),
    (
        &[0xFD, 0x21, 0x34, 0x12],
        "LD IY,",
        Some(Reference::Constant(0x1234)),
        "",
    ),
    // A computed jump, a port and a byte are no references.
    (&[0xE9], "JP (HL)", None, ""),
    (&[0xD3, 0x12], "OUT (12h),A", None, ""),
    (&[0x3E, 0x12], "LD A,12h", None, ""),
    (&[0x0A], "LD A,(BC)", None, ""),
    (&[0x02], "LD (BC),A", None, ""),
];

#[test]
fn parts(rt: HostRuntime) -> Result<(), Fail> {
    for (bytes, before, number, after) in PARTS {
        let (instr, len) = decode(bytes)?;
        let behind = 0x1000u16.wrapping_add(u16::from(len));
        let text = spelled(&instr, behind);
        assert!(rt;
            text.before() == *before && text.after() == *after,
            "{before}"
        );
        assert!(rt; text.reference() == *number && reference_of(&instr, behind) == *number);
    }
    Ok(())
}

#[test]
fn addresses(rt: HostRuntime) {
    assert!(rt; Reference::Target(0x1234).address() == 0x1234);
    assert!(rt; Reference::Restart(0x28).address() == 0x28);
    assert!(rt; Reference::Memory(0x4000).address() == 0x4000);
    assert!(rt; Reference::Constant(0xFFE0).address() == 0xFFE0);
}

/// Bytes as a directive, and whether the instruction that they are shares its text with another code.
const DIRECTIVES: &[(&[u8], &str, bool)] = &[
    (&[0xED, 0x63, 0x10, 0x40], "DEFB 0EDh,63h,10h,40h", true),
    (&[0xED, 0x6B, 0xFF, 0xA0], "DEFB 0EDh,6Bh,0FFh,0A0h", true),
    (&[0x22, 0x10, 0x40], "DEFB 22h,10h,40h", false),
    (&[0x2A, 0x10, 0x40], "DEFB 2Ah,10h,40h", false),
    (&[0xED, 0x43, 0x10, 0x40], "DEFB 0EDh,43h,10h,40h", false),
    (&[0xDD, 0x22, 0x10, 0x40], "DEFB 0DDh,22h,10h,40h", false),
    (&[0x00], "DEFB 00h", false),
];

#[test]
fn directives(rt: HostRuntime) -> Result<(), Fail> {
    for (bytes, expected, is_shared) in DIRECTIVES {
        let (instr, _) = decode(bytes)?;
        let text = format!(in rt.alloc(); "{}", defined_bytes(bytes))?;
        assert!(rt; text.as_str() == *expected, "{text}");
        assert!(rt; shares_text(&instr) == *is_shared, "{text}");
    }
    Ok(())
}
