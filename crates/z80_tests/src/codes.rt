// The text of each of the 698 documented codes, and numbers of each form.
use crate::code_texts::PAGES;
use disassembly::spelled;
use std::alloc::{AllocError, Global};
use std::test::Fail;
use z80_decode::decode;

/// The codes that share a text with another code, to which z80asm assembles the text.
const SHARED: [&str; 2] = ["ED 63 35 8C: LD (8C35h),HL", "ED 6B 35 8C: LD HL,(8C35h)"];

/// Numbers of each form, each instruction at 1000h.
const NUMBERS: &str = "\
    3E FF: LD A,0FFh\n\
    3E 9F: LD A,9Fh\n\
    3E A0: LD A,0A0h\n\
    D6 01: SUB 01h\n\
    C6 01: ADD A,01h\n\
    DD 36 0A 01: LD (IX+0Ah),01h\n\
    DD 77 FE: LD (IX-02h),A\n\
    DD 77 00: LD (IX+00h),A\n\
    FD 36 7F FF: LD (IY+7Fh),0FFh\n\
    FD 36 80 FF: LD (IY-80h),0FFh\n\
    DD CB FF BE: RES 7,(IX-01h)\n\
    21 00 00: LD HL,0000h\n\
    21 FF 9F: LD HL,9FFFh\n\
    01 00 A0: LD BC,0A000h\n\
    01 E0 FF: LD BC,0FFE0h\n\
    3A 01 70: LD A,(7001h)\n\
    ED 7B 00 C0: LD SP,(0C000h)\n\
    18 FE: JR 1000h\n\
    30 7F: JR NC,1081h\n\
    10 80: DJNZ 0F82h\n\
    FF: RST 38h\n";

/// The bytes that pairs of digits spell, and how many there are.
fn bytes_of(digits: &str) -> ([u8; 4], usize) {
    let mut bytes = [0; 4];
    let mut len = 0usize;
    for pair in digits.split(' ') {
        if let Some(byte) = bytes.get_mut(len) {
            *byte = u8::from_str_radix(pair, 16).unwrap_or(0);
        }
        len = len.saturating_add(1);
    }
    (bytes, len)
}

/// The text of the instruction that these digits spell, at an address; `none` where they spell no instruction.
fn text_at(alloc: Global, address: u16, digits: &str) -> Result<String, AllocError> {
    let (bytes, wanted) = bytes_of(digits);
    match decode(&bytes) {
        Ok((instr, len)) if usize::from(len) == wanted => {
            let text = spelled(&instr, address.wrapping_add(u16::from(len)));
            format!(in alloc; "{text}")
        }
        _ => String::from_str(alloc, "none"),
    }
}

/// Whether the bytes of a line have its text at 1000h.
fn is_right(alloc: Global, line: &str) -> Result<bool, AllocError> {
    match line.split_once(": ") {
        Some((digits, text)) => Ok(text_at(alloc, 0x1000, digits)?.as_str() == text),
        None => Ok(false),
    }
}

/// Each line of the tables. Their bytes rise, so that no code comes twice.
#[test]
fn texts(rt: HostRuntime) -> Result<(), Fail> {
    let mut count = 0u16;
    for page in PAGES {
        let mut before: &[u8] = b"";
        for line in page.lines() {
            assert!(rt;
                is_right(rt.alloc(), line)? && before < line.as_bytes(),
                "{line}"
            );
            before = line.as_bytes();
            count = count.wrapping_add(1);
        }
    }
    assert!(rt; count == 698 - 2);
    Ok(())
}

#[test]
fn numbers(rt: HostRuntime) -> Result<(), Fail> {
    for line in NUMBERS.lines() {
        assert!(rt; is_right(rt.alloc(), line)?, "{line}");
    }
    for line in SHARED {
        assert!(rt; is_right(rt.alloc(), line)?, "{line}");
    }
    // The target wraps around.
    assert!(rt; text_at(rt.alloc(), 0xFFFD, "18 02")?.as_str() == "JR 0001h");
    assert!(rt; text_at(rt.alloc(), 0x0000, "18 FD")?.as_str() == "JR 0FFFFh");
    Ok(())
}
