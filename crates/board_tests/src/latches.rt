// What writes of the NMI enable do to the flip-flop, and what a reset and an acceptance do to IFF1 and IFF2; worked by
// hand from docs/BOARD.md, "Phase and flip-flop" and "Reset".

use crate::machine::{WIDE, environment, filled, stepped};
use board_step::{Board, Env, Kind, Reset};
use std::test::Fail;
use z80_alu::{RegisterSet, Regs};

/// A program, the number of its events up to the one that ends at the blank, their T-states, the latch bit, and the
/// kind of the next event.
type Latch = (&'static [u8], u32, u32, bool, Kind);

#[rattlefmt::skip]
const LATCHES: &[Latch] = &[
    // LD A,1; LD (7001),A: the enable is set in the very event that ends at the blank.
    (&[0x3E, 0x01, 0x32, 0x01, 0x70], 2, 20, true, Kind::Accept),
    (&[0x3E, 0x01, 0x32, 0x01, 0x70], 2, 20, false, Kind::Instr),
    // LD A,3 or 2; LD (7001),A; NOP: only bit 0 counts.
    (&[0x3E, 0x03, 0x32, 0x01, 0x70, 0x00], 3, 24, false, Kind::Accept),
    (&[0x3E, 0x02, 0x32, 0x01, 0x70, 0x00], 3, 24, true, Kind::Instr),
    // LD A,1; LD (nn),A; NOP: the enable's mirrors, and addresses that are not the enable.
    (&[0x3E, 0x01, 0x32, 0x09, 0x70, 0x00], 3, 24, false, Kind::Accept),
    (&[0x3E, 0x01, 0x32, 0xF9, 0x77, 0x00], 3, 24, false, Kind::Accept),
    (&[0x3E, 0x01, 0x32, 0x00, 0x70, 0x00], 3, 24, true, Kind::Instr),
    (&[0x3E, 0x01, 0x32, 0x02, 0x70, 0x00], 3, 24, true, Kind::Instr),
    (&[0x3E, 0x01, 0x32, 0x01, 0x68, 0x00], 3, 24, true, Kind::Instr),
    (&[0x3E, 0x01, 0x32, 0x01, 0x78, 0x00], 3, 24, true, Kind::Instr),
    // LD HL,0100 or 0001; LD (7000),HL; NOP: the second byte of a word enables, the first does not.
    (&[0x21, 0x00, 0x01, 0x22, 0x00, 0x70, 0x00], 3, 30, false, Kind::Accept),
    (&[0x21, 0x01, 0x00, 0x22, 0x00, 0x70, 0x00], 3, 30, true, Kind::Instr),
    // LD SP,7002; LD BC,0300 or 0003; PUSH BC; NOP: the high byte goes to 7001.
    (&[0x31, 0x02, 0x70, 0x01, 0x00, 0x03, 0xC5, 0x00], 4, 35, false, Kind::Accept),
    (&[0x31, 0x02, 0x70, 0x01, 0x03, 0x00, 0xC5, 0x00], 4, 35, true, Kind::Instr),
    // LD A,1; LD (7001),A; XOR A; LD (7001),A; NOP: the enable is clear when the blank comes.
    (&[0x3E, 0x01, 0x32, 0x01, 0x70, 0xAF, 0x32, 0x01, 0x70, 0x00], 5, 41, true, Kind::Instr),
];

fn with_latch(latch: bool) -> Env {
    Env {
        latch,
        ..environment()
    }
}

/// The kind of the next event after those of a row; None if their T-states differ.
fn kind_after((rom, events, t, latch, _): Latch) -> Option<Kind> {
    let mut board = filled(0, 50_688u32.saturating_sub(t) % 50_688);
    let time = stepped(&mut board, rom, WIDE, events, &with_latch(latch)).ok()?;
    if time == t && board.phase() == 0 {
        Some(board.kind())
    } else {
        None
    }
}

#[test]
fn latches_by_the_table(rt: HostRuntime) {
    for row in LATCHES {
        assert!(rt; kind_after(*row) == Some(row.4), "{:?}", row.0);
    }
}

/// EI or DI; LD SP,4400; LD A,1; LD (7001),A; JR to itself; and at 0066 a routine of at most 12 bytes.
fn with_routine(first: u8, routine: &[u8]) -> [u8; 0x72] {
    let mut rom = [0; 0x72];
    let main = [
        first, 0x31, 0x00, 0x44, 0x3E, 0x01, 0x32, 0x01, 0x70, 0x18, 0xFE,
    ];
    for (place, byte) in rom.iter_mut().zip(main) {
        *place = byte;
    }
    for (place, byte) in rom.iter_mut().skip(0x66).zip(routine) {
        *place = *byte;
    }
    rom
}

/// IFF1 and IFF2 after the acceptance and one instruction of the routine.
fn iff_after(first: u8, routine: &[u8]) -> Option<(bool, bool)> {
    // 4 + 10 + 7 + 13 = 34 T-states, and the JR of 12 ends at the blank.
    let mut board = filled(0, 50_688 - 46);
    let rom = with_routine(first, routine);
    stepped(&mut board, &rom, WIDE, 7, &environment()).ok()?;
    Some((board.regs().iff1, board.regs().iff2))
}

#[test]
fn an_acceptance_clears_iff1_alone(rt: HostRuntime) {
    let (ei, di) = (0xFB, 0xF3);
    // NOP, LD A,I, RETI, RETN, EI, DI
    assert!(rt; iff_after(ei, &[0x00]) == Some((false, true)));
    assert!(rt; iff_after(ei, &[0xED, 0x57]) == Some((false, true)));
    assert!(rt; iff_after(ei, &[0xED, 0x4D]) == Some((false, true)));
    assert!(rt; iff_after(ei, &[0xED, 0x45]) == Some((true, true)));
    assert!(rt; iff_after(di, &[0xFB]) == Some((true, true)));
    assert!(rt; iff_after(ei, &[0xF3]) == Some((false, false)));
    assert!(rt; iff_after(di, &[0xED, 0x45]) == Some((false, false)));
}

/// The routine clears the enable and sets it again: XOR A; LD (7001),A; INC A; LD (7001),A; JR to itself. That clears
/// the line, so the next blank latches an NMI again. That acceptance finds IFF1 clear and IFF2 set, and keeps IFF2.
#[test]
fn a_cleared_line_latches_again(rt: HostRuntime) -> Result<(), Fail> {
    let routine = [0xAF, 0x32, 0x01, 0x70, 0x3C, 0x32, 0x01, 0x70, 0x18, 0xFE];
    let rom = with_routine(0xFB, &routine);
    let mut board = filled(0, 50_688 - 46);
    let mut acceptances = 0u32;
    for _ in 0..4_300 {
        if board.kind() == Kind::Accept {
            acceptances = acceptances.saturating_add(1);
        }
        stepped(&mut board, &rom, WIDE, 1, &environment())?;
    }
    assert!(rt; acceptances == 2);
    assert!(rt; !board.regs().iff1 && board.regs().iff2);
    Ok(())
}

/// A reset clears PC, I, R, IFF1 and IFF2, whatever is given, and keeps the rest.
#[test]
fn a_reset_clears_what_it_must(rt: HostRuntime) {
    let main = RegisterSet {
        a: 0x11,
        l: 0x22,
        ..RegisterSet::default()
    };
    let regs = Regs {
        main,
        sp: 0x4321,
        ..Regs::default()
    };
    let board = Board::reset(&Reset {
        work: [0x33; 0x400],
        video: [0x44; 0x400],
        object: [0x55; 0x100],
        regs: Regs {
            pc: 0x1234,
            i: 0x5A,
            r: 0x77,
            iff1: true,
            iff2: true,
            ..regs
        },
        phase: 12_345,
    });
    assert!(rt; board.regs() == regs && board.phase() == 12_345 && board.kind() == Kind::Instr);
}
