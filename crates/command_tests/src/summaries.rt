// The state after a reset, and the text of a summary. The values are worked by hand from docs/PROGRAM.md.

use board_step::Reset;
use runner::{ResetLine, Summary, summary_lines};
use z80_alu::{RegisterSet, Regs};

/// A register set filled with A5. `FILLED_REGS` below holds the registers after a reset that fills with A5.
const FILLED: RegisterSet = RegisterSet {
    a: 0xA5,
    f: 0xA5,
    b: 0xA5,
    c: 0xA5,
    d: 0xA5,
    e: 0xA5,
    h: 0xA5,
    l: 0xA5,
};

const FILLED_REGS: Regs = Regs {
    main: FILLED,
    alternate: FILLED,
    ix: 0xA5A5,
    iy: 0xA5A5,
    sp: 0xA5A5,
    pc: 0,
    i: 0,
    r: 0,
    iff1: false,
    iff2: false,
};

/// Whether the reset has this phase, and A5 in each register and each RAM cell.
fn is_filled(reset: &Reset, phase: u32) -> bool {
    reset.phase == phase
        && reset.regs == FILLED_REGS
        && reset.work == [0xA5; 0x400]
        && reset.video == [0xA5; 0x400]
        && reset.object == [0xA5; 0x100]
}

#[test]
fn the_fields_of_a_reset(rt: HostRuntime) {
    let line = ResetLine::of(b"reset 50687 A5").unwrap_or(ResetLine { phase: 0, fill: 0 });
    assert!(rt; line.phase == 50_687 && line.fill == 0xA5);
    assert!(rt; is_filled(&line.reset(), 50_687));
}

#[test]
fn a_summary_is_written(rt: HostRuntime) {
    let summary = Summary {
        events: 4_294_967_295,
        time: 98_784_247_785,
        pc: 0x00AF,
        sp: 0x43FE,
        pairs: [0x0102, 0x0304, 0x0506, 0x0708, 0x090A, 0x0B0C],
        sums: [261_120, 7, 65_280],
    };
    let text =
        "done 4294967295 98784247785 00AF 43FE\nregs 0102 0304 0506 0708 090A 0B0C\nsum 261120 7 65280\n";
    assert!(rt; summary_lines(&summary).bytes() == text.as_bytes());
}
