// A mixed loop of loads, adds, calls, DJNZ and (IX+d) accesses, by the checked step.

use crate::steps::last_step;
use address_map::{Map, Region, Rom, Starts};
use board_step::{Board, Env, Inputs, Profile, Reset};
use z80_alu::Regs;

/// LD SP,4400; LD IX,4000; LD B,0; then LD A,(IX+5); ADD A,3; LD (IX+5),A; LD HL,4010; ADD A,(HL); LD (HL),A; LD C,A;
/// CALL 0020; DJNZ back; JR to LD B,0. At 0020: INC A; ADD A,B; RET.
const PROGRAM: [u8; 0x23] = [
    0x31, 0x00, 0x44, 0xDD, 0x21, 0x00, 0x40, 0x06, 0x00, 0xDD, 0x7E, 0x05, 0xC6, 0x03, 0xDD, 0x77,
    0x05, 0x21, 0x10, 0x40, 0x86, 0x77, 0x4F, 0xCD, 0x20, 0x00, 0x10, 0xED, 0x18, 0xE9, 0x00, 0x00,
    0x3C, 0x80, 0xC9,
];

fn quiet() -> Env {
    let none = Inputs {
        in0: 0,
        in1: 0,
        in2: 0,
        bus: 0,
    };
    Env {
        inputs: [none, none],
        noise: 0,
        r: 0,
        latch: false,
    }
}

/// The values of A and B after this many events. None if an event trapped.
pub fn played(events: u64) -> Option<(u8, u8)> {
    let rom = Rom::of(&PROGRAM)?;
    let map = Map::galaxian(rom.len());
    let mut starts = Starts::new();
    for at in 0..0x23 {
        starts.insert(at);
    }
    let profile = Profile {
        map: &map,
        starts: &starts,
        region: Region {
            low: 0x4380,
            top: 0x4400,
        },
    };
    let mut board = Board::reset(&Reset {
        work: [0; 0x400],
        video: [0; 0x400],
        object: [0; 0x100],
        regs: Regs::default(),
        phase: 0,
    });
    match last_step(&mut board, &rom, &profile, &quiet(), events) {
        Ok(_) => Some((board.regs().main.a, board.regs().main.b)),
        Err(_) => None,
    }
}
