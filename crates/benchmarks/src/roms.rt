// Events of a ROM that loops forever, on the checked step and on the known one. All inputs of the run are 0.

use crate::steps::last_step;
use address_map::{Map, RamKind, Region, Rom, Starts};
use board_step::{Board, Env, Inputs, Profile};
use certificate::read;
use runner::cert_checker::check;
use runner::{Machine, ResetLine, Summary};
use std::alloc::Global;

/// The environment with all inputs 0.
const QUIET: Env = Env {
    inputs: [Inputs {
        in0: 0,
        in1: 0,
        in2: 0,
        bus: 0,
    }; 2],
    noise: 0,
    r: 0,
    latch: false,
};

/// A reset at phase 0 that fills with 0.
const START: ResetLine = ResetLine { phase: 0, fill: 0 };

fn sum(bytes: &[u8]) -> u32 {
    let mut sum: u32 = 0;
    for byte in bytes {
        sum = sum.wrapping_add(u32::from(*byte));
    }
    sum
}

/// The board after `events` events on the checked step. The time in the summary is 0. None if an event trapped. Each
/// address counts as a start.
pub fn checked(rom: &[u8], events: u64) -> Option<Summary> {
    let rom = Rom::of(rom)?;
    let map = Map::galaxian(rom.len());
    let mut starts = Starts::new();
    for at in 0..rom.len() {
        starts.insert(at);
    }
    let profile = Profile {
        map: &map,
        starts: &starts,
        region: Region {
            low: 0x4380,
            top: 0x4400,
        },
    };
    let mut board = Board::reset(&START.reset());
    last_step(&mut board, &rom, &profile, &QUIET, events).ok()?;
    let regs = board.regs();
    let main = regs.main;
    Some(Summary {
        events,
        time: 0,
        pc: regs.pc,
        sp: regs.sp,
        pairs: [main.af(), main.bc(), main.de(), main.hl(), regs.ix, regs.iy],
        sums: [
            sum(board.ram(RamKind::Work)),
            sum(board.ram(RamKind::Video)),
            sum(board.ram(RamKind::Object)),
        ],
    })
}

/// The board after `events` events on the known step. The time in the summary is 0. None if the certificate is not
/// accepted.
pub fn known(alloc: Global, rom: &[u8], certificate: &[u8], events: u64) -> Option<Summary> {
    let certificate = read(alloc, certificate).ok()?;
    let accepted = check(alloc, rom, certificate).ok()?;
    let mut machine = Machine::reset(&accepted, &START.reset());
    for _ in 0..events {
        machine.step(&QUIET);
    }
    Some(machine.run(&[]))
}
