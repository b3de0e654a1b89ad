// Runs of an accepted ROM on the runner and on the checked step side by side, with random inputs near the vertical
// blank.

use crate::numbers::Numbers;
use address_map::{RamKind, Starts};
use board_step::{Board, Env, Inputs, Kind, Profile, Reset};
use certificate::{Certificate, read};
use runner::Machine;
use runner::cert_checker::{Accepted, check};
use std::alloc::Global;
use z80_alu::{RegisterSet, Regs};

/// The number of events in a run, about twenty frames of 50,688 T-states. A program may test or clear its RAM for some
/// frames before the first NMI comes.
const EVENTS: u64 = 100_000;

/// The largest distance in T-states between the phase at a reset and the blank.
const NEAR: u32 = 4096;

const FRAME: u32 = 50_688;

/// The result of a comparison.
#[derive(Clone, Copy)]
pub enum Twins {
    /// The certificate is not accepted for the ROM, or its text is bad.
    Refused,
    /// The number of the first event where the two differ or the checked step traps. If only the RAMs differ, it is the
    /// number after the last event of that run.
    Differ(u64),
    /// All events agree. The value is the number of accepted NMIs.
    Agree(u64),
}

/// Compares at least `events` events of a ROM in runs from random resets. `text` is the text of its certificate.
pub fn compared(alloc: Global, rom: &[u8], text: &[u8], events: u64, seed: u64) -> Twins {
    let Ok(certificate) = read(alloc, text) else {
        return Twins::Refused;
    };
    let starts = starts_of(&certificate);
    match check(alloc, rom, certificate) {
        Ok(accepted) => run_twice(&accepted, &starts, events, seed),
        Err(_) => Twins::Refused,
    }
}

/// The addresses of the rows.
fn starts_of(certificate: &Certificate) -> Starts {
    let mut starts = Starts::new();
    for id in 0..certificate.row_count() {
        match certificate.row(id) {
            Some(row) if row.address < 0x4000 => starts.insert(row.address),
            _ => {}
        }
    }
    starts
}

fn run_twice(accepted: &Accepted, starts: &Starts, events: u64, seed: u64) -> Twins {
    let mut numbers = Numbers::from_seed(seed);
    let (mut done, mut accepts): (u64, u64) = (0, 0);
    for _ in 0..events.div_ceil(EVENTS) {
        match one_run(accepted, starts, &mut numbers) {
            Ok(count) => accepts = accepts.wrapping_add(count),
            Err(at) => return Twins::Differ(done.wrapping_add(at)),
        }
        done = done.wrapping_add(EVENTS);
    }
    Twins::Agree(accepts)
}

/// The number of NMIs accepted in one run. The error is the number of the first event that differs, or `EVENTS` if only
/// the RAMs differ after the run.
fn one_run(accepted: &Accepted, starts: &Starts, numbers: &mut Numbers) -> Result<u64, u64> {
    let reset = numbers.reset();
    if reset.phase >= FRAME {
        return Err(0);
    }
    let mut machine = Machine::reset(accepted, &reset);
    let mut board = Board::reset(&reset);
    let profile = Profile {
        map: accepted.map(),
        starts,
        region: accepted.certificate().region(),
    };
    let mut accepts: u64 = 0;
    for at in 0..EVENTS {
        let env = numbers.env();
        match board.step_checked(accepted.rom(), &profile, &env) {
            Ok(event) if event == machine.step(&env) && is_one(&board, machine.board()) => {
                accepts = accepts.wrapping_add(u64::from(event.kind == Kind::Accept));
            }
            _ => return Err(at),
        }
    }
    if have_one_ram(&board, machine.board()) {
        Ok(accepts)
    } else {
        Err(EVENTS)
    }
}

/// Whether both boards agree in everything but the RAMs.
fn is_one(a: &Board, b: &Board) -> bool {
    a.regs() == b.regs() && a.phase() == b.phase() && a.kind() == b.kind()
}

fn have_one_ram(a: &Board, b: &Board) -> bool {
    [RamKind::Work, RamKind::Video, RamKind::Object]
        .iter()
        .all(|kind| a.ram(*kind) == b.ram(*kind))
}

impl Numbers {
    fn env(&mut self) -> Env {
        Env {
            inputs: [self.inputs(), self.inputs()],
            noise: self.byte(),
            r: self.byte(),
            latch: self.byte() < 128,
        }
    }

    fn inputs(&mut self) -> Inputs {
        Inputs {
            in0: self.byte(),
            in1: self.byte(),
            in2: self.byte(),
            bus: self.byte(),
        }
    }

    fn set(&mut self) -> RegisterSet {
        RegisterSet {
            a: self.byte(),
            f: self.byte(),
            b: self.byte(),
            c: self.byte(),
            d: self.byte(),
            e: self.byte(),
            h: self.byte(),
            l: self.byte(),
        }
    }

    /// A reset shortly before the blank, with random registers. Each RAM is filled with one random byte.
    fn reset(&mut self) -> Reset {
        Reset {
            work: [self.byte(); 0x400],
            video: [self.byte(); 0x400],
            object: [self.byte(); 0x100],
            regs: Regs {
                main: self.set(),
                alternate: self.set(),
                ix: self.word(),
                iy: self.word(),
                sp: self.word(),
                ..Regs::default()
            },
            phase: FRAME - 1 - u32::from(self.word()) % NEAR,
        }
    }
}
