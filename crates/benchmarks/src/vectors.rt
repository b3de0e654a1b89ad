// Steps of the board compared with those of Debian's libz80ex 1.1.21, with random registers. A C program wrote the
// lines of the stored run, one instruction each. bench/steps.c writes any number of lines.
//
// A line has 58 bytes in hexadecimal and then the name of the instruction. The bytes are, in this order:
// - the ROM (4),
// - the mask of the bits of F that are compared (1),
// - the registers AF BC DE HL IX IY SP AF' BC' DE' HL' before the instruction,
// - the same registers after it, I, and a byte with IFF1 in bit 1 and IFF2 in bit 0,
// - the program counter, and the T-states (1),
// - the sum over the bytes of work and video RAM, each multiplied by its place from 1 (4).
//
// Before the instruction, I, IFF1, IFF2 and the program counter are 0. Cell i of work RAM holds 7i + 3 and cell i of
// video RAM holds 5i + 1, modulo 256. The mask leaves out the bits that the manual leaves open: bits 5 and 3 where
// flags change, H after DAA, S and P/V after BIT, and P/V after LD A,I. Those bits have to equal the bits of the noise.

use crate::steps::last_step;
use address_map::{Map, RamKind, Region, Rom, Starts};
use board_step::{Board, Env, Event, Inputs, Profile, Reset, Trap};
use hex::FromHex;
use z80_alu::{RegisterSet, Regs};

/// The bytes that a line's digits give, and the name of its instruction. The bytes are None if the digits are bad.
pub fn row_of(line: &str) -> (Option<[u8; 58]>, &str) {
    let (digits, name) = line.split_once(' ').unwrap_or(("", ""));
    (<[u8; 58] as FromHex>::from_hex(digits).ok(), name)
}

/// Whether the step agrees with the line for the noise 00 and for FF.
pub fn agrees(row: &[u8; 58]) -> bool {
    agrees_with(row, 0x00) && agrees_with(row, 0xFF)
}

/// Whether the step agrees for this noise, which gives the bits of F that the manual leaves open.
fn agrees_with(row: &[u8; 58], noise: u8) -> bool {
    let mut board = board_of(row);
    let Ok(Some(event)) = stepped(&mut board, &row[..4], noise) else {
        return false;
    };
    let mut words = words_of(&board.regs());
    let (compared, open) = (row[4], !row[4]);
    let is_noise = board.regs().main.f & open == noise & open;
    words[0] &= 0xFF00 | u16::from(compared);
    is_noise
        && event.t == row[53]
        && board.regs().pc == word(row, 51)
        && are(&words, row)
        && weighed(&board) == u32::from_be_bytes([row[54], row[55], row[56], row[57]])
}

fn word(row: &[u8; 58], at: usize) -> u16 {
    let high = row.get(at).copied().unwrap_or(0);
    let low = row.get(at.wrapping_add(1)).copied().unwrap_or(0);
    u16::from_be_bytes([high, low])
}

fn are(words: &[u16; 12], row: &[u8; 58]) -> bool {
    for (i, register) in words.iter().enumerate() {
        if *register != word(row, 27 + 2 * i) {
            return false;
        }
    }
    true
}

fn set_of(row: &[u8; 58], af: usize, bc: usize) -> RegisterSet {
    let mut set = RegisterSet::default();
    set.set_af(word(row, af));
    set.set_bc(word(row, bc));
    set.set_de(word(row, bc.wrapping_add(2)));
    set.set_hl(word(row, bc.wrapping_add(4)));
    set
}

fn board_of(row: &[u8; 58]) -> Board {
    let mut work = [0; 0x400];
    let mut video = [0; 0x400];
    for (i, cell) in work.iter_mut().enumerate() {
        *cell = ((i * 7 + 3) % 256) as u8;
    }
    for (i, cell) in video.iter_mut().enumerate() {
        *cell = ((i * 5 + 1) % 256) as u8;
    }
    Board::reset(&Reset {
        work,
        video,
        object: [0; 0x100],
        regs: Regs {
            main: set_of(row, 5, 7),
            alternate: set_of(row, 19, 21),
            ix: word(row, 13),
            iy: word(row, 15),
            sp: word(row, 17),
            ..Regs::default()
        },
        phase: 0,
    })
}

fn words_of(regs: &Regs) -> [u16; 12] {
    let latches = u16::from(regs.iff1) * 2 + u16::from(regs.iff2);
    [
        regs.main.af(),
        regs.main.bc(),
        regs.main.de(),
        regs.main.hl(),
        regs.ix,
        regs.iy,
        regs.sp,
        regs.alternate.af(),
        regs.alternate.bc(),
        regs.alternate.de(),
        regs.alternate.hl(),
        u16::from(regs.i) * 256 + latches,
    ]
}

// The sum over the bytes of work and video RAM, each multiplied by its place from 1.
fn weighed(board: &Board) -> u32 {
    let mut sum: u32 = 0;
    let mut place: u32 = 0;
    for ram in [RamKind::Work, RamKind::Video] {
        for byte in board.ram(ram) {
            place = place.wrapping_add(1);
            sum = sum.wrapping_add(place.wrapping_mul(u32::from(*byte)));
        }
    }
    sum
}

// One step with the stack in 4380 to 43FF and 0000 as the only start. The inputs differ from one another, but none is
// read.
fn stepped(board: &mut Board, rom: &[u8], noise: u8) -> Result<Option<Event>, Trap> {
    let Some(rom) = Rom::of(rom) else {
        return Err(Trap::FetchOutside);
    };
    let map = Map::galaxian(rom.len());
    let mut starts = Starts::new();
    starts.insert(0);
    let profile = Profile {
        map: &map,
        starts: &starts,
        region: Region {
            low: 0x4380,
            top: 0x4400,
        },
    };
    let env = Env {
        inputs: [inputs_from(0x11), inputs_from(0x51)],
        noise,
        r: 0x91,
        latch: true,
    };
    last_step(board, &rom, &profile, &env, 1)
}

// Four different bytes: this one and the next three.
fn inputs_from(byte: u8) -> Inputs {
    Inputs {
        in0: byte,
        in1: byte.wrapping_add(1),
        in2: byte.wrapping_add(2),
        bus: byte.wrapping_add(3),
    }
}
