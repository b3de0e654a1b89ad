// Steps with answers worked by hand from the manual. Comparisons with another program are in crates/benchmarks.

ghost use Rattle.std.specs.Prelude.{◌≡◌, ◌<◌, length};
ghost use Rattle.t_states.specs.Frame.{frame};

use crate::rows::{BEFORE, BY_HAND, Row, TRAPS, TrapRow};
use address_map::{Map, RamKind, Region, Rom, Starts};
use board_fetch::fetch;
use board_step::{Board, Costs, Env, Event, Inputs, Kind, Known, Profile, Reset, Trap, may_return};
use t_states::cost;
use z80_actions::Action;
use z80_alu::{RegisterSet, Regs};

// Its numbers are all different where a step can tell: an open read gives AA first and then BB, and R is 5C.
pub(crate) fn environment() -> Env {
    let first = Inputs {
        in0: 0x10,
        in1: 0x11,
        in2: 0x92,
        bus: 0xAA,
    };
    let second = Inputs {
        in0: 0x20,
        in1: 0x21,
        in2: 0xA2,
        bus: 0xBB,
    };
    Env {
        inputs: [first, second],
        noise: 0,
        r: 0x5C,
        latch: false,
    }
}

fn set_of(af: u16, bc: u16, de: u16, hl: u16) -> RegisterSet {
    let mut set = RegisterSet::default();
    set.set_af(af);
    set.set_bc(bc);
    set.set_de(de);
    set.set_hl(hl);
    set
}

// AF BC DE HL IX IY SP AF' BC' DE' HL'
fn regs_of(words: &[u16; 11]) -> Regs {
    Regs {
        main: set_of(words[0], words[1], words[2], words[3]),
        alternate: set_of(words[7], words[8], words[9], words[10]),
        ix: words[4],
        iy: words[5],
        sp: words[6],
        ..Regs::default()
    }
}

// The same, and I with IFF1 and IFF2 in bits 1 and 0.
fn words_of(regs: &Regs) -> [u16; 12] {
    let latches = u16::from(regs.iff1) * 2 + u16::from(regs.iff2);
    [
        regs.main.af(),
        regs.main.bc(),
        regs.main.de(),
        regs.main.hl(),
        regs.ix,
        regs.iy,
        regs.sp,
        regs.alternate.af(),
        regs.alternate.bc(),
        regs.alternate.de(),
        regs.alternate.hl(),
        u16::from(regs.i) * 256 + latches,
    ]
}

// Cell i holds step * i + first, modulo 256.
fn rising(first: u8, step: u8) -> [u8; 0x400] {
    let mut cells = [0; 0x400];
    let mut byte = first;
    for cell in cells.iter_mut() {
        *cell = byte;
        byte = byte.wrapping_add(step);
    }
    cells
}

// Cell i of work RAM holds 7i + 3, cell i of video RAM 5i + 1, modulo 256; object RAM holds 6D.
fn board_with(regs: Regs, phase: u32) -> Board
    requires { phase < frame }
{
    Board::reset(&Reset {
        work: rising(3, 7),
        video: rising(1, 5),
        object: [0x6D; 0x100],
        regs,
        phase,
    })
}

fn all_starts() -> Starts {
    let mut starts = Starts::new();
    for at in 0..0x4000 {
        starts.insert(at);
    }
    starts
}

// The Galaxian map for a ROM.
pub(crate) fn map_for(rom: &Rom) -> Map
    ensures { result.rom_len ≡ length rom.now }
{
    Map::galaxian(rom.len())
}

// The stack region of a certificate, and one of all addresses.
const NARROW: Region = Region {
    low: 0x4380,
    top: 0x4400,
};

pub(crate) const WIDE: Region = Region {
    low: 0x0000,
    top: 0xFFFF,
};

// Executes steps with a stack region and each address a start; returns the T-states, or the trap.
pub(crate) fn stepped(
    board: &mut Board,
    rom: &[u8],
    region: Region,
    steps: u32,
    env: &Env,
) -> Result<u32, Trap> {
    let mut time: u32 = 0;
    if let Some(rom) = Rom::of(rom) {
        let map = map_for(&rom);
        let starts = all_starts();
        let profile = Profile {
            map: &map,
            starts: &starts,
            region,
        };
        for _ in 0..steps {
            let event = board.step_checked(&rom, &profile, env)?;
            time = time.wrapping_add(u32::from(event.t));
        }
    }
    Ok(time)
}

// The words of BEFORE with these changes.
fn with(changes: &[(usize, u16)]) -> [u16; 12] {
    let mut words = words_of(&regs_of(&BEFORE));
    for (place, word) in changes {
        if let Some(register) = words.get_mut(*place) {
            *register = *word;
        }
    }
    words
}

// Whether work RAM has these bytes.
fn has(board: &Board, cells: &[(u16, u8)]) -> bool {
    for (index, byte) in cells {
        if board.ram(RamKind::Work).get(usize::from(*index)) != Some(byte) {
            return false;
        }
    }
    true
}

/// The first difference from a row of BY_HAND after its steps; empty if there is none.
fn difference((rom, steps, changes, pc, t, cells): Row) -> &'static str {
    let mut board = board_with(regs_of(&BEFORE), 0);
    if stepped(&mut board, rom, WIDE, steps, &environment()) != Ok(t) {
        "time"
    } else if words_of(&board.regs()) != with(changes) {
        "registers"
    } else if board.regs().pc != pc {
        "program counter"
    } else if board.regs().r != 0 {
        "R"
    } else if !has(&board, cells) {
        "bytes"
    } else {
        ""
    }
}

#[test]
fn agrees_with_the_manual(rt: HostRuntime) {
    for row in BY_HAND {
        let different = difference(*row);
        assert!(rt; different.is_empty(), "{different} of {:?}", row.0);
    }
}

/// The same for a row of TRAPS.
fn trap_difference((rom, steps, trap): TrapRow) -> &'static str {
    let mut board = board_with(regs_of(&BEFORE), 0);
    if stepped(
        &mut board,
        rom,
        NARROW,
        steps.saturating_sub(1),
        &environment(),
    )
    .is_err()
    {
        return "before the trap";
    }
    let words = words_of(&board.regs());
    if stepped(&mut board, rom, NARROW, 1, &environment()).err() != trap {
        "trap"
    } else if trap.is_some() && words_of(&board.regs()) != words {
        "registers"
    } else {
        ""
    }
}

#[test]
fn traps_by_the_table(rt: HostRuntime) {
    for row in TRAPS {
        let different = trap_difference(*row);
        assert!(rt; different.is_empty(), "{different} of {:?}", row.0);
    }
}

pub(crate) fn filled(byte: u8, phase: u32) -> Board
    requires { phase < frame }
{
    let word = u16::from(byte) * 257;
    Board::reset(&Reset {
        work: [byte; 0x400],
        video: [byte; 0x400],
        object: [byte; 0x100],
        regs: regs_of(&[word; 11]),
        phase,
    })
}

fn sum(bytes: &[u8]) -> u32 {
    let mut sum: u32 = 0;
    for byte in bytes {
        sum = sum.wrapping_add(u32::from(*byte));
    }
    sum
}

// LD SP,4400; LD HL,4000; LD DE,4001; LD BC,03FF; LD (HL),0; LDIR; JR to itself.
const FILL: [u8; 18] = [
    0x31, 0x00, 0x44, 0x21, 0x00, 0x40, 0x11, 0x01, 0x40, 0x01, 0xFF, 0x03, 0x36, 0x00, 0xED, 0xB0,
    0x18, 0xFE,
];

#[test]
fn fills_work_ram(rt: HostRuntime) {
    let mut board = filled(0xFF, 0);
    let time = stepped(&mut board, &FILL, NARROW, 1028, &environment());
    assert!(rt; time == Ok(21_528));
    let want = [
        0xFFC1, 0x0000, 0x4400, 0x43FF, 0xFFFF, 0xFFFF, 0x4400, 0xFFFF, 0xFFFF, 0xFFFF, 0xFFFF, 0,
    ];
    assert!(rt; words_of(&board.regs()) == want);
    assert!(rt; board.regs().pc == 0x0010);
    assert!(rt; sum(board.ram(RamKind::Work)) == 0);
    assert!(rt; sum(board.ram(RamKind::Video)) == 261_120);
    assert!(rt; sum(board.ram(RamKind::Object)) == 65_280);
}

// LD SP,4400; LD A,1; LD (7001),A; XOR A; LD (7001),A; JR to itself; at 0066 RETN. The blank comes while the enable is
// being cleared.
fn enabling() -> [u8; 0x68] {
    let mut rom = [0; 0x68];
    let main = [
        0x31, 0x00, 0x44, 0x3E, 0x01, 0x32, 0x01, 0x70, 0xAF, 0x32, 0x01, 0x70, 0x18, 0xFE,
    ];
    for (place, byte) in rom.iter_mut().zip(main) {
        *place = byte;
    }
    rom[0x66] = 0xED;
    rom[0x67] = 0x45;
    rom
}

/// Seven events from phase 50,650 with this latch bit: their T-states, and then PC, SP, AF, and the sum of work RAM.
fn after_enabling(latch: bool) -> (Result<u32, Trap>, [u16; 3], u32) {
    let mut board = filled(0, 50_650);
    let env = Env {
        latch,
        ..environment()
    };
    let time = stepped(&mut board, &enabling(), NARROW, 7, &env);
    let regs = board.regs();
    (
        time,
        [regs.pc, regs.sp, regs.main.af()],
        sum(board.ram(RamKind::Work)),
    )
}

#[test]
fn latches_an_nmi_as_the_environment_says(rt: HostRuntime) {
    let regs = [0x000C, 0x4400, 0x0044];
    assert!(rt; after_enabling(true) == (Ok(72), regs, 12));
    assert!(rt; after_enabling(false) == (Ok(71), regs, 0));
}

// Executes the next event by `step_known`, if the instruction can be decoded.
fn step_by_known(board: &mut Board, rom: &Rom, map: &Map, env: &Env) -> Option<Event>
    requires { map.now.rom_len ≡ length rom.now }
{
    match board.kind() {
        Kind::Accept | Kind::Idle => Some(board.step_known(rom, map, None, env)),
        Kind::Instr => {
            let at = board.regs().pc;
            let (instr, len) = fetch(rom, at).ok()?;
            let costs = Costs {
                taken: cost(&instr, true),
                not_taken: cost(&instr, false),
            };
            let known = Known {
                action: Action::of(instr),
                next: at.wrapping_add(u16::from(len)),
                len,
                costs,
                may_return: may_return(&instr),
            };
            Some(board.step_known(rom, map, Some(&known), env))
        }
    }
}

/// The T-states of seven events by `step_known`.
fn time_by_known(board: &mut Board, bytes: &[u8], env: &Env) -> u32 {
    let mut time: u32 = 0;
    if let Some(rom) = Rom::of(bytes) {
        let map = map_for(&rom);
        for _ in 0..7 {
            let t = step_by_known(board, &rom, &map, env).map_or(0, |event| event.t);
            time = time.wrapping_add(u32::from(t));
        }
    }
    time
}

#[test]
fn known_steps_are_the_checked_ones(rt: HostRuntime) {
    let mut board = filled(0, 50_650);
    let env = Env {
        latch: true,
        ..environment()
    };
    assert!(rt; time_by_known(&mut board, &enabling(), &env) == 72);
    assert!(rt; board.regs().pc == 0x000C);
    assert!(rt; sum(board.ram(RamKind::Work)) == 12);
}
