// The NMI: when it is latched, when it is accepted, and what the flip-flop does. Expected values are worked by hand
// from docs/BOARD.md, T-states from docs/INSTRUCTIONS.md.

ghost use Rattle.std.specs.Prelude.{◌<◌};
ghost use Rattle.t_states.specs.Frame.{frame};

use crate::machine::map_for;
use address_map::{Cell, RamKind, Region, Rom, Starts};
use board_step::{Board, Env, Event, Inputs, Kind, Profile, Reset, Trap};
use std::test::Fail;
use z80_alu::Regs;

const REGION: Region = Region {
    low: 0x4380,
    top: 0x4400,
};

const STILL: Inputs = Inputs {
    in0: 0,
    in1: 0,
    in2: 0,
    bus: 0,
};

fn env(latch: bool) -> Env {
    Env {
        inputs: [STILL, STILL],
        noise: 0,
        r: 0,
        latch,
    }
}

/// A board right after a reset, with all RAM and registers 0.
fn board(phase: u32) -> Board
    requires { phase < frame }
{
    Board::reset(&Reset {
        work: [0; 0x400],
        video: [0; 0x400],
        object: [0; 0x100],
        regs: Regs::default(),
        phase,
    })
}

/// A main program at 0000, and the NMI routine NOP; JR to itself at 0066.
fn with_routine(main: &[u8]) -> [u8; 0x69] {
    let mut rom = [0; 0x69];
    for (place, byte) in rom.iter_mut().zip(main) {
        *place = *byte;
    }
    rom[0x67] = 0x18;
    rom[0x68] = 0xFE;
    rom
}

fn starts_at(addresses: &[u16]) -> Starts {
    let mut starts = Starts::new();
    for address in addresses {
        if *address < 0x4000 {
            starts.insert(*address);
        }
    }
    starts
}

/// Executes one event per latch bit and returns the last event, or the first trap.
fn steps(board: &mut Board, rom: &[u8], starts: &Starts, latches: &[bool]) -> Result<Event, Trap> {
    let mut last = Event {
        kind: Kind::Idle,
        at: 0,
        t: 0,
    };
    if let Some(rom) = Rom::of(rom) {
        let map = map_for(&rom);
        let profile = Profile {
            map: &map,
            starts,
            region: REGION,
        };
        for latch in latches {
            last = board.step_checked(&rom, &profile, &env(*latch))?;
        }
    }
    Ok(last)
}

/// Whether an event has this kind, address and number of T-states.
fn is(event: Event, kind: Kind, at: u16, t: u8) -> bool {
    event.kind == kind && event.at == at && event.t == t
}

fn work_byte(board: &Board, index: u16) -> u8 {
    board.byte(Cell::new(RamKind::Work, index % 0x400))
}

/// LD SP,4400; LD A,1; LD (7001),A; JR to itself.
const ENABLES: [u8; 10] = [0x31, 0x00, 0x44, 0x3E, 0x01, 0x32, 0x01, 0x70, 0x18, 0xFE];

/// Events of 10, 7, 13 and 12 T-states from phase 50,650 cross the blank and end at phase 4.
#[test]
fn an_nmi_is_accepted_after_the_blank(rt: HostRuntime) -> Result<(), Fail> {
    let rom = with_routine(&ENABLES);
    let starts = starts_at(&[0, 3, 5, 8, 0x66, 0x67]);
    let mut board = board(50_650);
    steps(&mut board, &rom, &starts, &[false; 4])?;
    assert!(rt; board.phase() == 4);
    let event = steps(&mut board, &rom, &starts, &[false])?;
    assert!(rt; is(event, Kind::Accept, 0x0008, 11));
    let regs = board.regs();
    assert!(rt; regs.sp == 0x43FE && regs.pc == 0x0066);
    assert!(rt; work_byte(&board, 0x3FE) == 0x08 && work_byte(&board, 0x3FF) == 0x00);
    assert!(rt; board.phase() == 15);
    Ok(())
}

/// LD A,1; LD (7001),A; JR to itself, with SP 0000: the acceptance would push outside the region.
#[test]
fn an_acceptance_outside_the_region_traps(rt: HostRuntime) -> Result<(), Fail> {
    let bytes = [0x3E, 0x01, 0x32, 0x01, 0x70, 0x18, 0xFE];
    let starts = starts_at(&[0, 2, 5]);
    let mut board = board(50_660);
    steps(&mut board, &bytes, &starts, &[false; 3])?;
    let (regs, phase) = (board.regs(), board.phase());
    assert!(rt; steps(&mut board, &bytes, &starts, &[false]) == Err(Trap::StackOutside));
    assert!(rt; board.regs() == regs && board.phase() == phase);
    assert!(rt; board.kind() == Kind::Accept);
    assert!(rt; board.ram(RamKind::Work) == [0; 0x400].as_slice());
    Ok(())
}

/// LD SP,4400; LD A,1; LD (7001),A; XOR A; LD (7001),A; JR to itself. The last store crosses the blank, and the
/// environment decides whether the blank meets the enable set. If so, an NMI is latched although the enable is clear
/// after the event.
#[test]
fn the_enable_is_cleared_in_the_very_event(rt: HostRuntime) -> Result<(), Fail> {
    let bytes = [
        0x31, 0x00, 0x44, 0x3E, 0x01, 0x32, 0x01, 0x70, 0xAF, 0x32, 0x01, 0x70, 0x18, 0xFE,
    ];
    let starts = starts_at(&[0, 3, 5, 8, 9, 12]);
    for (latch, kind) in [(true, Kind::Accept), (false, Kind::Instr)] {
        // 10 + 7 + 13 + 4 = 34 T-states pass before the store of 13.
        let mut board = board(50_688 - 34 - 13);
        steps(
            &mut board,
            &bytes,
            &starts,
            &[false, false, false, false, latch],
        )?;
        assert!(rt; board.phase() == 0);
        assert!(rt; board.kind() == kind);
    }
    Ok(())
}

/// A blank while the line is set latches no second NMI; only the enable clears the line.
#[test]
fn a_line_that_is_up_latches_nothing(rt: HostRuntime) -> Result<(), Fail> {
    let rom = with_routine(&ENABLES);
    let starts = starts_at(&[0, 3, 5, 8, 0x66, 0x67]);
    let mut board = board(50_650);
    // The acceptance ends at phase 15. NOP takes 4 T-states and each JR 12, so the next blank comes within 4,223 of
    // them.
    steps(&mut board, &rom, &starts, &[false; 6])?;
    let mut blanks = 0u32;
    for _ in 0..4_230 {
        let before = board.phase();
        let event = steps(&mut board, &rom, &starts, &[false])?;
        assert!(rt; event.kind == Kind::Instr);
        if board.phase() < before {
            blanks = blanks.saturating_add(1);
        }
    }
    assert!(rt; blanks == 1);
    Ok(())
}

/// LD SP,4400; LD A,1; LD (7001),A; HALT. The halted machine idles in turns of 4 T-states and accepts the NMI, which
/// pushes the address after HALT.
#[test]
fn a_halted_machine_accepts(rt: HostRuntime) -> Result<(), Fail> {
    let mut main = ENABLES;
    main[8] = 0x76;
    let rom = with_routine(&main);
    let starts = starts_at(&[0, 3, 5, 8, 0x66, 0x67]);
    // 10 + 7 + 13 + 4 = 34 T-states to the end of HALT, and two idle turns to the blank.
    let mut board = board(50_688 - 34 - 8);
    steps(&mut board, &rom, &starts, &[false; 4])?;
    assert!(rt; board.kind() == Kind::Idle);
    let event = steps(&mut board, &rom, &starts, &[false; 2])?;
    assert!(rt; is(event, Kind::Idle, 0x0009, 4));
    let event = steps(&mut board, &rom, &starts, &[false])?;
    assert!(rt; is(event, Kind::Accept, 0x0009, 11));
    assert!(rt; work_byte(&board, 0x3FE) == 0x09);
    let event = steps(&mut board, &rom, &starts, &[false])?;
    assert!(rt; event.kind == Kind::Instr);
    Ok(())
}

/// An acceptance never crosses a blank. It follows the event that did, which takes at most 23 T-states, so it begins at
/// a phase of 22 at most and ends at 33 at most. Here EX (SP),IX, of 23, begins at the last phase of the frame.
#[test]
fn an_acceptance_begins_at_phase_22_at_most(rt: HostRuntime) -> Result<(), Fail> {
    // LD SP,43FE; LD A,1; LD (7001),A; EX (SP),IX; JR to itself.
    let main = [
        0x31, 0xFE, 0x43, 0x3E, 0x01, 0x32, 0x01, 0x70, 0xDD, 0xE3, 0x18, 0xFE,
    ];
    let rom = with_routine(&main);
    let starts = starts_at(&[0, 3, 5, 8, 10, 0x66, 0x67]);
    // 10 + 7 + 13 = 30 T-states pass before it.
    let mut board = board(50_687 - 30);
    steps(&mut board, &rom, &starts, &[false; 4])?;
    assert!(rt; board.phase() == 22);
    assert!(rt; board.kind() == Kind::Accept);
    let event = steps(&mut board, &rom, &starts, &[false])?;
    assert!(rt; is(event, Kind::Accept, 0x000A, 11));
    assert!(rt; board.phase() == 33);
    Ok(())
}

/// The phase after a NOP from this phase on, and the kind of the next event.
fn after_a_nop(phase: u32) -> Result<(u32, Kind), Trap>
    requires { phase < frame }
{
    let mut board = board(phase);
    steps(
        &mut board,
        &[0x00, 0x18, 0xFE],
        &starts_at(&[0, 1]),
        &[true],
    )?;
    Ok((board.phase(), board.kind()))
}

/// The first and the last phase of a frame: NOP leads from phase 0 to 4, and from phase 50,687 across the blank to 3.
#[test]
fn the_ends_of_the_frame(rt: HostRuntime) {
    assert!(rt; after_a_nop(0) == Ok((4, Kind::Instr)));
    assert!(rt; after_a_nop(50_687) == Ok((3, Kind::Instr)));
}
