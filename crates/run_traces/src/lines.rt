// The line of an event in a trace.

use arrayvec::ArrayString;
use board_step::{Board, Kind};
use disassembly::spelled;
use runner::cert_checker::Accepted;
use std::fmt::Write;

/// The longest line: two decimals of 20 digits, seven words of 4 digits, an instruction in 20 columns, spaces, and LF.
const ROOM: usize = 128;

/// A line of a trace.
pub(crate) type TraceLine = ArrayString<ROOM>;

/// What stands in the place of an instruction for an event that is none.
const ACCEPT: &str = "nmi";

const IDLE: &str = "idle";

/// The line of the event that comes next: its number, the T-states before it, the program counter, the instruction, and
/// the registers before it (docs/PROGRAM.md, "Traces").
pub(crate) fn trace_line(accepted: &Accepted, board: &Board, number: u64, time: u64) -> TraceLine {
    let mut line = TraceLine::new();
    let at = board.pc();
    let _fits = write!(line, "{number} {time} {at:04X} ");
    add_event(&mut line, accepted, board.kind(), at);
    add_registers(&mut line, board);
    line
}

/// Adds what happens, in 20 columns: the instruction at an address, or the event that is none.
fn add_event(line: &mut TraceLine, accepted: &Accepted, kind: Kind, at: u16) {
    let _fits = match kind {
        Kind::Accept => write!(line, "{ACCEPT:<20}"),
        Kind::Idle => write!(line, "{IDLE:<20}"),
        Kind::Instr => return add_instruction(line, accepted, at),
    };
}

/// Adds an instruction.
fn add_instruction(line: &mut TraceLine, accepted: &Accepted, at: u16) {
    let code = accepted.code();
    let len = code.bytes_at(at).map_or(0, |bytes| bytes.len());
    if let Some(instr) = code.instr_at(at) {
        let mut text = ArrayString::<64>::new();
        let after = u32::from(at).saturating_add(len as u32) % 0x1_0000;
        let _fits = write!(text, "{}", spelled(&instr, after as u16));
        let _fits = write!(line, "{:<20}", text.as_str());
    }
}

/// Adds the registers, and the line feed.
fn add_registers(line: &mut TraceLine, board: &Board) {
    let regs = board.regs();
    let main = regs.main;
    let words = [
        main.af(),
        main.bc(),
        main.de(),
        main.hl(),
        regs.ix,
        regs.iy,
        regs.sp,
    ];
    for word in words {
        let _fits = write!(line, " {word:04X}");
    }
    let _fits = line.try_push_str("\n");
}
