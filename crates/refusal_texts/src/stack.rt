// What is wrong with the stack: reasons 9, 10, 14, 19 and 20, and what stands where no instruction can: 4 and 5.

use crate::wording::{RangeText, Wording, add_line, pair_name};
use abs_step::Saved;
use analysis::{FlowFault, MAIN, NMI};
use explanations::{Explored, Situation, lost_pairs, origins_of};
use explored_plans::entry_of;
use inferred_rows::ContextPoint;
use loop_bounds::{Part, SlotNumber, Variable};
use z80_decode::{DecodeFault, Instr, Pointer, Register16};

/// Adds the bytes that are no instruction, and which rows lead there.
///
/// # Errors
///
/// `NoMemory` where memory was refused.
pub fn add_decode(
    text: &mut String,
    with: &Wording,
    fault: DecodeFault,
    address: u16,
) -> Result<(), FlowFault> {
    let alloc = with.alloc;
    let mut bytes = String::new(alloc);
    for byte in with.rom.bytes_from(address).iter().take(4) {
        write!(bytes, " {byte:02X}")?;
    }
    let len = with.rom.len();
    match fault {
        DecodeFault::Truncated if bytes.is_empty() => add_line(
            text,
            format_args!("the ROM ends before it: it has {len} bytes"),
        ),
        DecodeFault::Truncated => add_line(
            text,
            format_args!("the ROM ends within the instruction{bytes}: it has {len} bytes"),
        ),
        DecodeFault::Undocumented => add_line(
            text,
            format_args!("the bytes{bytes} begin no documented instruction: is this data?"),
        ),
    }
}

/// Adds from where a row is reached.
///
/// # Errors
///
/// `NoMemory` where memory was refused.
pub fn add_reached(
    text: &mut String,
    with: &Wording,
    explored: &Explored,
    row: u64,
) -> Result<(), FlowFault> {
    let alloc = with.alloc;
    let mut from: Vec<u16> = Vec::new(alloc);
    for edge in explored.incoming(row) {
        let address = ContextPoint::of(edge.from).address;
        if !from.contains(&address) && from.len() < 6 {
            from.push(address)?;
        }
    }
    for address in from.as_slice() {
        let before = with.instr_at(*address);
        add_line(text, format_args!("reached from {before}"))?;
    }
    Ok(())
}

/// Adds that the board has no I/O space.
///
/// # Errors
///
/// `NoMemory` where memory was refused.
pub fn add_io(text: &mut String) -> Result<(), FlowFault> {
    add_line(
        text,
        "the board has no I/O space: its ports are memory (docs/BOARD.md), read and written by LD",
    )
}

/// Adds which instruction needs SP.
///
/// # Errors
///
/// `NoMemory` where memory was refused.
pub fn add_unset(text: &mut String, with: &Wording, address: u16) -> Result<(), FlowFault> {
    let instr = with.instr(address);
    add_line(
        text,
        format_args!("{instr} uses the stack, and a way from 0000 leads here without LD SP,nn"),
    )
}

/// Adds why an access does not fit the shape of the stack.
///
/// # Errors
///
/// `NoMemory` where memory was refused.
pub fn add_misfit(
    text: &mut String,
    with: &Wording,
    situation: &Situation,
    explored: Option<(&Explored, u64)>,
) -> Result<(), FlowFault> {
    let alloc = with.alloc;
    let address = situation.place.address;
    let instr = with.instr(address);
    let slots = situation.state.shape.len();
    if slots >= 64 {
        return add_line(
            text,
            "64 words are on the stack here: a loop pushes more than it pops",
        );
    }
    if let Some(slot) = situation.state.shape.top() {
        let top = RangeText::words(slot.pair.word);
        add_line(
            text,
            format_args!(
                "returns to the word on top of the stack, which is {top}: not one address"
            ),
        )?;
        if let Some((explored, row)) = explored {
            add_pushed(text, with, explored, row, slots)?;
        }
        return Ok(());
    }
    if situation.place.proc == MAIN {
        return add_line(
            text,
            format_args!("{instr} with nothing on the stack: main has no caller"),
        );
    }
    add_line(
        text,
        format_args!("{instr} takes the return address of this procedure"),
    )?;
    if let Some((explored, _)) = explored {
        let sites = explored.call_sites(alloc, situation.place.proc)?;
        let entry = with.place(entry_of(situation.place.proc));
        if sites.as_slice().is_empty() {
            return add_line(
                text,
                format_args!(
                    "{entry} is the NMI routine: this is where the program was interrupted"
                ),
            );
        }
        let places = with.places(sites.as_slice())?;
        add_line(text, format_args!("{entry} is called at {places}"))?;
    }
    Ok(())
}

/// Adds where the word on top of the stack comes from.
fn add_pushed(
    text: &mut String,
    with: &Wording,
    explored: &Explored,
    row: u64,
    slots: usize,
) -> Result<(), FlowFault> {
    let alloc = with.alloc;
    let number = slots.saturating_sub(1).min(63) as u8;
    let Some(number) = SlotNumber::new(number) else {
        return Ok(());
    };
    let top = Variable::Slot(number, Part::Word);
    let found = origins_of(alloc, explored, row, top)?;
    for origin in found.iter().take(2) {
        let at = with.instr_at(origin.at);
        add_line(text, format_args!("pushed by {at}"))?;
    }
    Ok(())
}

/// Adds which register is not given back, and where it was lost.
///
/// # Errors
///
/// `NoMemory` where memory was refused.
pub fn add_saved(
    text: &mut String,
    with: &Wording,
    saved: Saved,
    situation: &Situation,
    explored: Option<(&Explored, u64)>,
) -> Result<(), FlowFault> {
    let alloc = with.alloc;
    let Saved::Pair(pair) = saved else {
        return add_line(text, "the NMI routine writes I, which it cannot give back");
    };
    let name = pair_name(pair);
    let is = RangeText::words(situation.state.pairs.pair(pair).word);
    add_line(
        text,
        format_args!("{name} is {is} here, and need not be what the NMI interrupted"),
    )?;
    if let Some((explored, _)) = explored {
        for at in lost_pairs(alloc, explored, pair)? {
            let instr = with.instr_at(at);
            add_line(text, format_args!("{name} is changed by {instr}"))?;
        }
    }
    Ok(())
}

/// Adds on which calls from the NMI routine a HALT stands.
///
/// # Errors
///
/// `NoMemory` where memory was refused.
pub fn add_halt(
    text: &mut String,
    with: &Wording,
    situation: &Situation,
    explored: Option<(&Explored, u64)>,
) -> Result<(), FlowFault> {
    add_line(
        text,
        "HALT waits for an NMI, and none comes while the NMI routine runs",
    )?;
    let Some((explored, _)) = explored else {
        return Ok(());
    };
    let mut proc = situation.place.proc;
    for _ in 0..6 {
        if proc == NMI {
            return Ok(());
        }
        let Some(caller) = timed_caller(with, explored, proc)? else {
            return Ok(());
        };
        let point = ContextPoint::of(caller);
        let call = with.instr_at(point.address);
        add_line(text, format_args!("called by {call}"))?;
        proc = point.proc;
    }
    Ok(())
}

/// A row of a timed procedure that calls a procedure.
fn timed_caller(with: &Wording, explored: &Explored, proc: u32) -> Result<Option<u64>, FlowFault> {
    for caller in explored.list.callers_of(with.alloc, proc)? {
        if explored.list.is_timed(ContextPoint::of(caller).proc) {
            return Ok(Some(caller));
        }
    }
    Ok(None)
}

/// Adds why a write of SP is refused.
///
/// # Errors
///
/// `NoMemory` where memory was refused.
pub fn add_sp_write(
    text: &mut String,
    with: &Wording,
    situation: &Situation,
) -> Result<(), FlowFault> {
    let address = situation.place.address;
    let top = situation.task.said().region().top;
    let Ok((instr, _)) = board_fetch::fetch(with.rom, address) else {
        return Ok(());
    };
    match instr {
        Instr::LoadPair(Register16::Sp, word) if word != top => add_line(
            text,
            format_args!("SP would be {word:04X}; the region's top is {top:04X}"),
        ),
        Instr::LoadPair(Register16::Sp, _) => {
            let entry = with.place(entry_of(situation.place.proc));
            add_line(
                text,
                format_args!("only main may load SP, and this is in the procedure {entry}"),
            )
        }
        Instr::LoadSp(Pointer::Hl | Pointer::Ix | Pointer::Iy)
        | Instr::IncrementPair(Register16::Sp)
        | Instr::DecrementPair(Register16::Sp) => add_line(
            text,
            "the program moves its stack: compiled C? docs/C.md has the options against it",
        ),
        _ => add_line(
            text,
            "SP is loaded from elsewhere: LD SP,nn with the region's top is the only write of SP",
        ),
    }
}
