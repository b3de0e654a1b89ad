// What a refused data write does: reasons 6, 7, 8, 15, 16, 21 and 22.

use crate::wording::{RangeText, Wording, add_line};
use abs_draft::DataWrite;
use abs_step::Reason;
use address_map::{RamKind, WriteUse, Zone};
use analysis::{FlowFault, MAIN};
use explanations::Situation;

/// The data write that a reason is about: the first to which it applies.
fn offending(situation: &Situation, reason: Reason) -> Option<DataWrite> {
    let map = situation.task.map();
    let region = situation.task.said().region();
    let ground = situation.task.ground();
    for write in situation.judged.writes.as_slice() {
        let applies = match reason {
            Reason::WriteRom => map.some_rom(write.at),
            Reason::WriteUnmapped => map.some_unmapped(write.at),
            Reason::StackOverwrite => map.some_in_region(write.at, region),
            Reason::NmiBeforeStack | Reason::NmiMissing | Reason::CellUnarmed => {
                ground.may_enable(write)
            }
            Reason::CellRange => ground.armed(situation.state.armed).iter().any(
                |cell| map.some_at_cell(write.at, cell.at) && !holds(cell.range, write.byte),
            ),
            _ => false,
        };
        if applies {
            return Some(*write);
        }
    }
    None
}

/// Whether a range contains another one.
fn holds(range: intervals::ByteRange, other: intervals::ByteRange) -> bool {
    range.low() <= other.low() && other.high() <= range.high()
}

/// Whether the refused write of a row goes to one address that is never allowed.
pub fn is_astray(situation: &Situation, reason: Reason) -> bool {
    let is_of_place = matches!(reason, Reason::WriteRom | Reason::WriteUnmapped);
    match offending(situation, reason) {
        Some(write) => is_of_place && write.at.value().is_some(),
        None => false,
    }
}

/// Adds what the refused write of a row does.
///
/// # Errors
///
/// `NoMemory` where memory was refused.
pub fn add_write(
    text: &mut String,
    with: &Wording,
    situation: &Situation,
    reason: Reason,
) -> Result<(), FlowFault> {
    let Some(write) = offending(situation, reason) else {
        return Ok(());
    };
    match reason {
        Reason::WriteRom | Reason::WriteUnmapped | Reason::StackOverwrite => {
            add_place(text, with, situation, reason, &write)
        }
        Reason::CellRange => add_cell_range(text, with, situation, &write),
        _ => add_enabling(text, with, situation, reason, &write),
    }
}

/// Adds where a write may go, and where it is allowed to go.
fn add_place(
    text: &mut String,
    with: &Wording,
    situation: &Situation,
    reason: Reason,
    write: &DataWrite,
) -> Result<(), FlowFault> {
    let at = RangeText::words(write.at);
    let allowed = allowed_here(with, situation)?;
    add_line(text, format_args!("writes {at}; allowed here {allowed}"))?;
    if reason == Reason::StackOverwrite {
        let region = situation.task.said().region();
        let (low, last) = (region.low, region.top.saturating_sub(1));
        if situation.place.proc != MAIN {
            return add_line(text, format_args!("the stack has {low:04X}-{last:04X}"));
        }
        let bytes = situation.state.shape.bytes();
        add_line(
            text,
            format_args!(
                "the stack has {low:04X}-{last:04X}; main may write there with nothing on the stack: here {bytes} bytes are"
            ),
        )?;
    }
    Ok(())
}

/// The addresses that a row may write: RAM without its mirrors and without the stack's region, and the latches.
fn allowed_here(with: &Wording, situation: &Situation) -> Result<String, FlowFault> {
    let alloc = with.alloc;
    let region = situation.task.said().region();
    let has_no_stack = situation.place.proc == MAIN && situation.state.shape.is_empty();
    let mut text = String::new(alloc);
    for zone in situation.task.map().zones() {
        let Some((first, last)) = ram_of(zone) else {
            continue;
        };
        let is_cut = !has_no_stack && first <= region.low && region.top <= last.saturating_add(1);
        if !is_cut {
            write!(text, "{first:04X}-{last:04X} ")?;
            continue;
        }
        if first < region.low {
            let before = region.low.saturating_sub(1);
            write!(text, "{first:04X}-{before:04X} ")?;
        }
        if region.top <= last {
            let top = region.top;
            write!(text, "{top:04X}-{last:04X} ")?;
        }
    }
    text.push_str("and the latches")?;
    Ok(text)
}

/// The first and the last address of the RAM of a zone, without mirrors.
fn ram_of(zone: &Zone) -> Option<(u16, u16)> {
    match zone.write {
        WriteUse::Ram(RamKind::Work | RamKind::Video) => {
            Some((zone.first, zone.first.saturating_add(0x3FF).min(zone.last)))
        }
        WriteUse::Ram(RamKind::Object) => {
            Some((zone.first, zone.first.saturating_add(0xFF).min(zone.last)))
        }
        WriteUse::Rom
        | WriteUse::Latch
        | WriteUse::LatchWithEnable
        | WriteUse::Pitch
        | WriteUse::Open => None,
    }
}

/// The address of the NMI enable that a write may meet: the first of its range with the number 1 of a latch.
fn enable_in(situation: &Situation, write: &DataWrite) -> u16 {
    for zone in situation.task.map().zones() {
        if zone.write == WriteUse::LatchWithEnable {
            let first = zone.first.max(write.at.low());
            let step = 1u16.wrapping_sub(first) % 8;
            return first.saturating_add(step);
        }
    }
    0
}

/// Adds that a write may enable the NMI, and why it must not.
fn add_enabling(
    text: &mut String,
    with: &Wording,
    situation: &Situation,
    reason: Reason,
    write: &DataWrite,
) -> Result<(), FlowFault> {
    let (at, bytes) = (RangeText::words(write.at), RangeText::bytes(write.byte));
    let enable = enable_in(situation, write);
    let odd = if write.byte.low() == write.byte.high() {
        "is odd"
    } else {
        "may be odd"
    };
    if write.at.low() == write.at.high() {
        add_line(
            text,
            format_args!("writes {bytes} to {at}, the NMI enable, and the byte {odd}"),
        )?;
    } else {
        add_line(
            text,
            format_args!(
                "writes {bytes} to {at}; the NMI enable {enable:04X} is in it, and the byte {odd}"
            ),
        )?;
    }
    match reason {
        Reason::NmiBeforeStack => add_line(text, "no LD SP,nn stands before it: SP is unset here"),
        Reason::NmiMissing => add_line(
            text,
            "the annotations name no NMI routine: nmi and budget are missing",
        ),
        _ => add_unarmed(text, with, situation),
    }
}

/// Adds the first cell that is not stored yet.
fn add_unarmed(text: &mut String, with: &Wording, situation: &Situation) -> Result<(), FlowFault> {
    let cells = situation.task.cells();
    let armed = usize::from(situation.state.armed);
    let Some(cell) = cells.get(armed) else {
        return Ok(());
    };
    let (number, count) = (armed.saturating_add(1), cells.len());
    let (place, range) = (with.place(cell.at), RangeText::bytes(cell.range));
    add_line(
        text,
        format_args!(
            "cell {number} of {count}, {place}, is not stored yet: a store to this one address of a byte in {range}, after the cells before it"
        ),
    )
}

/// Adds what a write may leave in a cell.
fn add_cell_range(
    text: &mut String,
    with: &Wording,
    situation: &Situation,
    write: &DataWrite,
) -> Result<(), FlowFault> {
    let map = situation.task.map();
    let ground = situation.task.ground();
    let (at, bytes) = (RangeText::words(write.at), RangeText::bytes(write.byte));
    for cell in ground.armed(situation.state.armed) {
        if map.some_at_cell(write.at, cell.at) && !holds(cell.range, write.byte) {
            let (place, range) = (with.place(cell.at), RangeText::bytes(cell.range));
            return add_line(
                text,
                format_args!("may store {bytes} to {at}; the cell {place} keeps {range}"),
            );
        }
    }
    Ok(())
}
