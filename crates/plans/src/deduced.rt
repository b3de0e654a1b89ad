// What a ROM says of its board, its stack and its NMI routine.

use crate::base::Base;
use address_map::{Region, Rom};
use analysis::FlowFault;
use annotations::Given;
use board_fetch::fetch;
use cert_lines::BoardMap;
use std::alloc::Global;
use std::collections::BTreeSet;
use z80_decode::{Instr, Register16};

/// More instructions than a ROM has.
const INSTRUCTIONS: u32 = 100_000;

/// The two addresses at most to which an instruction leads, the next one last.
#[derive(Clone, Copy)]
struct Leading {
    other: Option<u16>,
    next: Option<u16>,
}

/// The address to which a relative jump leads, from the address after it.
fn relative(after: u16, by: u8) -> u16 {
    let up = after.wrapping_add(u16::from(by));
    if by < 128 { up } else { up.wrapping_sub(256) }
}

fn leads_from(instr: &Instr, after: u16) -> Leading {
    match instr {
        Instr::Jump(to) => Leading {
            other: Some(*to),
            next: None,
        },
        Instr::JumpRelative(by) => Leading {
            other: Some(relative(after, *by)),
            next: None,
        },
        Instr::JumpIf(_, to) | Instr::Call(to) | Instr::CallIf(_, to) => Leading {
            other: Some(*to),
            next: Some(after),
        },
        Instr::JumpRelativeIf(_, by) | Instr::DecrementJump(by) => Leading {
            other: Some(relative(after, *by)),
            next: Some(after),
        },
        Instr::JumpTo(_)
        | Instr::Return
        | Instr::ReturnFromInterrupt
        | Instr::ReturnFromNonMaskable => Leading {
            other: None,
            next: None,
        },
        _ => Leading {
            other: None,
            next: Some(after),
        },
    }
}

/// The word of the first LD SP,nn on the way from 0000, where straight code comes before jumps.
pub(crate) fn first_top(alloc: Global, rom: &Rom) -> Result<Option<u16>, FlowFault> {
    let mut seen = BTreeSet::new(alloc);
    let mut todo = Vec::new(alloc);
    todo.push(0u16)?;
    for _ in 0..INSTRUCTIONS {
        let Some(address) = todo.pop() else {
            return Ok(None);
        };
        if !seen.insert(address)? {
            continue;
        }
        let Ok((instr, len)) = fetch(rom, address) else {
            continue;
        };
        if let Instr::LoadPair(Register16::Sp, word) = instr {
            return Ok(Some(word));
        }
        let leading = leads_from(&instr, address.wrapping_add(u16::from(len)));
        if let Some(other) = leading.other {
            todo.push(other)?;
        }
        if let Some(next) = leading.next {
            todo.push(next)?;
        }
    }
    Ok(None)
}

/// The first board in whose work RAM the byte below the top of the stack lies; the Galaxian one if there is none.
pub(crate) fn board_of_top(rom: &Rom, top: u16) -> BoardMap {
    let below = top.wrapping_sub(1);
    for board in BoardMap::ALL {
        if board.map(rom.len()).is_work(below) {
            return board;
        }
    }
    BoardMap::Galaxian
}
