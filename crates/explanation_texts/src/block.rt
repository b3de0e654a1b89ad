// The lines about one refusal.

use crate::habits::{Doing, habit_of};
use crate::known::{add_known, add_near};
use crate::loops::add_time;
use crate::remedy::add_remedy;
use crate::whence::add_whence;
use abs_step::{NextKind, Reason};
use address_map::ROM_LIMIT;
use analysis::FlowFault;
use explanations::{Explored, Refusal, Situation, origins_of};
use inferred_rows::{ContextPoint, pointer_of};
use intervals::RegPair;
use loop_bounds::{Part, SlotNumber, Variable};
use refusal_texts::{
    Wording, add_computed, add_decode, add_halt, add_io, add_lacking, add_line, add_misfit,
    add_reached, add_saved, add_sp_write, add_uncovered, add_unset, add_write, facts_of, is_astray,
    jump_pair, proc_of_next, rows_at,
};
use remedies::Remedy;
use std::alloc::Global;
use z80_decode::{Instr, Memory, Place};

/// The name and the number of a reason in brackets: `[6 WriteRom]`.
fn reason_text(with: &Wording, reason: Reason) -> Result<String, FlowFault> {
    let alloc = with.alloc;
    let (number, name) = (reason.number(), str::from_utf8(reason.name()).unwrap_or(""));
    Ok(format!(in alloc; "[{number} {name}]")?)
}

/// Adds the first line of a refusal: the place, the instruction, and the reason.
///
/// # Errors
///
/// `NoMemory` where memory was refused.
pub fn add_head(text: &mut String, with: &Wording, refusal: &Refusal) -> Result<(), FlowFault> {
    let alloc = with.alloc;
    let reason = reason_text(with, refusal.reason)?;
    let place = with.location(refusal.address);
    let line = match (refusal.row, refusal.reason) {
        (None, _) => format!(in alloc; "{place}  {reason}\n")?,
        (Some(_), _) => {
            let instr = with.instr(refusal.address);
            format!(in alloc; "{place}  {instr}  {reason}\n")?
        }
    };
    text.push_str(line.as_str())?;
    Ok(())
}

/// Adds what is wrong at a row.
///
/// # Errors
///
/// `NoMemory` where memory was refused.
pub fn add_what(
    text: &mut String,
    with: &Wording,
    situation: &Situation,
    reason: Reason,
    explored: Option<(&Explored, u64)>,
) -> Result<(), FlowFault> {
    match reason {
        Reason::Decode(fault) => {
            add_decode(text, with, fault, situation.place.address)?;
            match explored {
                Some((explored, row)) => add_reached(text, with, explored, row),
                None => Ok(()),
            }
        }
        Reason::IoSpace => add_io(text),
        Reason::WriteRom
        | Reason::WriteUnmapped
        | Reason::StackOverwrite
        | Reason::NmiBeforeStack
        | Reason::NmiMissing
        | Reason::CellRange
        | Reason::CellUnarmed => add_write(text, with, situation, reason),
        Reason::StackUnset => add_unset(text, with, situation.place.address),
        Reason::StackShape => add_misfit(text, with, situation, explored),
        Reason::SavedRegister(saved) => add_saved(text, with, saved, situation, explored),
        Reason::HaltInNmi => add_halt(text, with, situation, explored),
        Reason::SpWrite => add_sp_write(text, with, situation),
        Reason::NotCovered => match explored {
            Some((explored, row)) => add_not_covered(text, with, situation, explored, row),
            None => Ok(()),
        },
        Reason::Time => match explored {
            Some((explored, _)) => add_time(text, with, explored, situation.place.address),
            None => Ok(()),
        },
        Reason::Rom
        | Reason::Region
        | Reason::Entry
        | Reason::StackDepth
        | Reason::Rank
        | Reason::Budget => Ok(()),
    }
}

/// Adds what is not covered where a row leads.
fn add_not_covered(
    text: &mut String,
    with: &Wording,
    situation: &Situation,
    explored: &Explored,
    row: u64,
) -> Result<(), FlowFault> {
    let address = situation.place.address;
    if let Some(pair) = pair_of_jump(explored, address) {
        return add_computed(text, with, situation, pair);
    }
    if add_lacking(text, with, explored, row)? {
        return Ok(());
    }
    let Some(nexts) = &situation.judged.nexts else {
        return Ok(());
    };
    let facts = facts_of(with, explored, address, situation.state.shape.len())?;
    for next in nexts.as_slice() {
        if next.kind == NextKind::Exit {
            continue;
        }
        let proc = proc_of_next(row, next);
        let rows = rows_at(with, explored, proc, next.address)?;
        if add_uncovered(text, with, situation, &facts, next, &rows)? {
            return Ok(());
        }
    }
    Ok(())
}

fn pair_of_jump(explored: &Explored, address: u16) -> Option<RegPair> {
    jump_pair(&explored.instr_at(address)?)
}

/// The variable whose value a refusal is about.
fn variable_of(explored: &Explored, refusal: &Refusal) -> Option<Variable> {
    let instr = explored.instr_at(refusal.address)?;
    match refusal.reason {
        Reason::WriteRom
        | Reason::WriteUnmapped
        | Reason::StackOverwrite
        | Reason::NmiBeforeStack
        | Reason::NmiMissing
        | Reason::CellRange
        | Reason::CellUnarmed => pointer_of(&instr),
        Reason::NotCovered => pair_jumped_by(&instr),
        _ => None,
    }
}

/// The pair through which an instruction jumps, as a variable.
fn pair_jumped_by(instr: &Instr) -> Option<Variable> {
    match jump_pair(instr)? {
        RegPair::Hl => Some(Variable::Hl),
        RegPair::Ix => Some(Variable::Ix),
        RegPair::Iy => Some(Variable::Iy),
        _ => None,
    }
}

/// Whether a row jumps through a pair that comes from RAM.
fn jumps_by_ram(alloc: Global, explored: &Explored, row: u64) -> Result<bool, FlowFault> {
    let Some(instr) = explored.instr_at(ContextPoint::of(row).address) else {
        return Ok(false);
    };
    let Some(variable) = pair_jumped_by(&instr) else {
        return Ok(false);
    };
    let found = origins_of(alloc, explored, row, variable)?;
    Ok(
        found.iter().any(|origin| match explored.instr_at(origin.at) {
            Some(instr) => reads_ram(&instr),
            None => false,
        }),
    )
}

/// Whether an instruction loads from an address above the ROM, or by an index register.
fn reads_ram(instr: &Instr) -> bool {
    match instr {
        Instr::LoadRegister(_, Place::Memory(Memory::At(_, _))) => true,
        Instr::LoadPairDirect(_, address) => *address >= ROM_LIMIT,
        _ => false,
    }
}

/// What a refused row does, as far as the habit depends on it.
fn doing_of(
    alloc: Global,
    explored: &Explored,
    row: u64,
    situation: &Situation,
) -> Result<Doing, FlowFault> {
    let point = ContextPoint::of(row);
    let around = explored.loop_around(alloc, point.proc, point.address)?;
    Ok(Doing {
        in_loop: around.is_some(),
        jumps: jumps_at(explored, row),
        reads_ram: jumps_by_ram(alloc, explored, row)?,
        pops: situation.state.shape.is_empty(),
        lacks: !explored.lacking(alloc, row)?.is_empty(),
        is_inline: pops_inline_call(alloc, explored, row, situation)?,
    })
}

/// Whether the word on top of the stack is the return address of an inline call.
fn pops_inline_call(
    alloc: Global,
    explored: &Explored,
    row: u64,
    situation: &Situation,
) -> Result<bool, FlowFault> {
    let slots = situation.state.shape.len();
    if slots == 0 {
        return Ok(false);
    }
    let Some(number) = SlotNumber::new(slots.saturating_sub(1).min(63) as u8) else {
        return Ok(false);
    };
    let top = Variable::Slot(number, Part::Word);
    let found = origins_of(alloc, explored, row, top)?;
    Ok(found.iter().any(|origin| { explored.task.said().inlines().contains(&origin.at) }))
}

/// Whether a row is a computed jump, or has no instruction and is reached by one.
fn jumps_at(explored: &Explored, row: u64) -> bool {
    let address = ContextPoint::of(row).address;
    if explored.instr_at(address).is_some() {
        return pair_of_jump(explored, address).is_some();
    }
    explored.incoming(row).iter().any(|edge| pair_of_jump(
        explored,
        ContextPoint::of(edge.from).address,
    ).is_some())
}

/// Adds the lines about one refused row: where, what, whence, what is known, the annotations in reach, and a remedy.
///
/// # Errors
///
/// `NoMemory` where memory was refused.
pub fn add_block(
    text: &mut String,
    with: &Wording,
    explored: &Explored,
    refusal: &Refusal,
    remedy: &Remedy,
) -> Result<(), FlowFault> {
    let alloc = with.alloc;
    add_head(text, with, refusal)?;
    let mut doing = Doing {
        in_loop: false,
        jumps: pair_of_jump(explored, refusal.address).is_some(),
        reads_ram: false,
        pops: false,
        lacks: false,
        is_inline: false,
    };
    let mut astray = false;
    if let Some(row) = refusal.row {
        if let Some(situation) = Situation::at(alloc, explored, row) {
            add_what(
                text,
                with,
                &situation,
                refusal.reason,
                Some((explored, row)),
            )?;
            if let Some(variable) = variable_of(explored, refusal) {
                add_whence(text, with, explored, row, &variable)?;
            }
            add_known(text, with, &situation)?;
            add_near(text, with, explored, row)?;
            doing = doing_of(alloc, explored, row, &situation)?;
            astray = is_astray(&situation, refusal.reason);
        }
    }
    if astray && matches!(remedy, Remedy::Unknown) {
        add_line(
            text,
            "try: no annotation helps; write to an address that is allowed: docs/HABITS.md, 3 \"Keep code and data apart\"",
        )?;
    } else {
        let habit = habit_of(refusal.reason, doing);
        add_remedy(text, with, remedy, habit)?;
    }
    let number = refusal.reason.number();
    write!(text, "  see: galcert explain {number}\n")?;
    Ok(())
}
