// What counts the turns of loops.

use abs_state::FlagFact;
use analysis::FlowFault;
use explored_plans::{Search, variable_of};
use inferred_rows::InferredRow;
use loop_bounds::{Ranges, Variable};
use row_graph::NaturalLoop;
use z80_decode::{BlockKind, Condition, Instr, Place, Register16, ShortCondition};

fn is_repeating(kind: BlockKind) -> bool {
    matches!(
        kind,
        BlockKind::IncrementRepeat | BlockKind::DecrementRepeat
    )
}

/// What counts the turns of a loop, and whether it goes up.
pub(crate) fn counter_of(
    search: &Search,
    proc: u32,
    of: &NaturalLoop,
) -> Result<Option<(Variable, bool)>, FlowFault> {
    if let Some(counter) = falling_counter(search, proc, of)? {
        return Ok(Some((counter, false)));
    }
    match rising_counter(search, proc, of)? {
        Some(counter) => Ok(Some((counter, true))),
        None => Ok(None),
    }
}

/// What counts the turns of a loop down to 0.
fn falling_counter(
    search: &Search,
    proc: u32,
    of: &NaturalLoop,
) -> Result<Option<Variable>, FlowFault> {
    for source in of.sources.iter().rev() {
        let counter = match search.instr_at(*source) {
            Some(Instr::DecrementJump(_)) => Some(Variable::B),
            Some(Instr::BlockLoad(kind) | Instr::BlockCompare(kind)) if is_repeating(kind) => {
                Some(Variable::Bc)
            }
            Some(
                Instr::JumpRelativeIf(ShortCondition::NotZero, _)
                | Instr::JumpIf(Condition::NotZero, _),
            ) => tested_at(search, proc, *source)?,
            _ => None,
        };
        if counter.is_some() {
            return Ok(counter);
        }
    }
    for at in of.body.iter() {
        let counter = match search.instr_at(*at) {
            Some(
                Instr::JumpRelativeIf(ShortCondition::Zero, _)
                | Instr::JumpIf(Condition::Zero, _)
                | Instr::ReturnIf(Condition::Zero),
            ) => tested_at(search, proc, *at)?,
            _ => None,
        };
        if let Some(counter) = counter {
            if counter != Variable::A {
                return Ok(Some(counter));
            }
        }
    }
    Ok(None)
}

/// The register whose zero the Z flag tells, in each row of a procedure at an address.
fn tested_at(search: &Search, proc: u32, at: u16) -> Result<Option<Variable>, FlowFault> {
    let mut found: Option<Variable> = None;
    for row in search.explored.rows_of(search.alloc, Some(proc), at)? {
        let Some(FlagFact::Zero(register)) = row.state.flag else {
            return Ok(None);
        };
        if let Some(before) = found {
            if before != variable_of(register) {
                return Ok(None);
            }
        }
        found = Some(variable_of(register));
    }
    Ok(found)
}

/// The variable that an instruction raises by 1, if it does.
fn raised_by(instr: &Instr) -> Option<Variable> {
    match instr {
        Instr::Increment(Place::Register(register)) => Some(variable_of(*register)),
        Instr::IncrementPair(Register16::Bc) => Some(Variable::Bc),
        Instr::IncrementPair(Register16::De) => Some(Variable::De),
        Instr::IncrementPair(Register16::Hl) => Some(Variable::Hl),
        Instr::IncrementPair(Register16::Ix) => Some(Variable::Ix),
        Instr::IncrementPair(Register16::Iy) => Some(Variable::Iy),
        _ => None,
    }
}

/// The variable that a loop raises and whose range at the loop's head is the narrowest. One whose range ends at its
/// greatest value is none: nothing bounds it.
fn rising_counter(
    search: &Search,
    proc: u32,
    of: &NaturalLoop,
) -> Result<Option<Variable>, FlowFault> {
    let rows = search.explored.rows_of(search.alloc, Some(proc), of.head)?;
    let mut best: Option<(u16, Variable)> = None;
    for at in of.body.iter() {
        let raised = match search.instr_at(*at) {
            Some(instr) => raised_by(&instr),
            None => None,
        };
        let Some(variable) = raised else {
            continue;
        };
        let Some(width) = width_of(rows.as_slice(), &variable) else {
            continue;
        };
        let is_narrower = match best {
            Some((before, _)) => width < before,
            None => true,
        };
        if is_narrower {
            best = Some((width, variable));
        }
    }
    Ok(best.map(|(_, variable)| variable))
}

/// The greatest value of a register or a pair.
fn greatest_of(variable: &Variable) -> u16 {
    match variable {
        Variable::A
        | Variable::B
        | Variable::C
        | Variable::D
        | Variable::E
        | Variable::H
        | Variable::L => 255,
        _ => u16::MAX,
    }
}

/// The greatest difference of two values of a variable in a row; None if a range ends at the greatest value.
fn width_of(rows: &[&InferredRow], variable: &Variable) -> Option<u16> {
    let mut width = 0u16;
    for row in rows {
        let range = row.state.range(*variable);
        if range.high() >= greatest_of(variable) {
            return None;
        }
        width = width.max(range.high().saturating_sub(range.low()));
    }
    Some(width)
}

/// The first register of eight bits that a loop raises, or else a pair: a pair is a pointer more often.
pub(crate) fn raised_variable(search: &Search, of: &NaturalLoop) -> Option<Variable> {
    let mut pair = None;
    for at in of.body.iter() {
        if let Some(instr) = search.instr_at(*at) {
            if let Some(variable) = raised_by(&instr) {
                if greatest_of(&variable) < 256 {
                    return Some(variable);
                }
                pair = Some(variable);
            }
        }
    }
    pair
}
