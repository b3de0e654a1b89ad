// Splits that distinguish the turns of a loop.

use abs_state::AbsState;
use analysis::{FlowFault, MAIN, NMI};
use annotations::TurnNote;
use explored_plans::{
    ByteSet, ExploredPlan, Family, OF_RANGES, REGISTERS, Search, code_of, entry_of, split_of,
};
use inferred_rows::ContextPoint;
use intervals::ByteRange;
use plan_values::{Splitting, singles, with_split};
use row_graph::{NaturalLoop, turns_of};
use z80_decode::Register8;

/// The most addresses of a loop before a refused row that is unrolled for it.
const ADDRESSES: usize = 40;

/// How many registers are tried for a loop.
const REGISTERS_TRIED: usize = 3;

/// A register that distinguishes the turns of a loop, and its range in each.
#[derive(Drop)]
pub(crate) struct Unrolling {
    pub(crate) register: Register8,
    pub(crate) parts: Vec<ByteRange>,
}

/// The registers by which the turns of a loop are distinguished.
pub(crate) fn unrollings(
    search: &Search,
    proc: u32,
    of: &NaturalLoop,
) -> Result<Vec<Unrolling>, FlowFault> {
    let mut found = Vec::new(search.alloc);
    let Some(task) = search.context.task(&search.explored.said) else {
        return Ok(found);
    };
    let Some(turns) = turns_of(search.alloc, &task, &search.explored.list, proc, of)? else {
        return Ok(found);
    };
    let is_long = turns.len() > 70 && !search.explored.list.is_timed(proc) && of.body.len() > 8;
    if turns.len() < 2 || is_long {
        return Ok(found);
    }
    for register in ORDER {
        if let Some(parts) = parts_apart(search, &turns, register)? {
            found.push(Unrolling { register, parts })?;
        }
    }
    for register in REGISTERS {
        if found.iter().any(|other| is_same(other.register, register)) {
            continue;
        }
        if let Some(parts) = parts_sliding(search, &turns, register)? {
            found.push(Unrolling { register, parts })?;
        }
    }
    Ok(found)
}

/// The ranges of a register turn by turn, if no two share a value.
fn parts_apart(
    search: &Search,
    turns: &[AbsState],
    register: Register8,
) -> Result<Option<Vec<ByteRange>>, FlowFault> {
    let mut parts = Vec::new(search.alloc);
    for state in turns {
        let range = state.byte(register);
        if range.high().saturating_sub(range.low()) > 63 {
            return Ok(None);
        }
        parts.push(range)?;
    }
    parts.sort_unstable_by_key(|part| part.low());
    let mut last: Option<ByteRange> = None;
    for part in parts.as_slice() {
        if let Some(last) = last {
            if last.high() >= part.low() {
                return Ok(None);
            }
        }
        last = Some(*part);
    }
    Ok(Some(parts))
}

/// A part for each value of a register whose range moves one way, turn by turn.
fn parts_sliding(
    search: &Search,
    turns: &[AbsState],
    register: Register8,
) -> Result<Option<Vec<ByteRange>>, FlowFault> {
    let mut values = ByteSet::empty();
    let (mut rises, mut falls) = (true, true);
    let mut last: Option<ByteRange> = None;
    for state in turns {
        let range = state.byte(register);
        if range.high().saturating_sub(range.low()) > 40 {
            return Ok(None);
        }
        values.add_range(range);
        if let Some(last) = last {
            if last == range {
                return Ok(None);
            }
            rises = rises && last.low() <= range.low() && last.high() <= range.high();
            falls = falls && last.low() >= range.low() && last.high() >= range.high();
        }
        last = Some(range);
    }
    if values.len() > 41 || !(rises || falls) {
        return Ok(None);
    }
    Ok(Some(singles(search, &values)?))
}

/// A plan with a loop unrolled, around a refused row, before it, or around a call of its procedure.
pub fn try_unroll(
    search: &mut Search,
    refused: u16,
) -> Result<Option<Box<ExploredPlan>>, FlowFault> {
    let procs = search.explored.procs_at(search.alloc, refused)?;
    for proc in procs.as_slice() {
        let before = search
            .graph
            .before(search.alloc, *proc, refused, ADDRESSES as u16)?;
        for around in [true, false] {
            for found in search.loops(*proc)? {
                if found.contains(refused) != around {
                    continue;
                }
                let is_near = before.iter().any(|at| found.contains(*at));
                if !around && (!is_near || found.body.len() > ADDRESSES) {
                    continue;
                }
                let explored = unrolled(search, refused, *proc, &found)?;
                if explored.is_some() || !search.has_trials() {
                    return Ok(explored);
                }
            }
        }
    }
    for proc in procs {
        if proc != MAIN && proc != NMI {
            let explored = unrolled_in_callers(search, refused, proc)?;
            if explored.is_some() || !search.has_trials() {
                return Ok(explored);
            }
        }
    }
    Ok(None)
}

/// A plan in which the first turn of a loop around a refused row is distinguished from the others.
pub fn try_first_turn(
    search: &mut Search,
    refused: u16,
) -> Result<Option<Box<ExploredPlan>>, FlowFault> {
    if !search.explored.refusals_at(refused).has_any(&OF_RANGES) {
        return Ok(None);
    }
    for proc in search.explored.procs_at(search.alloc, refused)? {
        for found in search.loops(proc)? {
            if !found.contains(refused) || !search.is_new((7, refused, found.head, 0))? {
                continue;
            }
            let until = match first_exits(search, proc, &found)?.first() {
                Some(exit) => *exit,
                None => found.head,
            };
            let family = Family::Turns(TurnNote {
                head: found.head,
                until,
                turns: 2,
            });
            if let Some(explored) = search.try_family(family, refused)? {
                if search.explored.is_bettered_by(&explored, refused) {
                    return Ok(Some(explored));
                }
            }
        }
    }
    Ok(None)
}

/// A plan with a loop unrolled that takes the refusals at an address away.
fn unrolled(
    search: &mut Search,
    refused: u16,
    proc: u32,
    found: &NaturalLoop,
) -> Result<Option<Box<ExploredPlan>>, FlowFault> {
    let exits = first_exits(search, proc, found)?;
    for unrolling in unrollings(search, proc, found)?
        .iter()
        .take(REGISTERS_TRIED)
    {
        let splitting = Splitting {
            proc,
            at: found.head,
            register: unrolling.register,
            parts: unrolling.parts.as_slice(),
            ends: exits.as_slice(),
        };
        let explored = with_split(search, refused, splitting)?;
        if explored.is_some() || !search.has_trials() {
            return Ok(explored);
        }
    }
    Ok(None)
}

/// The first two exits of a loop.
pub(crate) fn first_exits(
    search: &Search,
    proc: u32,
    found: &NaturalLoop,
) -> Result<Vec<u16>, FlowFault> {
    let mut exits = found.exits(search.alloc, &search.graph, proc)?;
    exits.truncate(2);
    Ok(exits)
}

/// A plan with a loop unrolled in a procedure that calls the one of a refused row.
fn unrolled_in_callers(
    search: &mut Search,
    refused: u16,
    proc: u32,
) -> Result<Option<Box<ExploredPlan>>, FlowFault> {
    let callers = search.explored.list.callers_of(search.alloc, proc)?;
    let mut procs = Vec::new(search.alloc);
    for caller in callers.as_slice() {
        procs.push(ContextPoint::of(*caller).proc)?;
    }
    procs.sort_unstable();
    procs.dedup();
    for caller in procs {
        for found in search.loops(caller)? {
            let calls_here = callers.iter().any(|number| {
                let point = ContextPoint::of(*number);
                point.proc == caller && found.contains(point.address)
            });
            if !calls_here {
                continue;
            }
            let explored = unrolled(search, refused, caller, &found)?;
            if explored.is_some() || !search.has_trials() {
                return Ok(explored);
            }
            let explored = unrolled_twice(search, refused, caller, &found, entry_of(proc))?;
            if explored.is_some() || !search.has_trials() {
                return Ok(explored);
            }
        }
    }
    Ok(None)
}

/// A plan with a loop unrolled at its head, and by the same register at the entry of a callee.
fn unrolled_twice(
    search: &mut Search,
    refused: u16,
    proc: u32,
    found: &NaturalLoop,
    entry: u16,
) -> Result<Option<Box<ExploredPlan>>, FlowFault> {
    let until = match first_exits(search, proc, found)?.first() {
        Some(exit) => *exit,
        None => found.head,
    };
    for unrolling in unrollings(search, proc, found)?
        .iter()
        .take(REGISTERS_TRIED)
    {
        let parts = unrolling.parts.as_slice();
        let outer = split_of(search.alloc, found.head, unrolling.register, parts, until)?;
        let inner = split_of(search.alloc, entry, unrolling.register, parts, entry)?;
        let plan = search
            .explored
            .plan
            .with(search.alloc, Family::Split(outer), refused)?
            .with(search.alloc, Family::Split(inner), refused)?;
        if let Some(explored) = search.try_plan(plan)? {
            if search.explored.is_bettered_by(&explored, refused) {
                return Ok(Some(explored));
            }
        }
    }
    Ok(None)
}

/// The registers in the order in which loops count by them.
const ORDER: [Register8; 7] = [
    Register8::B,
    Register8::C,
    Register8::A,
    Register8::L,
    Register8::D,
    Register8::E,
    Register8::H,
];

fn is_same(one: Register8, other: Register8) -> bool {
    code_of(one) == code_of(other)
}
