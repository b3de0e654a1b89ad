// Loops whose time is bounded: counters, and unrolling where there is none.

use crate::counters::{counter_of, raised_variable};
use crate::unrolling::{Unrolling, first_exits, unrollings};
use analysis::{FlowFault, NMI};
use annotations::{LoopNote, SplitNote, TurnNote};
use explored_plans::{ExploredPlan, Family, Finding, Plan, Search, code_of, register_of, split_of};
use inferred_rows::ContextPoint;
use intervals::ByteRange;
use loop_bounds::Variable;
use row_graph::NaturalLoop;
use z80_decode::Register8;

/// A loop of at most so many turns is unrolled.
const FEW_TURNS: usize = 16;

/// A loop of two turns is unrolled even if it has a counter: where it goes back its counter is a constant, so no
/// multiple of it pays for a turn.
const TWO_TURNS: usize = 2;

/// The timed procedures, rising.
fn timed_procs(search: &Search) -> Result<Vec<u32>, FlowFault> {
    let mut procs = Vec::new(search.alloc);
    let mut last = None;
    for (number, _) in search.explored.list.rows().iter() {
        let proc = ContextPoint::of(*number).proc;
        if last != Some(proc) && search.explored.list.is_timed(proc) {
            procs.push(proc)?;
        }
        last = Some(proc);
    }
    Ok(procs)
}

/// A plan with a counter or a split for each loop of a timed procedure that has none, if there is one to give.
///
/// # Errors
///
/// `NoMemory` where memory was refused.
pub fn with_counters(search: &Search) -> Result<Vec<Plan>, FlowFault> {
    let mut plan = search.explored.plan.copied(search.alloc)?;
    let mut grew = false;
    for proc in timed_procs(search)? {
        let loops = search.loops(proc)?;
        for found in loops.as_slice() {
            let is_known = plan.has_loop(search.context.base(), found.head)
                || has_turns_apart(search, &plan, found);
            if is_known {
                continue;
            }
            for family in bounding(search, proc, found)? {
                plan.findings.push(Finding {
                    family,
                    wanted_at: found.head,
                })?;
                grew = true;
            }
        }
    }
    let mut plans = Vec::new(search.alloc);
    if grew {
        plans.push(plan)?;
    }
    Ok(plans)
}

/// Whether a split at the head of a loop keeps its turns apart: it does not end within the loop.
fn has_turns_apart(search: &Search, plan: &Plan, found: &NaturalLoop) -> bool {
    search
        .context
        .base()
        .given
        .splits
        .iter()
        .any(|split| keeps_apart(split, found))
        || plan.findings.iter().any(|finding| match &finding.family {
            Family::Split(split) => keeps_apart(split, found),
            _ => false,
        })
}

fn keeps_apart(split: &SplitNote, found: &NaturalLoop) -> bool {
    split.at == found.head && (split.until == split.at || !found.contains(split.until))
}

/// What bounds a loop: its counter, or where it has none, a split by turns. A loop of many turns that raises a variable
/// gets that as its counter, with the first turn distinguished: the compare at its end bounds only the others.
fn bounding(search: &Search, proc: u32, found: &NaturalLoop) -> Result<Vec<Family>, FlowFault> {
    let mut families = Vec::new(search.alloc);
    let unrollings = unrollings(search, proc, found)?;
    let first = unrollings.first();
    let turns = match first {
        Some(unrolling) => unrolling.parts.len(),
        None => usize::MAX,
    };
    if turns != TWO_TURNS {
        if let Some((counter, rises)) = counter_of(search, proc, found)? {
            families.push(counted_by(found, counter, rises))?;
            return Ok(families);
        }
    }
    if turns > FEW_TURNS {
        if let Some(counter) = raised_variable(search, found) {
            families.push(Family::Turns(TurnNote {
                head: found.head,
                until: first_exit(search, proc, found)?,
                turns: 2,
            }))?;
            families.push(counted_by(found, counter, true))?;
            return Ok(families);
        }
    }
    if let Some(unrolling) = first {
        families.push(unrolled_by(search, proc, found, unrolling)?)?;
    }
    Ok(families)
}

fn counted_by(found: &NaturalLoop, counter: Variable, rises: bool) -> Family {
    Family::Loop(LoopNote {
        at: found.head,
        counter,
        rises,
    })
}

/// The first exit of a loop; its head if it has none.
fn first_exit(search: &Search, proc: u32, found: &NaturalLoop) -> Result<u16, FlowFault> {
    Ok(match first_exits(search, proc, found)?.first() {
        Some(exit) => *exit,
        None => found.head,
    })
}

/// The split of a loop's turns by a register, up to the loop's first exit.
fn unrolled_by(
    search: &Search,
    proc: u32,
    found: &NaturalLoop,
    unrolling: &Unrolling,
) -> Result<Family, FlowFault> {
    let until = first_exit(search, proc, found)?;
    let parts = unrolling.parts.as_slice();
    let split = split_of(search.alloc, found.head, unrolling.register, parts, until)?;
    Ok(Family::Split(split))
}

/// Plans in which a loop around an address is bounded in another way: a first turn with the counter 0 apart, or a
/// split in the place of the counter.
///
/// # Errors
///
/// `NoMemory` where memory was refused.
pub fn with_other_bounds(search: &mut Search, address: u16) -> Result<Vec<Plan>, FlowFault> {
    let mut plans = Vec::new(search.alloc);
    for proc in search.explored.procs_at(search.alloc, address)? {
        for found in search.loops(proc)? {
            if found.contains(address) {
                add_other_bounds(search, &mut plans, proc, &found)?;
            }
        }
    }
    Ok(plans)
}

fn add_other_bounds(
    search: &mut Search,
    plans: &mut Vec<Plan>,
    proc: u32,
    found: &NaturalLoop,
) -> Result<(), FlowFault> {
    let head = found.head;
    let counter = register_of_loop(search, head);
    if let Some(register) = counter {
        let is_free = !search.explored.plan.has_split(search.context.base(), head);
        if is_free && search.is_new((4, head, 0, 0))? {
            let until = first_exit(search, proc, found)?;
            let mut parts = Vec::new(search.alloc);
            parts.push(ByteRange::single(0))?;
            parts.push(ByteRange::at_least(1))?;
            let split = split_of(search.alloc, head, register, parts.as_slice(), until)?;
            plans.push(
                search
                    .explored
                    .plan
                    .with(search.alloc, Family::Split(split), head)?,
            )?;
        }
    }
    for unrolling in unrollings(search, proc, found)?.iter().take(2) {
        let code = code_of(unrolling.register);
        if search.is_new((5, head, 0, code))? {
            let bare = search.explored.plan.without_at(search.alloc, head)?;
            let family = unrolled_by(search, proc, found, unrolling)?;
            plans.push(bare.with(search.alloc, family, head)?)?;
        }
    }
    Ok(())
}

/// The register of eight bits that counts the loop at an address down, by the plan.
fn register_of_loop(search: &Search, at: u16) -> Option<Register8> {
    for finding in search.explored.plan.findings.as_slice() {
        if let Family::Loop(note) = &finding.family {
            if note.at == at && !note.rises {
                return register_of(note.counter);
            }
        }
    }
    None
}
