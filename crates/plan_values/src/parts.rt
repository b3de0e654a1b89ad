// Parts that a split lacks.

use analysis::FlowFault;
use annotations::SplitNote;
use explored_plans::{
    ByteSet, ExploredPlan, Family, PARTS, Plan, Search, copy_of_split, exploring,
};
use inferred_rows::ContextPoint;
use inferring::SplitReach;
use intervals::ByteRange;
use row_graph::{NaturalLoop, turns_of};
use row_worklist::Watch;

/// A plan in which a split has the parts that states of a refused row lack, after those that it has. The rows of the
/// other parts stay.
pub fn try_parts(
    search: &mut Search,
    refused: u16,
) -> Result<Option<Box<ExploredPlan>>, FlowFault> {
    if !search.explored.refusals_at(refused).has(0) {
        return Ok(None);
    }
    for (proc, at, range) in lacking_at(search, refused)? {
        let Some(split) = split_found_at(search, at)? else {
            continue;
        };
        let Some(parts) = more_parts(search, proc, &split, range)? else {
            continue;
        };
        let attempt = (2, at, refused, parts.len() as u64);
        if !search.is_new(attempt)? {
            continue;
        }
        let plan = plan_with_parts(search, at, parts.as_slice())?;
        let reach = SplitReach {
            at,
            until: split.until,
            is_longer: true,
        };
        if let Some(explored) = search.try_reaches(plan, &[reach], Watch::Nothing)? {
            if !search.explored.is_worse(&explored) {
                return Ok(Some(explored));
            }
        }
    }
    Ok(None)
}

/// The splits to which rows at an address send states that lack a part: the procedure, the split's address, and the
/// register's range.
fn lacking_at(search: &Search, refused: u16) -> Result<Vec<(u32, u16, ByteRange)>, FlowFault> {
    let mut all = Vec::new(search.alloc);
    let Some(task) = search.context.task(&search.explored.said) else {
        return Ok(all);
    };
    let setting = exploring(&task, &search.explored.guide);
    for (_, number) in search.explored.rows_at(refused) {
        for (at, range) in search
            .explored
            .list
            .lacking(search.alloc, setting, *number)?
        {
            all.push((ContextPoint::of(*number).proc, at, range))?;
        }
    }
    Ok(all)
}

/// A copy of the split at an address, if the search found it.
fn split_found_at(search: &Search, at: u16) -> Result<Option<SplitNote>, FlowFault> {
    for finding in search.explored.plan.findings.as_slice() {
        if let Family::Split(split) = &finding.family {
            if split.at == at {
                return Ok(Some(copy_of_split(search.alloc, split)?));
            }
        }
    }
    Ok(None)
}

/// The parts of a split with those that a range lacks: the turns of the loop at its address, or single values.
fn more_parts(
    search: &Search,
    proc: u32,
    split: &SplitNote,
    range: ByteRange,
) -> Result<Option<Vec<ByteRange>>, FlowFault> {
    let mut have = ByteSet::empty();
    for part in split.parts.as_slice() {
        have.add_range(*part);
    }
    let mut parts = Vec::from_slice(search.alloc, split.parts.as_slice())?;
    for turn in turns_at(search, proc, split)? {
        if !touches(&have, turn) {
            have.add_range(turn);
            parts.push(turn)?;
        }
    }
    for value in range.low()..=range.high() {
        if !have.contains(value) {
            have.add(value);
            parts.push(ByteRange::single(value))?;
        }
    }
    if parts.len() == split.parts.len() || parts.len() > 4 * PARTS {
        return Ok(None);
    }
    Ok(Some(parts))
}

/// The ranges of a split's register turn by turn, where the split is at the head of a loop.
fn turns_at(search: &Search, proc: u32, split: &SplitNote) -> Result<Vec<ByteRange>, FlowFault> {
    let mut ranges = Vec::new(search.alloc);
    let Some(found) = loop_at(search, proc, split.at)? else {
        return Ok(ranges);
    };
    let Some(task) = search.context.task(&search.explored.said) else {
        return Ok(ranges);
    };
    if let Some(turns) = turns_of(search.alloc, &task, &search.explored.list, proc, &found)? {
        for state in turns.as_slice() {
            ranges.push(state.byte(split.register))?;
        }
    }
    Ok(ranges)
}

/// The loop with its head at an address, of a procedure or else of another that has the address.
fn loop_at(search: &Search, proc: u32, head: u16) -> Result<Option<NaturalLoop>, FlowFault> {
    for found in search.loops(proc)? {
        if found.head == head {
            return Ok(Some(found));
        }
    }
    for other in search.explored.procs_at(search.alloc, head)? {
        for found in search.loops(other)? {
            if found.head == head {
                return Ok(Some(found));
            }
        }
    }
    Ok(None)
}

/// The plan with other parts of the split at an address.
fn plan_with_parts(search: &Search, at: u16, parts: &[ByteRange]) -> Result<Plan, FlowFault> {
    let mut plan = search.explored.plan.copied(search.alloc)?;
    for finding in &mut plan.findings {
        if let Family::Split(split) = &mut finding.family {
            if split.at == at {
                split.parts = Vec::from_slice(search.alloc, parts)?;
            }
        }
    }
    Ok(plan)
}

/// Whether a set has a byte of a range.
fn touches(set: &ByteSet, range: ByteRange) -> bool {
    for byte in range.low()..=range.high() {
        if set.contains(byte) {
            return true;
        }
    }
    false
}
