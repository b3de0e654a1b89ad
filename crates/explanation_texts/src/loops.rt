// Cycles: of calls, of rows without a bound, and loops that do not pay.

use abs_step::NextKind;
use analysis::FlowFault;
use explanations::{Explored, Situation};
use explored_plans::entry_of;
use inferred_rows::ContextPoint;
use loop_bounds::{Change, Variable};
use named_annotations::variable_name;
use refusal_texts::{Wording, add_line};
use row_graph::NaturalLoop;
use std::collections::BTreeMap;

/// Adds a cycle of calls, with the address of each call.
///
/// # Errors
///
/// `NoMemory` where memory was refused.
pub fn add_recursion(
    text: &mut String,
    with: &Wording,
    explored: Option<&Explored>,
    entries: &[u16],
) -> Result<(), FlowFault> {
    let alloc = with.alloc;
    let mut line = String::new(alloc);
    for (place, entry) in entries.iter().enumerate() {
        let next = match entries.get(place.saturating_add(1)) {
            Some(next) => *next,
            None => entries.first().copied().unwrap_or(*entry),
        };
        if place == 0 {
            write!(line, "{}", with.place(*entry))?;
        }
        let call = call_between(with, explored, *entry, next)?;
        let next = with.place(next);
        match call {
            Some(at) => {
                let instr = with.instr_at(at);
                write!(line, " -> {instr} -> {next}")?;
            }
            None => write!(line, " -> {next}")?,
        }
    }
    add_line(text, line.as_str())
}

/// The address of a call of one procedure in another.
fn call_between(
    with: &Wording,
    explored: Option<&Explored>,
    caller: u16,
    callee: u16,
) -> Result<Option<u16>, FlowFault> {
    let Some(explored) = explored else {
        return Ok(None);
    };
    for number in explored
        .list
        .callers_of(with.alloc, analysis::sub_of(callee))?
    {
        let point = ContextPoint::of(number);
        if entry_of(point.proc) == caller {
            return Ok(Some(point.address));
        }
    }
    Ok(None)
}

/// The smallest loop of a timed procedure around an address, and the procedure.
fn timed_loop(
    with: &Wording,
    explored: &Explored,
    at: u16,
) -> Result<Option<(u32, NaturalLoop)>, FlowFault> {
    for (number, _) in explored.list.rows().iter() {
        let point = ContextPoint::of(*number);
        if point.address == at && explored.list.is_timed(point.proc) {
            if let Some(found) = explored.loop_around(with.alloc, point.proc, at)? {
                return Ok(Some((point.proc, found)));
            }
        }
    }
    Ok(None)
}

/// Adds a cycle without a bound: its instructions and where it leads.
///
/// # Errors
///
/// `NoMemory` where memory was refused.
pub fn add_unbounded(
    text: &mut String,
    with: &Wording,
    explored: &Explored,
    at: u16,
) -> Result<(), FlowFault> {
    let alloc = with.alloc;
    let Some((proc, found)) = timed_loop(with, explored, at)? else {
        return add_line(
            text,
            "a loop of the NMI routine, or of what it calls, has no bound",
        );
    };
    add_cycle(text, with, explored, proc, &found)?;
    for entry in explored.task.said().loops() {
        if found.contains(entry.at) {
            let (place, counter) = (with.place(entry.at), variable_name(alloc, entry.counter)?);
            add_line(
                text,
                format_args!("the loop annotated at {place} by {counter} does not bound it"),
            )?;
        }
    }
    Ok(())
}

/// Adds the instructions of a loop, and the addresses to which it leads.
fn add_cycle(
    text: &mut String,
    with: &Wording,
    explored: &Explored,
    proc: u32,
    found: &NaturalLoop,
) -> Result<(), FlowFault> {
    let alloc = with.alloc;
    let mut line = String::from_str(alloc, "the cycle: ")?;
    for (count, at) in found.body.iter().enumerate() {
        if count >= 12 {
            line.push_str("; ..")?;
            break;
        }
        line.push_str(if count > 0 { "; " } else { "" })?;
        let (place, instr) = (with.place(*at), with.instr(*at));
        write!(line, "{place} {instr}")?;
    }
    add_line(text, line.as_str())?;
    let exits = explored.exits(alloc, proc, found)?;
    if exits.is_empty() {
        return add_line(text, "it never ends");
    }
    let places = with.places(exits.as_slice())?;
    add_line(text, format_args!("it leads to {places}"))
}

/// Adds which loop a row that does not pay stands in, and what the loop's counter does.
///
/// # Errors
///
/// `NoMemory` where memory was refused.
pub fn add_time(
    text: &mut String,
    with: &Wording,
    explored: &Explored,
    at: u16,
) -> Result<(), FlowFault> {
    let alloc = with.alloc;
    let Some((proc, found)) = timed_loop(with, explored, at)? else {
        return add_line(
            text,
            "the T-states from here to the end of the procedure are more than its row has left",
        );
    };
    add_cycle(text, with, explored, proc, &found)?;
    add_turn(text, with, explored, proc, &found)?;
    for note in explored.task.said().loops() {
        if !found.contains(note.at) {
            continue;
        }
        let (place, counter) = (with.place(note.at), variable_name(alloc, note.counter)?);
        let mut line = format!(in alloc; "the loop at {place} counts {counter}")?;
        line.push_str(counted_text(with, explored, &found, &note.counter)?.as_str())?;
        add_line(text, line.as_str())?;
    }
    for inner in explored.loops(alloc, proc)? {
        if found.is_around(&inner) {
            let place = with.place(inner.head);
            add_line(text, format_args!("the loop at {place} lies within it"))?;
        }
    }
    Ok(())
}

/// A step from one address of a loop to another, with its T-states.
#[derive(Clone, Copy)]
struct LoopStep {
    from: u16,
    to: u16,
    cost: u32,
}

/// The steps of a loop, without those back to the heads of the loops within it.
fn steps_of(
    with: &Wording,
    explored: &Explored,
    proc: u32,
    found: &NaturalLoop,
) -> Result<Vec<LoopStep>, FlowFault> {
    let alloc = with.alloc;
    let loops = explored.loops(alloc, proc)?;
    let mut steps = Vec::new(alloc);
    for edge in explored.edges() {
        let (from, to) = (ContextPoint::of(edge.from), ContextPoint::of(edge.to));
        let is_own = from.proc == proc && to.proc == proc;
        if !is_own || !found.contains(from.address) || !found.contains(to.address) {
            continue;
        }
        let is_back = loops.iter().any(|inner| found.is_around(inner)
            && inner.head == to.address
            && inner.contains(from.address));
        if !is_back {
            steps.push(LoopStep {
                from: from.address,
                to: to.address,
                cost: cost_of(with, explored, edge.from, to.address),
            })?;
        }
    }
    Ok(steps)
}

/// The T-states of the instruction of a row where it goes on at an address. A call has its own T-states alone.
fn cost_of(with: &Wording, explored: &Explored, row: u64, to: u16) -> u32 {
    let Some(situation) = Situation::at(with.alloc, explored, row) else {
        return 0;
    };
    let Some(nexts) = &situation.judged.nexts else {
        return 0;
    };
    let mut cost = 0;
    for next in nexts.as_slice() {
        if next.kind == NextKind::Call || next.address == to {
            cost = u32::from(next.cost).max(cost);
        }
    }
    cost
}

/// The T-states of the dearest turn of a loop, each step once.
fn turn_cost(with: &Wording, found: &NaturalLoop, steps: &[LoopStep]) -> Result<u32, FlowFault> {
    // The T-states from the head to each address.
    let mut spent = BTreeMap::new(with.alloc);
    spent.insert(found.head, 0u32)?;
    let mut turn = 0u32;
    for _ in 0..found.body.len() {
        let mut is_done = true;
        for step in steps {
            let Some(before) = spent.get(&step.from).copied() else {
                continue;
            };
            let after = step.cost.saturating_add(before);
            if step.to == found.head {
                turn = turn.max(after);
            } else if spent.get(&step.to).copied().unwrap_or(0) < after {
                spent.insert(step.to, after)?;
                is_done = false;
            }
        }
        if is_done {
            break;
        }
    }
    Ok(turn)
}

/// Adds the T-states of a turn of a loop that its counter does not pay.
fn add_turn(
    text: &mut String,
    with: &Wording,
    explored: &Explored,
    proc: u32,
    found: &NaturalLoop,
) -> Result<(), FlowFault> {
    let steps = steps_of(with, explored, proc, found)?;
    let turn = turn_cost(with, found, steps.as_slice())?;
    if turn == 0 {
        return Ok(());
    }
    add_line(
        text,
        format_args!(
            "a turn takes {turn} T-states beside calls and loops within it, and its counter does not pay for them"
        ),
    )
}

/// What the instructions of a loop do to its counter.
fn counted_text(
    with: &Wording,
    explored: &Explored,
    found: &NaturalLoop,
    counter: &Variable,
) -> Result<String, FlowFault> {
    let alloc = with.alloc;
    let name = variable_name(alloc, *counter)?;
    for edge in explored.edges() {
        let (from, to) = (ContextPoint::of(edge.from), ContextPoint::of(edge.to));
        if !found.contains(from.address) || !found.contains(to.address) {
            continue;
        }
        let instr = with.instr_at(from.address);
        match edge.effect.change(*counter) {
            Change::Raised(_) => {
                return Ok(format!(in alloc; ", and {name} goes up by {instr}")?);
            }
            Change::Unknown => {
                return Ok(format!(in alloc;
                    ", and {name} is unknown after {instr}: it has to go down by 1 in each turn"
                )?);
            }
            Change::Old(_) | Change::Lowered(_) | Change::Constant(_) => {}
        }
    }
    Ok(String::new(alloc))
}
