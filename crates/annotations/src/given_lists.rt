// The lists of annotations that only a writer that infers reads (docs/ANNOTATIONS.md, "Keys for `--infer`").

use crate::fault::Wrong;
use crate::lists::{each_once, keep};
use crate::notes::{FactNote, LoopNote, RangeNote, TurnNote};
use crate::tables::{formed, items, member, number, table_with, value_at};
use crate::values::{fact, variable, word};
use cert_fields::variable_field;
use intervals::WordRange;
use loop_bounds::{Part, Variable};
use std::alloc::Global;
use toml::{Table, Value};

/// The facts, by address; those of one address in the order of the text. A fact may name a part of a split.
pub(crate) fn facts_given(alloc: Global, table: &Table) -> Result<Vec<FactNote>, Wrong> {
    let mut facts = Vec::new(alloc);
    for item in items(table, "fact")? {
        keep(&mut facts, fact_given(item)?)?;
    }
    if facts.sort_by_key(|note| note.at).is_err() {
        return Err(Wrong::NoMemory);
    }
    Ok(facts)
}

fn fact_given(item: &Value) -> Result<FactNote, Wrong> {
    let part = match item.as_table() {
        Some(inner) => part_of(inner)?,
        None => return Err(Wrong::Form),
    };
    let inner = match part {
        Some(_) => table_with(item, &["at", "sum", "is", "part"])?,
        None => table_with(item, &["at", "sum", "is"])?,
    };
    Ok(FactNote {
        at: number(inner, "at")?,
        fact: formed(fact(member(inner, "sum")?, member(inner, "is")?))?,
        part,
    })
}

/// The number of a part, if a fact names one. Parts are counted from 1.
fn part_of(table: &Table) -> Result<Option<u16>, Wrong> {
    match value_at(table, "part") {
        Some(value) => match formed(word(value))? {
            0 => Err(Wrong::Form),
            part => Ok(Some(part)),
        },
        None => Ok(None),
    }
}

/// The loops; two at one address are a fault. A counter with a sign goes up.
pub(crate) fn loops_given(alloc: Global, table: &Table) -> Result<Vec<LoopNote>, Wrong> {
    let mut loops = Vec::new(alloc);
    for item in items(table, "loop")? {
        let inner = table_with(item, &["at", "counter"])?;
        let (counter, rises) = formed(counter_of(member(inner, "counter")?))?;
        let note = LoopNote {
            at: number(inner, "at")?,
            counter,
            rises,
        };
        keep(&mut loops, note)?;
    }
    loops.sort_unstable_by_key(|note| note.at);
    each_once(loops.is_sorted_by(|note, next| note.at < next.at))?;
    Ok(loops)
}

/// A variable, and whether a sign stands before it.
fn counter_of(value: &Value) -> Option<(Variable, bool)> {
    let name = value.as_str()?.as_bytes();
    match name {
        [b'-', rest @ ..] => Some((variable_field(rest)?, true)),
        _ => Some((variable_field(name)?, false)),
    }
}

/// The ranges, by address; those of one address in the order of the text.
pub(crate) fn ranges_given(alloc: Global, table: &Table) -> Result<Vec<RangeNote>, Wrong> {
    let mut ranges = Vec::new(alloc);
    for item in items(table, "range")? {
        let inner = table_with(item, &["at", "variable", "lo", "hi"])?;
        let of = formed(variable(member(inner, "variable")?))?;
        let range = formed(WordRange::new(number(inner, "lo")?, number(inner, "hi")?))?;
        if range.high() > most_of(of) {
            return Err(Wrong::Form);
        }
        let note = RangeNote {
            at: number(inner, "at")?,
            variable: of,
            range,
        };
        keep(&mut ranges, note)?;
    }
    if ranges.sort_by_key(|note| note.at).is_err() {
        return Err(Wrong::NoMemory);
    }
    Ok(ranges)
}

/// The greatest value of a variable.
fn most_of(variable: Variable) -> u16 {
    match variable {
        Variable::Bc
        | Variable::De
        | Variable::Hl
        | Variable::Ix
        | Variable::Iy
        | Variable::Slot(_, Part::Word) => u16::MAX,
        Variable::A
        | Variable::B
        | Variable::C
        | Variable::D
        | Variable::E
        | Variable::H
        | Variable::L
        | Variable::Slot(_, Part::High | Part::Low) => 255,
    }
}

/// The addresses of calls whose states are distinguished in the callee, each once.
pub(crate) fn contexts_given(alloc: Global, table: &Table) -> Result<Vec<u16>, Wrong> {
    let mut calls = Vec::new(alloc);
    for item in items(table, "context")? {
        let inner = table_with(item, &["at"])?;
        keep(&mut calls, number(inner, "at")?)?;
    }
    calls.sort_unstable();
    calls.dedup();
    Ok(calls)
}

/// The loops whose turns are distinguished; two at one address are a fault.
pub(crate) fn turns_given(alloc: Global, table: &Table) -> Result<Vec<TurnNote>, Wrong> {
    let mut turns = Vec::new(alloc);
    for item in items(table, "turns")? {
        let inner = table_with(item, &["at", "count", "until"])?;
        let note = TurnNote {
            head: number(inner, "at")?,
            until: number(inner, "until")?,
            turns: number(inner, "count")?,
        };
        if note.turns < 1 || note.turns > 255 {
            return Err(Wrong::Form);
        }
        keep(&mut turns, note)?;
    }
    turns.sort_unstable_by_key(|note| note.head);
    each_once(turns.is_sorted_by(|note, next| note.head < next.head))?;
    Ok(turns)
}
