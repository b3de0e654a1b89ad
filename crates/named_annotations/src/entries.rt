// Notes in the source as entries of annotations.

use crate::spelled_names::{register_name, variable_name};
use intervals::ByteRange;
use loop_bounds::Linear;
use source_notes::{NoteKind, SourceNote};
use std::alloc::{AllocError, Global};
use toml::{Table, Value};

/// An entry of annotations: the key of its array, and its table.
#[derive(Drop)]
pub(crate) struct NewEntry {
    pub(crate) key: &'static str,
    pub(crate) table: Table,
}

/// A table that grows.
#[derive(Drop)]
struct Building {
    alloc: Global,
    table: Table,
}

impl Building {
    fn set(&mut self, key: &str, value: Value) -> Result<(), AllocError> {
        self.table
            .insert(String::from_str(self.alloc, key)?, value)?;
        Ok(())
    }

    fn number(&mut self, key: &str, number: i64) -> Result<(), AllocError> {
        self.set(key, Value::Integer(number))
    }

    fn text(&mut self, key: &str, text: &str) -> Result<(), AllocError> {
        let value = Value::string(self.alloc, text)?;
        self.set(key, value)
    }
}

/// The entry that says what a note says. What a fact is carried through is left out.
pub(crate) fn entry_of(alloc: Global, note: &SourceNote) -> Result<NewEntry, AllocError> {
    let mut entry = Building {
        alloc,
        table: Table::new(alloc),
    };
    entry.number("at", i64::from(note.at))?;
    let key = match &note.kind {
        NoteKind::Inline => "inline",
        NoteKind::Loop(variable) => {
            let name = variable_name(alloc, *variable)?;
            entry.text("counter", name.as_str())?;
            "loop"
        }
        NoteKind::Fact { fact, .. } => {
            add_fact(&mut entry, fact)?;
            "fact"
        }
        NoteKind::Split {
            register,
            parts,
            until,
        } => {
            entry.text("register", register_name(*register))?;
            let parts = parts_of(alloc, parts.as_slice())?;
            entry.set("parts", Value::Array(parts))?;
            entry.number("until", i64::from(*until))?;
            "split"
        }
        NoteKind::Cell(range) => {
            entry.number("lo", i64::from(range.low()))?;
            entry.number("hi", i64::from(range.high()))?;
            "cell"
        }
    };
    Ok(NewEntry {
        key,
        table: entry.table,
    })
}

/// The entry of a fact at an address.
pub(crate) fn fact_entry(alloc: Global, at: u16, fact: &Linear) -> Result<NewEntry, AllocError> {
    let mut entry = Building {
        alloc,
        table: Table::new(alloc),
    };
    entry.number("at", i64::from(at))?;
    add_fact(&mut entry, fact)?;
    Ok(NewEntry {
        key: "fact",
        table: entry.table,
    })
}

/// Adds a sum and what it is.
fn add_fact(entry: &mut Building, fact: &Linear) -> Result<(), AllocError> {
    let alloc = entry.alloc;
    let mut sum = Vec::new(alloc);
    for term in fact.terms() {
        let mut pair = Vec::new(alloc);
        let name = variable_name(alloc, term.variable)?;
        pair.push(Value::String(name))?;
        pair.push(Value::Integer(i64::from(term.coefficient)))?;
        sum.push(Value::Array(pair))?;
    }
    entry.set("sum", Value::Array(sum))?;
    entry.number("is", -i64::from(fact.constant()))
}

/// The parts of a split as pairs of their ends.
fn parts_of(alloc: Global, parts: &[ByteRange]) -> Result<Vec<Value>, AllocError> {
    let mut pairs = Vec::new(alloc);
    for part in parts {
        let mut pair = Vec::new(alloc);
        pair.push(Value::Integer(i64::from(part.low())))?;
        pair.push(Value::Integer(i64::from(part.high())))?;
        pairs.push(Value::Array(pair))?;
    }
    Ok(pairs)
}
