// Adds what notes say to annotations.

use crate::entries::NewEntry;
use crate::fault::NamedFault;
use source_notes::SourceNotes;
use std::alloc::Global;
use toml::{Table, Value};

/// Annotations to which notes are added.
#[derive(Drop)]
pub(crate) struct Merging {
    pub(crate) alloc: Global,
    pub(crate) table: Table,
}

impl Merging {
    /// Adds what notes say about the whole ROM.
    pub(crate) fn whole(&mut self, notes: &SourceNotes) -> Result<(), NamedFault> {
        if let Some(said) = notes.stack {
            let (low, top) = (said.value.low, said.value.top);
            self.key(
                "low",
                Value::Integer(i64::from(low)),
                said.line,
                "the stack",
            )?;
            self.key(
                "top",
                Value::Integer(i64::from(top)),
                said.line,
                "the stack",
            )?;
        }
        if let Some(said) = notes.nmi {
            self.key("nmi", Value::Boolean(true), said.line, "the NMI routine")?;
            if let Some(budget) = said.value.budget {
                let budget = Value::Integer(i64::from(budget));
                self.key("budget", budget, said.line, "the NMI routine")?;
            }
        }
        if let Some(said) = notes.map {
            let name = str::from_utf8(said.value.name()).unwrap_or("");
            let name = Value::string(self.alloc, name)?;
            self.key("map", name, said.line, "the map")?;
        }
        Ok(())
    }

    /// Adds a key. `Conflict` if it is there with another value; `line` is that of the note.
    fn key(
        &mut self,
        key: &str,
        value: Value,
        line: u32,
        what: &'static str,
    ) -> Result<(), NamedFault> {
        match self.table.get(key) {
            Some(before) if *before == value => Ok(()),
            Some(_) => Err(NamedFault::Conflict { line, what }),
            None => {
                self.table
                    .insert(String::from_str(self.alloc, key)?, value)?;
                Ok(())
            }
        }
    }

    /// Adds an entry, if the annotations do not have it. `Conflict` if they have another split, loop or cell at the
    /// address; `line` is that of the note. Where the key's value is no array, nothing is added: the key is bad.
    pub(crate) fn entry(&mut self, entry: NewEntry, line: u32) -> Result<(), NamedFault> {
        let NewEntry { key, table } = entry;
        if !self.table.contains_key(key) {
            let none = Value::Array(Vec::new(self.alloc));
            self.table.insert(String::from_str(self.alloc, key)?, none)?;
        }
        let Some(Value::Array(items)) = self.table.get_mut(key) else {
            return Ok(());
        };
        let at = table.get("at");
        for item in items.iter() {
            let Value::Table(before) = item else {
                continue;
            };
            if says_same(before, &table) {
                return Ok(());
            }
            if let Some(what) = alone(key) {
                if before.get("at") == at {
                    return Err(NamedFault::Conflict { line, what });
                }
            }
        }
        items.push(Value::Table(table))?;
        Ok(())
    }
}

/// Whether two entries say the same: they are equal, or two facts whose sums have the same terms in another order.
fn says_same(before: &Table, entry: &Table) -> bool {
    *before == *entry
        || (before.len() == entry.len()
            && before.get("at") == entry.get("at")
            && before.get("is") == entry.get("is")
            && has_same_terms(before.get("sum"), entry.get("sum")))
}

/// Whether two sums have the same terms, in any order.
fn has_same_terms(one: Option<&Value>, other: Option<&Value>) -> bool {
    let (Some(Value::Array(one)), Some(Value::Array(other))) = (one, other) else {
        return false;
    };
    for term in one.iter() {
        if times(one.as_slice(), term) != times(other.as_slice(), term) {
            return false;
        }
    }
    one.len() == other.len()
}

/// How many times a sum has a term.
fn times(terms: &[Value], term: &Value) -> usize {
    terms.iter().filter(|other| *other == term).count()
}

/// What may be said once at an address.
fn alone(key: &str) -> Option<&'static str> {
    match key {
        "split" => Some("the split"),
        "loop" => Some("the loop"),
        "cell" => Some("the cell"),
        _ => None,
    }
}
