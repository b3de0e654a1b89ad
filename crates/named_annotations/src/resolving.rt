// Texts in annotations that stand for addresses.

use crate::fault::UnknownName;
use std::alloc::{AllocError, Global};
use symbols::{ResolveFault, Symbols};
use toml::{Table, Value};

/// The keys whose value is an address.
const ADDRESSES: [&str; 2] = ["low", "top"];

/// The keys that have an array of tables.
const LISTS: [&str; 8] = [
    "inline", "split", "fact", "loop", "cell", "range", "context", "turns",
];

/// The keys of such a table whose value is an address.
const MEMBERS: [&str; 2] = ["at", "until"];

/// Texts that are to be replaced by the addresses that they name.
#[derive(Drop)]
pub(crate) struct Resolving<'s> {
    pub(crate) alloc: Global,
    pub(crate) symbols: &'s Symbols,
    /// The texts that name no address, in their order.
    pub(crate) unknown: Vec<UnknownName>,
}

impl Resolving<'_> {
    /// Replaces each text in annotations that stands for an address by its number. A text that names none stays.
    pub(crate) fn resolve(&mut self, table: &mut Table) -> Result<(), AllocError> {
        for key in ADDRESSES {
            self.member(table, key)?;
        }
        for key in LISTS {
            if let Some(value) = table.get_mut(key) {
                self.list(value, key)?;
            }
        }
        Ok(())
    }

    /// Replaces the texts in the value of a key that has an array of tables.
    fn list(&mut self, value: &mut Value, key: &str) -> Result<(), AllocError> {
        match value {
            Value::Array(items) => self.items(items.as_mut_slice(), key),
            _ => Ok(()),
        }
    }

    /// Replaces the texts in each of these tables.
    fn items(&mut self, items: &mut [Value], key: &str) -> Result<(), AllocError> {
        for item in items {
            self.item(item, key)?;
        }
        Ok(())
    }

    /// Replaces the texts of one element of an array.
    fn item(&mut self, item: &mut Value, key: &str) -> Result<(), AllocError> {
        match item {
            Value::Table(inner) => self.entry(inner, key),
            _ => Ok(()),
        }
    }

    /// Replaces the texts of one entry.
    fn entry(&mut self, inner: &mut Table, key: &str) -> Result<(), AllocError> {
        for member in MEMBERS {
            self.member(inner, member)?;
        }
        if key == "fact" {
            self.member(inner, "is")?;
        }
        Ok(())
    }

    /// Replaces the text of a key, if it has one.
    fn member(&mut self, table: &mut Table, key: &str) -> Result<(), AllocError> {
        let Some(value) = table.get_mut(key) else {
            return Ok(());
        };
        let resolved = match value.as_str() {
            Some(text) => match self.symbols.resolve(self.alloc, text) {
                Ok(address) => Value::Integer(i64::from(address)),
                Err(ResolveFault::NoMemory) => return Err(AllocError),
                Err(fault) => {
                    let text = String::from_str(self.alloc, text)?;
                    return Ok(self.unknown.push(UnknownName { text, fault })?);
                }
            },
            None => return Ok(()),
        };
        *value = resolved;
        Ok(())
    }
}
