// The members of an object, and the items of a list.

use serde_json::{Map, Value};
use std::alloc::{AllocError, Global};

/// An object that is being made. It remembers that memory was refused: from then on nothing is added.
#[derive(Drop)]
pub(crate) struct Members {
    alloc: Global,
    map: Map<String, Value>,
    is_whole: bool,
}

/// A list that is being made. It remembers that memory was refused: from then on nothing is added.
#[derive(Drop)]
pub(crate) struct Items {
    alloc: Global,
    values: Vec<Value>,
    is_whole: bool,
}

impl Members {
    pub(crate) fn new(alloc: Global) -> Members {
        Members {
            alloc,
            map: Map::new(alloc),
            is_whole: true,
        }
    }

    pub(crate) fn alloc(&self) -> Global {
        self.alloc
    }

    /// Adds a member, or replaces the one with its name.
    fn put(&mut self, name: &str, value: Value) {
        if self.is_whole {
            let put = serde_json::put(&mut self.map, self.alloc, name, value);
            self.is_whole = put.is_ok();
        }
    }

    pub(crate) fn text(&mut self, name: &str, text: &str) {
        match text_value(self.alloc, text) {
            Ok(value) => self.put(name, value),
            Err(_) => self.is_whole = false,
        }
    }

    /// Adds a number; null if there is none.
    pub(crate) fn number(&mut self, name: &str, number: Option<u64>) {
        self.put(name, number_value(number));
    }

    pub(crate) fn array(&mut self, name: &str, items: Items) {
        self.is_whole = self.is_whole && items.is_whole;
        self.put(name, Value::Array(items.values));
    }

    pub(crate) fn object(&mut self, name: &str, members: Members) {
        self.is_whole = self.is_whole && members.is_whole;
        self.put(name, Value::Object(members.map));
    }

    /// The object; Err where memory was refused for a part of it.
    pub(crate) fn into_value(self) -> Result<Value, AllocError> {
        if self.is_whole {
            Ok(Value::Object(self.map))
        } else {
            Err(AllocError)
        }
    }
}

impl Items {
    pub(crate) fn new(alloc: Global) -> Items {
        Items {
            alloc,
            values: Vec::new(alloc),
            is_whole: true,
        }
    }

    fn push(&mut self, value: Value) {
        if self.is_whole {
            self.is_whole = self.values.push(value).is_ok();
        }
    }

    pub(crate) fn text(&mut self, text: &str) {
        match text_value(self.alloc, text) {
            Ok(value) => self.push(value),
            Err(_) => self.is_whole = false,
        }
    }

    /// Adds a number; null if there is none.
    pub(crate) fn number(&mut self, number: Option<u64>) {
        self.push(number_value(number));
    }

    pub(crate) fn object(&mut self, members: Members) {
        self.is_whole = self.is_whole && members.is_whole;
        self.push(Value::Object(members.map));
    }
}

fn text_value(alloc: Global, text: &str) -> Result<Value, AllocError> {
    Ok(Value::String(String::from_str(alloc, text)?))
}

fn number_value(number: Option<u64>) -> Value {
    match number {
        Some(number) => Value::from(number),
        None => Value::Null,
    }
}
