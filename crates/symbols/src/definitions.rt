// Reading the names and values of a symbol file.

ghost use Rattle.std.specs.Prelude.{◌≢◌};

use crate::fault::SymbolFault;
use crate::line::{FilePart, SymbolLine, line_in};
use indexmap::IndexMap;
use std::alloc::Global;

/// What a file says about a name.
#[derive(Clone, Copy)]
pub(crate) struct Definition {
    /// The value. Up to FFFF it is an address.
    pub(crate) value: u32,
    /// The first line with the name, from 1.
    line: u32,
}

/// What a file says about names.
#[derive(Drop)]
pub(crate) struct Definitions {
    /// The names in the order of their lines.
    pub(crate) by_name: IndexMap<String, Definition>,
    /// The numbers of the lines of another form, rising.
    pub(crate) other_lines: Vec<u32>,
}

impl Definitions {
    /// Reads a file. `TwoValues` at the first line that gives a name another value than an earlier line, `NoMemory`
    /// where memory was refused.
    pub(crate) fn read(alloc: Global, text: &[u8]) -> Result<Definitions, SymbolFault>
        ensures { result ≢ Err SymbolFault.TooLarge }
    {
        let mut definitions = Definitions {
            by_name: IndexMap::new(alloc),
            other_lines: Vec::new(alloc),
        };
        let mut part = FilePart::Plain;
        let mut number = 0u32;
        for line in text.split(|byte| *byte == b'\n') {
            number = number.saturating_add(1);
            match line_in(part, line) {
                SymbolLine::Defines(name, value) => {
                    definitions.add(
                        alloc,
                        name,
                        Definition {
                            value,
                            line: number,
                        },
                    )?;
                }
                SymbolLine::Begins(next) => part = next,
                SymbolLine::Nothing => {}
                SymbolLine::Other => if definitions.other_lines.push(number).is_err() {
                    return Err(SymbolFault::NoMemory);
                },
            }
        }
        Ok(definitions)
    }

    /// Adds a name, unless it is there with the same value.
    fn add(&mut self, alloc: Global, name: &str, definition: Definition) -> Result<(), SymbolFault>
        ensures { result ≢ Err SymbolFault.TooLarge }
    {
        let Ok(owned) = String::from_str(alloc, name) else {
            return Err(SymbolFault::NoMemory);
        };
        let Some(before) = self.by_name.get(name) else {
            return match self.by_name.insert(owned, definition) {
                Ok(_) => Ok(()),
                Err(_) => Err(SymbolFault::NoMemory),
            };
        };
        if before.value == definition.value {
            return Ok(());
        }
        Err(SymbolFault::TwoValues {
            name: owned,
            first: before.line,
            second: definition.line,
        })
    }
}
