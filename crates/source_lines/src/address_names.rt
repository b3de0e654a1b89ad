// Addresses with their labels and their lines in the source.

use crate::locations::{Location, Locations};
use std::alloc::Global;
use std::fmt;
use symbols::{Label, Symbols};

/// What an address of a program can be called (docs/SYMBOLS.md, "Where an address is").
#[derive(Drop)]
pub struct AddressNames {
    pub symbols: Symbols,
    pub locations: Locations,
}

/// An address with its label and its line, where they are known. As a text it is `raid.asm:565: 03CF moveone+13`.
#[derive(Clone, Copy)]
pub struct NamedAddress<'a> {
    pub address: u16,
    pub label: Option<Label<'a>>,
    pub location: Option<Location<'a>>,
}

impl AddressNames {
    /// No names. It takes no memory.
    pub fn new(alloc: Global) -> AddressNames {
        AddressNames {
            symbols: Symbols::new(alloc),
            locations: Locations::new(alloc),
        }
    }

    /// An address with its label and its line.
    pub fn named(&self, address: u16) -> NamedAddress<'_> {
        NamedAddress {
            address,
            label: self.symbols.label_at(address),
            location: self.locations.location_at(address),
        }
    }
}

impl fmt::Display for NamedAddress<'_> {
    fn fmt<W: fmt::Write>(&self, f: &mut fmt::Formatter<W>) -> fmt::Result {
        if let Some(location) = &self.location {
            write!(f, "{location}: ")?;
        }
        let address = self.address;
        write!(f, "{address:04X}")?;
        match &self.label {
            Some(label) => write!(f, " {label}"),
            None => Ok(()),
        }
    }
}
