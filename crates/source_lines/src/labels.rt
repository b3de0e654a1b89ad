// The labels that a listing shows.

use crate::fault::ListingFault;
use crate::listing_lines::{ListingLine, SourceLines};
use indexmap::IndexMap;
use std::alloc::{AllocError, Global};
use std::fmt::Write;
use symbols::{SymbolFault, Symbols};

impl SourceLines<'_> {
    /// The labels of lines that are not left out: of those that have bytes, that have nothing but the label, or that
    /// call a macro which the listing defines. A label of two addresses is no name: it is local to some part of the
    /// program.
    ///
    /// # Errors
    ///
    /// `TooLarge` if the labels as a symbol file have more than 4,194,304 bytes. `NoMemory` where memory was refused.
    pub fn labels(&self, alloc: Global) -> Result<Symbols, ListingFault> {
        let Ok(text) = symbol_file(alloc, self.lines()) else {
            return Err(ListingFault::NoMemory);
        };
        match Symbols::read(alloc, text.as_bytes()) {
            Ok(symbols) => Ok(symbols),
            Err(SymbolFault::TooLarge) => Err(ListingFault::TooLarge),
            Err(SymbolFault::TwoValues { .. } | SymbolFault::NoMemory) => {
                Err(ListingFault::NoMemory)
            }
        }
    }
}
/// The labels as a symbol file.
fn symbol_file(alloc: Global, lines: &[ListingLine<'_>]) -> Result<String, AllocError> {
    let addresses = addresses_of(alloc, lines)?;
    let mut text = String::new(alloc);
    for (name, address) in &addresses {
        if let Some(address) = address {
            let line = format!(in alloc; "{name} equ ${address:04X}\n")?;
            text.push_str(line.as_str())?;
        }
    }
    Ok(text)
}

/// Each label with its address; None where it has two.
fn addresses_of(
    alloc: Global,
    lines: &[ListingLine<'_>],
) -> Result<IndexMap<String, Option<u16>>, AllocError> {
    let macros = macros_of(alloc, lines)?;
    let mut addresses = IndexMap::new(alloc);
    for line in lines {
        if let Some((name, address)) = labelled(line, &macros) {
            let address = match addresses.get(name) {
                Some(before) if *before != Some(address) => None,
                _ => Some(address),
            };
            addresses.insert(String::from_str(alloc, name)?, address)?;
        }
    }
    Ok(addresses)
}

/// The names of the macros that a listing defines.
fn macros_of<'a>(
    alloc: Global,
    lines: &[ListingLine<'a>],
) -> Result<IndexMap<&'a [u8], ()>, AllocError> {
    let mut macros = IndexMap::new(alloc);
    for line in lines {
        if let Some(name) = line.text.defined_macro() {
            macros.insert(name, ())?;
        }
    }
    Ok(macros)
}

/// The label of a line, and the address that it names.
fn labelled<'a>(line: &ListingLine<'a>, macros: &IndexMap<&'a [u8], ()>) -> Option<(&'a str, u16)> {
    let text = line.text;
    let has_address = line.has_bytes
        || text.operation.is_empty()
        || macros.contains_key(text.mnemonic());
    if !has_address || line.is_left_out {
        return None;
    }
    Some((str::from_utf8(text.label?).ok()?, line.address?))
}
