// The symbols of a program: names and their values.

ghost use Rattle.std.specs.Prelude.{◌≡◌, ◌≤◌, ◌<◌, ◌-◌, ◌↔◌, [], ℕ, map, nat_lt, if◌then◌else◌, find, length, Some, None, Contains, IfSome, IfNone, option_map, option_and_then};
ghost use Rattle.std.specs.Map.{keys_of};
ghost use Rattle.std.specs.String.{string_bytes};
ghost use Rattle.symbols.specs.Names.{MayLabel, is_shown_name, value_of_name, names_of, shown_name};

use crate::definitions::{Definition, Definitions};
use crate::fault::SymbolFault;
use crate::label::Label;
use crate::name::is_shown;
use address_map::ROM_LIMIT;
use indexmap::IndexMap;
use std::alloc::Global;
use std::marker::Model;

/// The most bytes that a symbol file or a listing has: 4 MB.
pub const MAX_TEXT: usize = 4_194_304;

/// The first address above the ROM's zone. Labels below it name code, and the others name RAM and devices.
const ROM_END: u16 = ROM_LIMIT;

/// How many addresses a label may name: its own and 255 more.
const REACH: u16 = 256;

/// The names that a symbol file defines, with their values (docs/SYMBOLS.md).
#[derive(Drop)]
pub struct Symbols {
    /// By value; names of one value by line.
    definitions: IndexMap<String, Definition>,
    other_lines: Vec<u32>,
}

impl Model for Symbols {
    ghost use Rattle.std.specs.Prelude.{List, ℕ, map};
    ghost use Rattle.std.specs.List.Sorted.{IsNonDecreasingBy};
    ghost use Rattle.std.specs.String.{string_bytes};

    ghost Value = { List (List ℕ × ℕ) };

    ghost view = { λ s. map (λ e. (string_bytes e.0, e.1.value)) s.definitions.entries };

    ghost invariant = { λ s. IsNonDecreasingBy (λ e. e.1.value) s.definitions.entries };
}

impl Symbols {
    /// No symbols. It takes no memory.
    pub fn new(alloc: Global) -> Symbols
        ensures { result ≡ [] }
    {
        Symbols {
            definitions: IndexMap::new(alloc),
            other_lines: Vec::new(alloc),
        }
    }

    /// Reads a symbol file of at most 4 MB. Each line is read by its own form, whatever the others are
    /// (docs/SYMBOLS.md, "The forms of a line"). A line of another form is passed over, and `other_lines` has its
    /// number.
    ///
    /// # Errors
    ///
    /// `TooLarge` for more than 4,194,304 bytes. `TwoValues` at the first line that gives a name another value than an
    /// earlier line. `NoMemory` where memory was refused.
    pub fn read(alloc: Global, text: &[u8]) -> Result<Symbols, SymbolFault>
        ensures { (result ≡ Err SymbolFault.TooLarge) ↔ (MAX_TEXT < length text.now) }
    {
        if text.len() > MAX_TEXT {
            return Err(SymbolFault::TooLarge);
        }
        let Definitions {
            by_name,
            other_lines,
        } = Definitions::read(alloc, text)?;
        let mut definitions = by_name;
        match definitions.sort_by_key(|_, definition| definition.value) {
            Ok(()) => Ok(Symbols {
                definitions,
                other_lines,
            }),
            Err(_) => Err(SymbolFault::NoMemory),
        }
    }

    /// The numbers of the lines of another form, from 1 and rising.
    pub fn other_lines(&self) -> &[u32] {
        self.other_lines.as_slice()
    }

    /// The names by value; those of one value in the order of their lines.
    pub fn names(&self) -> &[String]
        ensures { map string_bytes result.now ≡ keys_of self.now }
    {
        self.definitions.keys().as_slice()
    }

    /// The value of a name; None if no line defines it. Upper and lower case differ.
    pub fn value_of(&self, name: &str) -> Option<u32>
        ensures value { result ≡ value_of_name self.now name.now }
        ensures listed { IfSome result (λ value. Contains (names_of self.now value) name.now) }
    {
        match self.definitions.get(name) {
            Some(definition) => Some(definition.value),
            None => None,
        }
    }

    /// The address of a name; None if no line defines it, or if its value is above FFFF.
    pub fn address_of(&self, name: &str) -> Option<u16>
        ensures value { result ≡ option_and_then
            (λ value. if nat_lt value 65536 then Some value else None)
            (value_of_name self.now name.now) }
        ensures listed { IfSome result (λ address. Contains (names_of self.now address) name.now) }
    {
        u16::try_from(self.value_of(name)?).ok()
    }

    /// The names of an address, in the order of their lines.
    pub fn names_at(&self, address: u16) -> &[String]
        ensures { map string_bytes result.now ≡ names_of self.now address }
    {
        let value = u32::from(address);
        let from = self
            .definitions
            .partition_point(|_, definition| definition.value < value);
        let to = self
            .definitions
            .partition_point(|_, definition| definition.value <= value);
        match self.definitions.as_slice().get_range(from..to) {
            Some(there) => there.keys().as_slice(),
            None => &[],
        }
    }

    /// The name that is shown at an address: the first that is not one of a section or a length.
    pub fn shown_at(&self, address: u16) -> Option<&str>
        ensures { option_map (λ name. name.now) result ≡ shown_name self.now address }
    {
        match first_shown(self.names_at(address)) {
            Some(name) => Some(name.as_str()),
            None => None,
        }
    }

    /// The label of an address: the shown name at the nearest address that is not above it, at most 255 bytes below. An
    /// address in the ROM's zone, below 4000, and one above it share no label.
    pub fn label_at(&self, address: u16) -> Option<Label<'_>>
        ensures place { IfSome result (λ label. MayLabel (address - label.offset) address) }
        ensures name { IfSome result
            (λ label. shown_name self.now (address - label.offset) ≡ Some label.name.now) }
        ensures nearest { IfSome result (λ label. (k : ℕ) → k < label.offset
            → shown_name self.now (address - k) ≡ None) }
        ensures none { IfNone result ((place : ℕ) → MayLabel place address
            → shown_name self.now place ≡ None) }
    {
        for offset in 0..REACH {
            if offset > address {
                return None;
            }
            let place = address - offset;
            if place < ROM_END && ROM_END <= address {
                return None;
            }
            if let Some(name) = self.shown_at(place) {
                return Some(Label {
                    name,
                    offset: offset as u8,
                });
            }
        }
        None
    }
}

/// The first name that is shown.
fn first_shown(names: &[String]) -> Option<&String>
    ensures { option_map (λ name. name.now) result
        ≡ find (λ name. is_shown_name (string_bytes name)) names.now }
{
    names.iter().find(|name| is_shown(name.as_str()))
}
