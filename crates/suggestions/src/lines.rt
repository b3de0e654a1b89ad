// The lines of entries, as TOML.

use crate::entries::FileEntry;
use crate::sums::sum_pairs;
use annotations::{FactNote, LoopNote, RangeNote, SplitNote};
use named_annotations::{register_name, variable_name};
use std::alloc::{AllocError, Global};
use symbols::Symbols;

/// What the lines of entries are made with.
#[derive(Clone, Copy)]
pub(crate) struct Lines<'s> {
    pub(crate) alloc: Global,
    /// The names that stand for addresses.
    pub(crate) symbols: &'s Symbols,
}

impl Lines<'_> {
    /// An address as the value of a key: its label as a text, or its number where it has none.
    fn address(self, address: u16) -> Result<String, AllocError> {
        let alloc = self.alloc;
        match self.symbols.label_at(address) {
            Some(label) => format!(in alloc; "\"{label}\""),
            None => format!(in alloc; "0x{address:04X}"),
        }
    }

    /// An end of the stack as the value of a key: its name as a text, or its number where it has none.
    pub(crate) fn stack_end(self, address: u16) -> Result<String, AllocError> {
        let alloc = self.alloc;
        match self.symbols.shown_at(address) {
            Some(name) => format!(in alloc; "\"{name}\""),
            None => format!(in alloc; "0x{address:04X}"),
        }
    }

    /// The lines of an entry.
    pub(crate) fn entry(self, entry: &FileEntry) -> Result<String, AllocError> {
        let alloc = self.alloc;
        let at = self.address(entry.at())?;
        match entry {
            FileEntry::Inline(_) => format!(in alloc; "[[inline]]\nat = {at}\n"),
            FileEntry::Context(_) => format!(in alloc; "[[context]]\nat = {at}\n"),
            FileEntry::Turns(note) => {
                let until = self.address(note.until)?;
                format!(in alloc;
                    "[[turns]]\nat = {at}\ncount = {}\nuntil = {until}\n",
                    note.turns
                )
            }
            FileEntry::Split(split) => self.split(&at, split),
            FileEntry::Range(note) => self.range(&at, note),
            FileEntry::Fact(note) => self.fact(&at, note),
            FileEntry::Loop(note) => self.counter(&at, note),
            FileEntry::Cell(cell) => format!(in alloc;
                "[[cell]]\nat = {at}\nlo = {}\nhi = {}\n",
                cell.range.low(),
                cell.range.high()
            ),
        }
    }

    fn counter(self, at: &String, note: &LoopNote) -> Result<String, AllocError> {
        let alloc = self.alloc;
        let counter = variable_name(alloc, note.counter)?;
        let sign = if note.rises { "-" } else { "" };
        format!(in alloc; "[[loop]]\nat = {at}\ncounter = \"{sign}{counter}\"\n")
    }

    fn range(self, at: &String, note: &RangeNote) -> Result<String, AllocError> {
        let alloc = self.alloc;
        let name = variable_name(alloc, note.variable)?;
        format!(in alloc;
            "[[range]]\nat = {at}\nvariable = \"{name}\"\nlo = 0x{:04X}\nhi = 0x{:04X}\n",
            note.range.low(),
            note.range.high()
        )
    }

    fn split(self, at: &String, split: &SplitNote) -> Result<String, AllocError> {
        let alloc = self.alloc;
        let mut parts = String::new(alloc);
        for part in split.parts.as_slice() {
            let comma = if parts.is_empty() { "" } else { ", " };
            let text = format!(in alloc; "{comma}[{}, {}]", part.low(), part.high())?;
            parts.push_str(text.as_str())?;
        }
        let register = register_name(split.register);
        let until = self.address(split.until)?;
        format!(in alloc;
            "[[split]]\nat = {at}\nregister = \"{register}\"\nparts = [{parts}]\nuntil = {until}\n"
        )
    }

    fn fact(self, at: &String, note: &FactNote) -> Result<String, AllocError> {
        let alloc = self.alloc;
        let sum = sum_pairs(alloc, &note.fact)?;
        let is = note.fact.constant().saturating_neg();
        let number = if is < 256 {
            format!(in alloc; "{is}")?
        } else {
            format!(in alloc; "0x{is:04X}")?
        };
        let part = match note.part {
            Some(part) => format!(in alloc; "part = {part}\n")?,
            None => String::new(alloc),
        };
        format!(in alloc; "[[fact]]\nat = {at}\nsum = [{sum}]\nis = {number}\n{part}")
    }
}
