// Places, instructions and ranges as texts.

use address_map::Rom;
use analysis::FlowFault;
use board_fetch::fetch;
use disassembly::{InstrText, Reference, spelled};
use intervals::{ByteRange, RegPair, WordRange};
use loop_bounds::Variable;
use source_lines::{AddressNames, NamedAddress};
use std::alloc::Global;
use std::fmt;

/// What texts are made with: a ROM, and the names of its addresses.
#[derive(Clone, Copy)]
pub struct Wording<'w> {
    pub alloc: Global,
    pub rom: &'w Rom<'w>,
    pub names: &'w AddressNames,
}

impl<'w> Wording<'w> {
    /// An address with its label: `03CF moveone+13`.
    pub fn place(&self, address: u16) -> NamedAddress<'w> {
        NamedAddress {
            address,
            label: self.names.symbols.label_at(address),
            location: None,
        }
    }

    /// An address with its line and its label: `raid.asm:565: 03CF moveone+13`.
    pub fn location(&self, address: u16) -> NamedAddress<'w> {
        self.names.named(address)
    }

    /// The instruction at an address.
    pub fn instr(&self, address: u16) -> NamedInstr<'w> {
        let Ok((instr, len)) = fetch(self.rom, address) else {
            return NamedInstr {
                text: None,
                name: None,
            };
        };
        let text = spelled(&instr, address.wrapping_add(u16::from(len)));
        let name = match text.reference() {
            Some(Reference::Target(to)) => self.names.symbols.shown_at(to),
            Some(Reference::Memory(at)) => self.names.symbols.shown_at(at),
            Some(Reference::Constant(_) | Reference::Restart(_)) | None => None,
        };
        NamedInstr {
            text: Some(text),
            name,
        }
    }

    /// The instruction at an address, with the address.
    pub fn instr_at(&self, address: u16) -> PlacedInstr<'w> {
        PlacedInstr {
            instr: self.instr(address),
            place: self.place(address),
        }
    }

    /// Addresses, with their labels, at most eight.
    ///
    /// # Errors
    ///
    /// `NoMemory` where memory was refused.
    pub fn places(&self, addresses: &[u16]) -> Result<String, FlowFault> {
        let mut text = String::new(self.alloc);
        for (count, address) in addresses.iter().enumerate() {
            if count >= 8 {
                text.push_str(" ..")?;
                break;
            }
            if count > 0 {
                text.push_str(", ")?;
            }
            write!(text, "{}", self.place(*address))?;
        }
        Ok(text)
    }
}

/// An instruction as a text: in the manual's spelling, with a name in the place of its number where there is one.
#[derive(Drop)]
pub struct NamedInstr<'w> {
    /// None where the bytes are no instruction.
    text: Option<InstrText>,
    name: Option<&'w str>,
}

impl fmt::Display for NamedInstr<'_> {
    fn fmt<W: fmt::Write>(&self, f: &mut fmt::Formatter<W>) -> fmt::Result {
        match (&self.text, self.name) {
            (Some(text), Some(name)) => {
                let (before, after) = (text.before(), text.after());
                write!(f, "{before}{name}{after}")
            }
            (Some(text), None) => write!(f, "{text}"),
            (None, _) => write!(f, "no instruction"),
        }
    }
}

/// An instruction with its address. As a text it is `LD HL,4000h at 0003`.
#[derive(Drop)]
pub struct PlacedInstr<'w> {
    instr: NamedInstr<'w>,
    place: NamedAddress<'w>,
}

impl fmt::Display for PlacedInstr<'_> {
    fn fmt<W: fmt::Write>(&self, f: &mut fmt::Formatter<W>) -> fmt::Result {
        write!(f, "{} at {}", self.instr, self.place)
    }
}

/// A range as a text: `4000` or `4000..FFFF`, with two digits where it has eight bits.
#[derive(Clone, Copy)]
pub struct RangeText {
    low: u16,
    high: u16,
    is_byte: bool,
}

impl RangeText {
    /// A range of words, with four digits.
    pub fn words(range: WordRange) -> RangeText {
        RangeText {
            low: range.low(),
            high: range.high(),
            is_byte: false,
        }
    }

    /// A range of bytes, with two digits.
    pub fn bytes(range: ByteRange) -> RangeText {
        RangeText {
            low: u16::from(range.low()),
            high: u16::from(range.high()),
            is_byte: true,
        }
    }

    /// The range of a variable.
    pub fn of(variable: &Variable, range: WordRange) -> RangeText {
        let is_byte = matches!(
            variable,
            Variable::A
                | Variable::B
                | Variable::C
                | Variable::D
                | Variable::E
                | Variable::H
                | Variable::L
        );
        RangeText {
            is_byte,
            ..RangeText::words(range)
        }
    }
}

impl fmt::Display for RangeText {
    fn fmt<W: fmt::Write>(&self, f: &mut fmt::Formatter<W>) -> fmt::Result {
        let (low, high) = (self.low, self.high);
        match (self.is_byte, low == high) {
            (true, true) => write!(f, "{low:02X}"),
            (true, false) => write!(f, "{low:02X}..{high:02X}"),
            (false, true) => write!(f, "{low:04X}"),
            (false, false) => write!(f, "{low:04X}..{high:04X}"),
        }
    }
}

/// The name of a pair.
pub(crate) fn pair_name(pair: RegPair) -> &'static str {
    str::from_utf8(pair.name()).unwrap_or("")
}

/// Adds a line, indented by two blanks.
///
/// # Errors
///
/// `NoMemory` where memory was refused.
pub fn add_line(text: &mut String, line: impl fmt::Display + Drop) -> Result<(), FlowFault> {
    writeln!(text, "  {line}")?;
    Ok(())
}
