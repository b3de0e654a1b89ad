// Bytes that are never reached as code.

use crate::columns::write_line;
use crate::fault::ListFault;
use crate::view::View;
use std::alloc::AllocError;
use texts::Sink;

/// The bytes on a line of a dump.
const LINE: usize = 16;

/// Bytes of the ROM that lie in no instruction with a row, from an address on.
#[derive(Clone, Copy)]
pub struct Gap<'a> {
    pub address: u16,
    pub bytes: &'a [u8],
}

impl Gap<'_> {
    /// The address after the last byte.
    pub fn behind(&self) -> u16 {
        let count = u16::try_from(self.bytes.len()).unwrap_or(u16::MAX);
        self.address.saturating_add(count)
    }

    /// The byte that all of them are, if they are one.
    pub fn all_same(&self) -> Option<u8> {
        let first = self.bytes.first()?;
        if self.bytes.iter().all(|byte| byte == first) {
            Some(*first)
        } else {
            None
        }
    }
}

/// A byte as a character of ASCII, or a point.
fn shown(byte: u8) -> char {
    if byte.is_ascii_graphic() || byte == b' ' {
        char::from(byte)
    } else {
        '.'
    }
}

impl View<'_> {
    /// The bytes from an address on that lie in no instruction with a row.
    pub fn gap_at(&self, address: u16) -> Gap<'_> {
        let rest = self.accepted.rom().bytes_from(address);
        let mut count = 0usize;
        for at in address..self.accepted.rom().len() {
            if self.survey.is_code(at) {
                break;
            }
            count = count.saturating_add(1);
        }
        let (bytes, _) = rest.split_at(count.min(rest.len()));
        Gap { address, bytes }
    }

    /// The number of bytes of a gap that instructions may read.
    fn read_count(&self, gap: &Gap) -> usize {
        let mut count = 0usize;
        let mut address = gap.address;
        for _ in gap.bytes {
            if self.survey.is_read(address) {
                count = count.saturating_add(1);
            }
            address = address.saturating_add(1);
        }
        count
    }

    /// The text of a gap: how many bytes it has, and how many of them are read.
    pub fn gap_text(&self, gap: &Gap) -> Result<String, AllocError> {
        let alloc = self.alloc;
        let count = gap.bytes.len();
        let noun = if count == 1 { "byte" } else { "bytes" };
        let mut text = format!(in alloc; "{count} {noun}")?;
        if let Some(byte) = gap.all_same() {
            text.push_str(format!(in alloc; " of {byte:02X}")?.as_str())?;
        }
        text.push_str(", never reached as code")?;
        match self.read_count(gap) {
            0 => {}
            read if read == count => text.push_str(", all read")?,
            read => text.push_str(format!(in alloc; ", {read} read")?.as_str())?,
        }
        Ok(text)
    }

    /// Writes the lines of a gap.
    pub(crate) fn write_gap<W: Sink>(&self, gap: &Gap, out: &mut W) -> Result<(), ListFault> {
        let alloc = self.alloc;
        let text = self.gap_text(gap)?;
        let line = format!(in alloc; "{:04X}  ; {text}", gap.address)?;
        write_line(line.as_str(), out)?;
        if gap.all_same().is_some() {
            return Ok(());
        }
        let mut address = gap.address;
        for bytes in gap.bytes.chunks(LINE) {
            write_line(self.dump_line(address, bytes)?.as_str(), out)?;
            address = address.saturating_add(bytes.len() as u16);
        }
        Ok(())
    }

    /// At most 16 bytes in hexadecimal and as characters.
    pub fn dump_line(&self, address: u16, bytes: &[u8]) -> Result<String, AllocError> {
        let alloc = self.alloc;
        let mut characters = String::new(alloc);
        for byte in bytes {
            characters.push(shown(*byte))?;
        }
        let digits = self.hex_bytes(bytes)?;
        format!(in alloc; "{address:04X}  {digits:<47}  {characters}")
    }

    /// Bytes in hexadecimal, with a blank between two.
    pub fn hex_bytes(&self, bytes: &[u8]) -> Result<String, AllocError> {
        let mut text = String::new(self.alloc);
        for byte in bytes {
            let blank = if text.is_empty() { "" } else { " " };
            text.push_str(format!(in self.alloc; "{blank}{byte:02X}")?.as_str())?;
        }
        Ok(text)
    }
}
