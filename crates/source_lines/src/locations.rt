// Where an address is in the source.

use crate::counting::file_lines;
use crate::fault::ListingFault;
use crate::listing_lines::SourceLines;
use address_map::ROM_LIMIT;
use std::alloc::{AllocError, Global};
use std::fmt;

/// How many bytes after the first of its line an address may be, and one more.
const REACH: u16 = 256;

/// A line of a file. As a text it is `raid.asm:565`, the form that editors jump to.
#[derive(Clone, Copy, PartialEq, Eq)]
pub struct Location<'a> {
    pub file: &'a str,
    /// From 1.
    pub line: u32,
}

impl fmt::Display for Location<'_> {
    fn fmt<W: fmt::Write>(&self, f: &mut fmt::Formatter<W>) -> fmt::Result {
        let file = self.file;
        let line = self.line;
        write!(f, "{file}:{line}")
    }
}

/// A line that shows bytes.
#[derive(Clone, Copy)]
struct PlacedLine {
    /// Of its first byte.
    address: u16,
    /// The place of its file in the list of files.
    file: usize,
    line: u32,
}

/// The lines of the source at which the bytes of a program stand (docs/SYMBOLS.md, "Where an address is").
#[derive(Drop)]
pub struct Locations {
    files: Vec<String>,
    /// By address; those of one address in the order of the listing.
    placed: Vec<PlacedLine>,
}

impl Locations {
    /// No locations. It takes no memory.
    pub fn new(alloc: Global) -> Locations {
        Locations {
            files: Vec::new(alloc),
            placed: Vec::new(alloc),
        }
    }

    /// The locations that a listing shows. Where it does not show the file and the line of the source, they are those
    /// of the listing, whose name is `name`.
    ///
    /// # Errors
    ///
    /// `NoMemory` where memory was refused.
    pub fn of(
        alloc: Global,
        listing: &SourceLines<'_>,
        name: &str,
    ) -> Result<Locations, ListingFault> {
        match located(alloc, listing, name) {
            Ok(locations) => Ok(locations),
            Err(_) => Err(ListingFault::NoMemory),
        }
    }

    /// The location of an address: the line of the nearest bytes that are not above it, and begin at most 255 bytes
    /// below it. An address in the ROM's zone, below 4000, and one above it share no line.
    pub fn location_at(&self, address: u16) -> Option<Location<'_>> {
        let count = self
            .placed
            .partition_point(|placed| placed.address <= address);
        let placed = self.placed.get(count.checked_sub(1)?)?;
        if address.saturating_sub(placed.address) >= REACH {
            return None;
        }
        if placed.address < ROM_LIMIT && ROM_LIMIT <= address {
            return None;
        }
        Some(Location {
            file: self.files.get(placed.file)?.as_str(),
            line: placed.line,
        })
    }

    /// The place of a file in the list of files; the last file is looked at first.
    fn file(&mut self, alloc: Global, name: &str) -> Result<usize, AllocError> {
        if let Some(place) = self.files.iter().rposition(|file| file.as_str() == name) {
            return Ok(place);
        }
        let place = self.files.len();
        self.files.push(String::from_str(alloc, name)?)?;
        Ok(place)
    }
}

/// The locations that a listing shows.
fn located(alloc: Global, listing: &SourceLines<'_>, name: &str) -> Result<Locations, AllocError> {
    let places = file_lines(alloc, listing.layout, listing.listing)?;
    let mut locations = Locations::new(alloc);
    for line in listing.lines() {
        let Some(address) = line.bytes_at() else {
            continue;
        };
        let index = line.number.saturating_sub(1) as usize;
        let (file, number) = match places.get(index) {
            Some(Some(place)) if is_printable(place.file) => (place.file, place.line),
            _ => (name, line.number),
        };
        let placed = PlacedLine {
            address,
            file: locations.file(alloc, file)?,
            line: number,
        };
        locations.placed.push(placed)?;
    }
    locations.placed.sort_by_key(|placed| placed.address)?;
    Ok(locations)
}

/// Whether a name can be shown: it has characters, and none of them is a control character.
fn is_printable(name: &str) -> bool {
    !name.is_empty() && !name.chars().any(|sign| sign.is_control())
}
