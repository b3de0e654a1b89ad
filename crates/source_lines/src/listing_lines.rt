// The lines of a listing.

use crate::fault::ListingFault;
use crate::layout::Layout;
use crate::source_text::SourceText;
use std::alloc::Global;
use symbols::MAX_TEXT;

/// A line of a listing that shows a line of source.
#[derive(Clone, Copy)]
pub struct ListingLine<'a> {
    /// The line of the listing, from 1.
    pub number: u32,
    /// The address of the line's bytes or, without bytes, of the next ones; None after the last.
    pub address: Option<u16>,
    /// Whether it shows or reserves bytes.
    pub has_bytes: bool,
    /// Whether it is not assembled, as far as the listing tells: by a mark on the line, or by an instruction without
    /// bytes at the line or next after it.
    pub is_left_out: bool,
    pub text: SourceText<'a>,
}

impl ListingLine<'_> {
    /// The address of the line's bytes, if it has some.
    pub fn bytes_at(&self) -> Option<u16> {
        if self.has_bytes { self.address } else { None }
    }
}

/// The lines of a listing that show source, in their order.
#[derive(Drop)]
pub struct SourceLines<'a> {
    pub(crate) layout: Layout,
    /// The whole listing.
    pub(crate) listing: &'a [u8],
    pub(crate) lines: Vec<ListingLine<'a>>,
}

impl<'a> SourceLines<'a> {
    /// Reads a listing of at most 4 MB (docs/NOTES.md, "Listings"). Memory is taken for the lines.
    ///
    /// # Errors
    ///
    /// `TooLarge` for more than 4,194,304 bytes. `NoListing` if no line shows bytes as a listing of a known assembler
    /// does. `NoMemory` where memory was refused.
    pub fn read(alloc: Global, listing: &'a [u8]) -> Result<SourceLines<'a>, ListingFault> {
        if listing.len() > MAX_TEXT {
            return Err(ListingFault::TooLarge);
        }
        let Some(layout) = Layout::of(listing) else {
            return Err(ListingFault::NoListing);
        };
        let lines = lines_of(alloc, layout, listing)?;
        Ok(SourceLines {
            layout,
            listing,
            lines,
        })
    }

    /// The lines.
    pub fn lines(&self) -> &[ListingLine<'a>] {
        self.lines.as_slice()
    }
}

/// The lines of a listing that show source in this layout.
fn lines_of<'a>(
    alloc: Global,
    layout: Layout,
    listing: &'a [u8],
) -> Result<Vec<ListingLine<'a>>, ListingFault> {
    let mut lines = Vec::new(alloc);
    let mut number = 0u32;
    let mut begun = None;
    for line in listing.split(|byte| *byte == b'\n') {
        number = number.saturating_add(1);
        begun = begun.or(layout.begun(line));
        let Some(shown) = layout.shown(line) else {
            continue;
        };
        let text = SourceText::of(layout, shown.source);
        let shown_line = ListingLine {
            number,
            address: begun.or(shown.address),
            has_bytes: shown.has_bytes || text.reserves_bytes(),
            is_left_out: layout.marks_as_left_out(line, text.names_address()),
            text,
        };
        begun = None;
        if lines.push(shown_line).is_err() {
            return Err(ListingFault::NoMemory);
        }
    }
    fill_addresses(&mut lines);
    mark_left_out(&mut lines);
    Ok(lines)
}

/// Gives each line without an address that of the line after it.
fn fill_addresses(lines: &mut Vec<ListingLine<'_>>) {
    let mut next = None;
    for line in lines.iter_mut().rev() {
        if line.address.is_none() {
            line.address = next;
        }
        next = line.address;
    }
}

/// Marks each instruction without bytes as left out, and what stands before it: lines without an operation, equates,
/// and one other operation.
fn mark_left_out(lines: &mut Vec<ListingLine<'_>>) {
    let mut is_next_left_out = false;
    for line in lines.iter_mut().rev() {
        let text = line.text;
        let is_left_out = !line.has_bytes && text.makes_bytes();
        if is_left_out || (is_next_left_out && !line.has_bytes) {
            line.is_left_out = true;
        }
        let is_operation = !text.operation.is_empty() && text.equate().is_none();
        if line.has_bytes || is_operation {
            is_next_left_out = is_left_out;
        }
    }
}
