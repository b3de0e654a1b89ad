// A report, part by part.

use call_graph::ProcId;
use listing::{ListFault, View};
use report_memory::{add_enable, add_ram, add_rom, add_stores};
use report_parts::{FileNames, Page, Reported};
use report_sections::{add_meaning, add_procedures, add_times, add_verdict};
use std::alloc::{AllocError, Global};
use texts::{Sink, put};

/// The number of parts before the addresses.
const BEFORE: u32 = 9;

/// The report on an accepted program: a page of HTML that is written part by part (docs/REPORT.md).
#[derive(Drop)]
pub struct Report<'a> {
    pub(crate) shown: Reported<'a>,
    /// The addresses so far whose ways are shown one by one.
    pub(crate) ways_shown: u32,
    /// The procedures of the instruction above.
    pub(crate) listed: Vec<ProcId>,
    /// Whether a group of rows of the listing is open.
    pub(crate) is_open: bool,
    /// The address after the last gap.
    pub(crate) next: u16,
}

impl<'a> Report<'a> {
    /// The report on a program. The error is refused memory.
    pub fn of(
        alloc: Global,
        view: View<'a>,
        names: FileNames<'a>,
    ) -> Result<Report<'a>, AllocError> {
        Ok(Report {
            shown: Reported::of(alloc, view, names)?,
            ways_shown: 0,
            listed: Vec::new(alloc),
            is_open: false,
            next: 0,
        })
    }

    /// The number of parts: those before the listing, the addresses of the ROM, and the end.
    pub fn count(&self) -> u32 {
        u32::from(self.shown.view.accepted().rom().len())
            .saturating_add(BEFORE)
            .saturating_add(1)
    }

    /// Writes a part, counted from 0. The parts have to come in their order.
    ///
    /// # Errors
    ///
    /// `NoMemory` where memory was refused, `Device` where the sink failed; what was written stays.
    pub fn write_part<W: Sink>(&mut self, number: u32, out: &mut W) -> Result<(), ListFault> {
        let mut page = Page::new(self.shown.alloc);
        self.add_part(&mut page, number)?;
        put(out, page.bytes()?)?;
        Ok(())
    }

    /// Adds a part to a page.
    fn add_part(&mut self, page: &mut Page, number: u32) -> Result<(), AllocError> {
        match number {
            0 => self.add_head(page)?,
            1 => {
                add_verdict(&self.shown, page)?;
                add_meaning(&self.shown, page);
            }
            2 => add_times(&self.shown, page)?,
            3 => add_procedures(&self.shown, page)?,
            4 => add_rom(&self.shown, page)?,
            5 => add_ram(&self.shown, page)?,
            6 => add_stores(&self.shown, page)?,
            7 => add_enable(&self.shown, page)?,
            8 => self.add_listing_start(page),
            _ => {
                let address = number.saturating_sub(BEFORE);
                if address < u32::from(self.shown.view.accepted().rom().len()) {
                    self.add_listed(page, (address % 0x1_0000) as u16)?;
                } else {
                    self.add_listing_end(page)?;
                    self.add_end(page);
                }
            }
        }
        Ok(())
    }
}
