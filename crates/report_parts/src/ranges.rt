// The texts of ranges.

use crate::page::Page;
use crate::reported::Reported;
use address_map::{RamKind, WriteUse};
use intervals::{ByteRange, WordRange};
use std::alloc::AllocError;

/// The most ranges that are shown one by one.
const MOST: usize = 4;

impl Reported<'_> {
    /// A range of addresses: `4100`, or `4100–411F`.
    pub fn word_range(&self, range: WordRange) -> Result<String, AllocError> {
        let (low, high) = (range.low(), range.high());
        if low == high {
            format!(in self.alloc; "{low:04X}")
        } else {
            format!(in self.alloc; "{low:04X}–{high:04X}")
        }
    }

    /// A range of bytes: `05`, or `00–1F`.
    pub fn byte_range(&self, range: ByteRange) -> Result<String, AllocError> {
        let (low, high) = (range.low(), range.high());
        if low == high {
            format!(in self.alloc; "{low:02X}")
        } else {
            format!(in self.alloc; "{low:02X}–{high:02X}")
        }
    }

    /// Adds ranges: equal ranges at equal steps as one with their number, others one by one, four at most.
    pub fn add_ranges(&self, page: &mut Page, ranges: &[WordRange]) {
        if let (Some(step), Some(first)) = (step_of(ranges), ranges.first()) {
            page.made(self.word_range(*first));
            let count = ranges.len();
            page.raw(" <span class=\"cm\">");
            page.made(format!(in self.alloc; "{count} times, step {step:02X}"));
            page.raw("</span>");
            return;
        }
        let mut is_first = true;
        for range in ranges.iter().take(MOST) {
            if !is_first {
                page.raw(" ");
            }
            is_first = false;
            page.made(self.word_range(*range));
        }
        if let (Some(last), true) = (ranges.last(), ranges.len() > MOST) {
            let (high, count) = (last.high(), ranges.len());
            page.made(format!(in self.alloc; " … {high:04X} ({count} ranges)"));
        }
    }

    /// Adds the names of the regions that ranges meet, each once.
    pub fn add_regions(&self, page: &mut Page, ranges: &[WordRange]) -> Result<(), AllocError> {
        let mut names: Vec<&'static str> = Vec::new(self.alloc);
        for range in ranges {
            for zone in self.view.accepted().map().zones() {
                if zone.first <= range.high()
                    && range.low() <= zone.last
                    && zone.first <= zone.last
                {
                    let name = self.zone_name(zone.write, *range);
                    if !names.contains(&name) {
                        names.push(name)?;
                    }
                }
            }
        }
        let mut is_first = true;
        for name in &names {
            if !is_first {
                page.raw(", ");
            }
            is_first = false;
            page.text(*name);
        }
        Ok(())
    }

    /// The name of what a zone is for writing, where a range meets it.
    fn zone_name(&self, zone: WriteUse, range: WordRange) -> &'static str {
        match zone {
            WriteUse::Rom => "ROM",
            WriteUse::Ram(ram) => ram_word(ram),
            WriteUse::Latch => "latch",
            WriteUse::LatchWithEnable => {
                if !self.view.accepted().map().some_enable(range) {
                    "latch"
                } else if range.low() == range.high() {
                    "NMI enable"
                } else {
                    "latch, NMI enable"
                }
            }
            WriteUse::Pitch => "pitch",
            WriteUse::Open => "nothing",
        }
    }
}

/// The word for a RAM.
pub fn ram_word(ram: RamKind) -> &'static str {
    match ram {
        RamKind::Work => "work",
        RamKind::Video => "video",
        RamKind::Object => "object",
    }
}

/// The step between ranges, if there are three or more of one length at equal steps.
fn step_of(ranges: &[WordRange]) -> Option<u16> {
    let [first, second, ..] = ranges else {
        return None;
    };
    let step = second.low().saturating_sub(first.low());
    let length = first.high().saturating_sub(first.low());
    if ranges.len() < 3 || step == 0 {
        return None;
    }
    let mut at = first.low();
    for range in ranges {
        if range.low() != at || range.high().saturating_sub(range.low()) != length {
            return None;
        }
        at = at.saturating_add(step);
    }
    Some(step)
}
