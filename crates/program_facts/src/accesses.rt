// What each instruction stores and reads.

use check_ways::Subject;
use data_reads::data_reads;
use intervals::{ByteRange, Domain, WordRange};
use listing::View;
use std::alloc::{AllocError, Global};

/// A range with so many addresses says nothing of a single byte.
pub const WIDE: u32 = 0x1000;

/// A store or a read of so many addresses does not count for a single byte.
pub(crate) const SWEEP: u32 = 64;

/// The data accesses of the instruction at an address, over all its rows.
#[derive(Drop)]
pub struct Access {
    pub address: u16,
    /// Where, rising; ranges that touch are one.
    pub ranges: Vec<WordRange>,
    /// Which bytes it stores; of a read any.
    pub byte: ByteRange,
    /// Which bytes it stores where it may reach the NMI enable.
    pub enable: Option<ByteRange>,
}

impl Access {
    /// The number of addresses, 1 to 65,536.
    pub fn size(&self) -> u32 {
        let mut size = 0u32;
        for range in &self.ranges {
            size = size.saturating_add(size_of(*range));
        }
        size
    }

    /// Whether a store is a sweep: over 64 addresses or more.
    pub fn is_sweep(&self) -> bool {
        self.size() >= SWEEP
    }

    /// From the first address to the last.
    pub fn hull(&self) -> Option<WordRange> {
        let first = self.ranges.first()?;
        let last = self.ranges.last()?;
        WordRange::new(first.low(), last.high())
    }
}

/// The number of addresses of a range.
fn size_of(range: WordRange) -> u32 {
    u32::from(range.high())
        .saturating_sub(u32::from(range.low()))
        .saturating_add(1)
}

/// The data accesses of a program, by rising address of the instruction.
#[derive(Drop)]
pub struct Accesses {
    pub stores: Vec<Access>,
    pub loads: Vec<Access>,
}

/// The accesses of one instruction, as they are found row by row.
#[derive(Drop)]
struct Found {
    stores: Vec<WordRange>,
    loads: Vec<WordRange>,
    byte: Option<ByteRange>,
    enable: Option<ByteRange>,
}

/// The hull of what was known before and one more range.
fn wider(before: Option<ByteRange>, more: ByteRange) -> Option<ByteRange> {
    Some(match before {
        Some(before) => before.join(&more),
        None => more,
    })
}

impl Found {
    fn new(alloc: Global) -> Found {
        Found {
            stores: Vec::new(alloc),
            loads: Vec::new(alloc),
            byte: None,
            enable: None,
        }
    }

    /// Takes the accesses of a row.
    fn take(&mut self, alloc: Global, subject: &Subject) -> Result<(), AllocError> {
        let step = subject.row_step(alloc);
        for write in step.writes.as_slice() {
            self.stores.push(write.at)?;
            self.byte = wider(self.byte, write.byte);
            if subject.map.some_enable(write.at) {
                self.enable = wider(self.enable, write.byte);
            }
        }
        if let Ok(instr) = &subject.decoded {
            for range in data_reads(instr, subject.row.pairs) {
                if let Some(range) = range {
                    self.loads.push(range)?;
                }
            }
        }
        Ok(())
    }
}

impl Accesses {
    /// The data accesses of a program.
    pub fn of(alloc: Global, view: &View) -> Result<Accesses, AllocError> {
        let accepted = view.accepted();
        let mut all = Accesses {
            stores: Vec::new(alloc),
            loads: Vec::new(alloc),
        };
        for address in 0..accepted.rom().len() {
            let mut found = Found::new(alloc);
            for row in view.survey().rows().at(address) {
                if let Some(subject) = Subject::of(
                    accepted.rom(),
                    accepted.map(),
                    accepted.certificate(),
                    row.id,
                ) {
                    found.take(alloc, &subject)?;
                }
            }
            all.add(alloc, address, found)?;
        }
        Ok(all)
    }

    /// Adds the accesses of an instruction.
    fn add(&mut self, alloc: Global, address: u16, found: Found) -> Result<(), AllocError> {
        let Found {
            stores,
            loads,
            byte,
            enable,
        } = found;
        if !stores.is_empty() {
            self.stores.push(Access {
                address,
                ranges: merged(alloc, stores)?,
                byte: byte.unwrap_or(ByteRange::full()),
                enable,
            })?;
        }
        if !loads.is_empty() {
            self.loads.push(Access {
                address,
                ranges: merged(alloc, loads)?,
                byte: ByteRange::full(),
                enable: None,
            })?;
        }
        Ok(())
    }
}

/// Ranges in their order, in which those that touch are one.
fn merged(alloc: Global, ranges: Vec<WordRange>) -> Result<Vec<WordRange>, AllocError> {
    let mut ranges = ranges;
    ranges.sort_by_key(|range| (range.low(), range.high()))?;
    let mut all: Vec<WordRange> = Vec::new(alloc);
    for range in &ranges {
        if let Some(last) = all.last_mut() {
            if range.low() <= last.high().saturating_add(1) {
                *last = last.join(range);
                continue;
            }
        }
        all.push(*range)?;
    }
    Ok(all)
}
