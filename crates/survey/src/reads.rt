// Which bytes of the ROM instructions read as data.

use address_map::{ROM_LIMIT, Starts};
use intervals::WordRange;
use std::alloc::{AllocError, Global};

/// A range with so many addresses says nothing of a single byte, so it does not count.
const TOO_WIDE: u16 = 0x1000;

/// For each address below 4000h, where the furthest range of reads that begins there ends.
#[derive(Drop)]
pub(crate) struct ReadRanges {
    ends: Vec<u16>,
}

impl ReadRanges {
    pub(crate) fn new(alloc: Global) -> Result<ReadRanges, AllocError> {
        let mut ends = Vec::with_capacity(alloc, usize::from(ROM_LIMIT))?;
        for _ in 0..ROM_LIMIT {
            ends.push(0u16)?;
        }
        Ok(ReadRanges { ends })
    }

    /// Adds a range of fewer than 4,096 addresses. A wider one is passed over.
    pub(crate) fn add(&mut self, range: WordRange) {
        let (low, high) = (range.low(), range.high());
        if high.saturating_sub(low) >= TOO_WIDE - 1 {
            return;
        }
        if let Some(end) = self.ends.get_mut(usize::from(low)) {
            *end = (*end).max(high.saturating_add(1));
        }
    }

    /// The addresses below 4000h that lie in some range.
    pub(crate) fn addresses(&self) -> Starts {
        let mut read = Starts::new();
        let mut reach = 0u16;
        for address in 0..ROM_LIMIT {
            if let Some(end) = self.ends.get(usize::from(address)) {
                reach = reach.max(*end);
            }
            if address < reach {
                read.insert(address);
            }
        }
        read
    }
}
