// Addresses that lie in some of many ranges.

use intervals::WordRange;
use std::alloc::{AllocError, Global};

/// For each address, where the furthest range that begins there ends.
#[derive(Drop)]
pub(crate) struct RangeEnds {
    ends: Vec<u32>,
}

impl RangeEnds {
    pub(crate) fn new(alloc: Global) -> Result<RangeEnds, AllocError> {
        Ok(RangeEnds {
            ends: vec![in alloc; 0u32; 0x1_0000]?,
        })
    }

    /// Adds a range.
    pub(crate) fn add(&mut self, range: WordRange) {
        if let Some(end) = self.ends.get_mut(usize::from(range.low())) {
            *end = (*end).max(u32::from(range.high()).saturating_add(1));
        }
    }

    /// Whether each address lies in some range, from 0000 on.
    pub(crate) fn flags(&self, alloc: Global) -> Result<Vec<bool>, AllocError> {
        let mut flags = Vec::with_capacity(alloc, self.ends.len())?;
        let mut reach = 0u32;
        let mut address = 0u32;
        for end in &self.ends {
            reach = reach.max(*end);
            flags.push(address < reach)?;
            address = address.saturating_add(1);
        }
        Ok(flags)
    }
}
