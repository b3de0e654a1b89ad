// Folding of items that repeat.

use crate::items::Item;
use std::alloc::{AllocError, Global};

/// The most items of a repeated part.
const PERIODS: usize = 24;

/// Items that come once or several times, one after another.
#[derive(Clone, Copy)]
pub struct Segment {
    /// The place of the first item.
    pub start: usize,
    /// The number of items that repeat; 1 if `times` is 1.
    pub len: usize,
    /// How many times they come.
    pub times: usize,
    /// The T-states of all of them.
    pub cost: u64,
}

impl Segment {
    /// The T-states of one time, if that is a whole number.
    pub fn each(&self) -> Option<u64> {
        let times = u64::try_from(self.times).ok()?;
        if times == 0 || self.cost % times != 0 {
            return None;
        }
        Some(self.cost / times)
    }

    /// The items that repeat.
    pub fn items<'a>(&self, items: &'a [Item]) -> &'a [Item] {
        let (_, rest) = items.split_at(self.start.min(items.len()));
        let (own, _) = rest.split_at(self.len.min(rest.len()));
        own
    }
}

/// The items, with those that repeat folded: the shortest period first.
pub(crate) fn folded(alloc: Global, items: &[Item]) -> Result<Vec<Segment>, AllocError> {
    let mut segments = Vec::new(alloc);
    let mut next = 0usize;
    for place in 0..items.len() {
        if place < next {
            continue;
        }
        let segment = segment_at(items, place);
        let length = segment.len.saturating_mul(segment.times);
        next = place.saturating_add(length.max(1));
        segments.push(segment)?;
    }
    Ok(segments)
}

/// The segment that begins at a place.
fn segment_at(items: &[Item], start: usize) -> Segment {
    for len in 1..=PERIODS {
        let times = times_at(items, start, len);
        if times > 1 {
            return Segment {
                start,
                len,
                times,
                cost: cost_of(items, start, len.saturating_mul(times)),
            };
        }
    }
    Segment {
        start,
        len: 1,
        times: 1,
        cost: cost_of(items, start, 1),
    }
}

/// How many times the next `len` items come one after another.
fn times_at(items: &[Item], start: usize, len: usize) -> usize {
    let mut times = 1usize;
    for at in start..items.len() {
        let again = at.saturating_add(len);
        let (Some(item), Some(other)) = (items.get(at), items.get(again)) else {
            break;
        };
        if !item.is_like(other) {
            break;
        }
        let done = at.saturating_sub(start).saturating_add(1);
        times = (done / len.max(1)).saturating_add(1);
    }
    times
}

/// The T-states of so many items.
fn cost_of(items: &[Item], start: usize, count: usize) -> u64 {
    let mut sum = 0u64;
    for item in items.iter().skip(start).take(count) {
        sum = sum.saturating_add(u64::from(item.cost));
    }
    sum
}
