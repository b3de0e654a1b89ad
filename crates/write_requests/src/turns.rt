// The cost of a turn of a loop (docs/ANALYSIS.md, "Loops").

use crate::groups::Placed;
use crate::requests::{Request, Requests};
use std::alloc::{AllocError, Global};
use std::mem::swap;

/// The greatest costs of paths to a loop's row within its group, by the rows' numbers. A back link leads to a row that
/// the search for the groups left no earlier than the row from which the link comes; the other links make no cycle. So
/// paths are found by their number of back links, the fewest first.
#[derive(Drop)]
pub struct Turns<'a> {
    all: &'a [Requests],
    placed: &'a [Placed],
    /// Which rows have a counter, so are loops' rows.
    named: &'a [bool],
    /// The paths with the current number of back links.
    ways: Vec<Option<u64>>,
    /// The paths with one back link fewer.
    before: Vec<Option<u64>>,
}

impl<'a> Turns<'a> {
    /// For what all rows request, the rows with their groups, and which rows have a counter. No cost is computed yet.
    pub fn new(
        alloc: Global,
        all: &'a [Requests],
        placed: &'a [Placed],
        named: &'a [bool],
    ) -> Result<Turns<'a>, AllocError> {
        Ok(Turns {
            all,
            placed,
            named,
            ways: vec![in alloc; None; all.len()]?,
            before: vec![in alloc; None; all.len()]?,
        })
    }

    /// The greatest cost of a path from a loop's row back to it that passes no other loop's row, among those with the
    /// fewest back links; None if there is none. The rows of its group have to be in the order in which the search left
    /// them.
    pub fn own_cost_of(&mut self, group: &[Placed], head: u16) -> Option<u64> {
        self.cost_by(group, head, false)
    }

    /// The same for paths that may pass other loops' rows.
    pub fn cost_of(&mut self, group: &[Placed], head: u16) -> Option<u64> {
        self.cost_by(group, head, true)
    }

    /// The greatest cost of a path from one of these loops' rows to one of them that passes no loop's row; None if there
    /// is none. `others` are the rows of the group that are no loops' rows, each after those others to which it links.
    pub fn cost_among(&mut self, group: &[Placed], others: &[u16], heads: &[u16]) -> Option<u64> {
        self.forget(group);
        swap(&mut self.before, &mut self.ways);
        self.forget(group);
        for head in heads {
            self.set_both(*head, Some(0));
        }
        for row in others {
            let way = self.way_from(*row);
            self.set_both(*row, way);
        }
        let mut most = None;
        for head in heads {
            most = most.max(self.way_from(*head));
        }
        most
    }

    /// Sets the path from a row, however many back links it has.
    fn set_both(&mut self, row: u16, way: Option<u64>) {
        set(&mut self.ways, row, way);
        set(&mut self.before, row, way);
    }

    /// The greatest cost of a path from a loop's row back to it, among those with the fewest back links. `passes` says
    /// whether it may pass other loops' rows.
    fn cost_by(&mut self, group: &[Placed], head: u16, passes: bool) -> Option<u64> {
        self.forget(group);
        swap(&mut self.before, &mut self.ways);
        self.forget(group);
        set(&mut self.ways, head, Some(0));
        self.go_along(group, head, passes);
        for _ in 0..=group.len() {
            swap(&mut self.before, &mut self.ways);
            self.forget(group);
            let goes_on = self.go_along(group, head, passes);
            let cost = self.way_from(head);
            if cost.is_some() || !goes_on {
                return cost;
            }
        }
        None
    }

    /// Forgets the paths from these rows.
    fn forget(&mut self, group: &[Placed]) {
        for placed in group {
            set(&mut self.ways, placed.row, None);
        }
    }

    /// Finds the paths from these rows except the loop's own row and, unless they may be passed, other loops' rows. The
    /// result is whether there are any.
    fn go_along(&mut self, group: &[Placed], head: u16, passes: bool) -> bool {
        let mut some = false;
        for placed in group {
            if placed.row != head && (passes || !self.is_named(placed.row)) {
                let way = self.way_from(placed.row);
                some = some || way.is_some();
                set(&mut self.ways, placed.row, way);
            }
        }
        some
    }

    /// Whether a row is a loop's row.
    fn is_named(&self, row: u16) -> bool {
        self.named.get(usize::from(row)).copied() == Some(true)
    }

    /// The path from a row, by those from the rows that come next.
    fn way_from(&self, row: u16) -> Option<u64> {
        let requests = self.all.get(usize::from(row))?;
        let from = self.placed.get(usize::from(row)).copied()?;
        let mut most = None;
        for request in requests.of_rows.as_slice() {
            most = most.max(self.way_by(from, request));
        }
        most
    }

    /// The path from a row by one of its requests.
    fn way_by(&self, from: Placed, request: &Request) -> Option<u64> {
        let mut most = None;
        for next in request.start..request.end {
            most = most.max(self.way_over(from, next as usize));
        }
        let way = most?;
        Some(way.saturating_add(u64::from(request.cost)))
    }

    /// The path from the row that comes next, if it is in the same group.
    fn way_over(&self, from: Placed, next: usize) -> Option<u64> {
        let to = self.placed.get(next).copied()?;
        if to.group != from.group {
            return None;
        }
        if to.left >= from.left {
            *self.before.get(next)?
        } else {
            *self.ways.get(next)?
        }
    }
}

fn set(ways: &mut [Option<u64>], row: u16, way: Option<u64>) {
    if let Some(place) = ways.get_mut(usize::from(row)) {
        *place = way;
    }
}
