// The search for a row that covers a state.

ghost use Rattle.std.specs.Prelude.{◌≤◌, ◌<◌, ◌↔◌, ℕ, IfSome, IsTrue, MatchOption};
ghost use Rattle.check_cover.specs.Covering.{RowCovers, SomeCovers};
ghost use Rattle.check_cover.specs.Whole.{IsRemembered};

use crate::alike::{Alike, BLOCK};
use crate::covering::{Coverer, Sought};
use crate::index::{Kind, Order, Place};
use crate::knowing::tightened;
use abs_state::{AbsState, Pairs};
use cert_contents::RowId;

impl<'a> Coverer<'a> {
    /// The number of a row at the address that covers the state. The row that covered last comes first, then the rows to
    /// which the index leads, then all.
    pub(crate) fn covering_row(&self, sought: &Sought) -> Option<RowId>
        requires { IsRemembered self.now sought.now.arrival.now sought.now.known }
        ensures { MatchOption result (SomeCovers self.now sought.now.arrival.now sought.now.state.now
            → ⊥) (λ _. SomeCovers self.now sought.now.arrival.now sought.now.state.now) }
    {
        let arrival = sought.arrival;
        let rows = self.certificate.rows_at(arrival.proc, arrival.address);
        let likely = self.likely_row(rows.start, rows.end, sought);
        if likely.is_some() {
            return likely;
        }
        self.first_covering(rows.start, rows.end, sought)
    }

    /// The number of a row among these that covers the state: the row that covered last, or one to which the index leads,
    /// or the first if there is no index for the address.
    pub(crate) fn likely_row(&self, start: RowId, end: RowId, sought: &Sought) -> Option<RowId>
        requires { IsRemembered self.now sought.now.arrival.now sought.now.known }
        ensures { IfSome result (λ k. (start ≤ k) × (k < end)
            × RowCovers self.now sought.now.arrival.now sought.now.state.now k) }
    {
        let to = end.min(self.last.saturating_add(1));
        let near = self.first_covering(start.max(self.last), to, sought);
        if near.is_some() {
            return near;
        }
        match self.index.at(start) {
            Some(place) => self.indexed(place, start, end, sought),
            None => self.first_covering(start, end, sought),
        }
    }

    /// The number of a row that covers the state, among those to which the index of an address leads.
    fn indexed(&self, place: &Place, start: RowId, end: RowId, sought: &Sought) -> Option<RowId>
        requires { IsRemembered self.now sought.now.arrival.now sought.now.known }
        ensures { IfSome result (λ k. (start ≤ k) × (k < end)
            × RowCovers self.now sought.now.arrival.now sought.now.state.now k) }
    {
        let id = self.among_kinds(place, sought)?;
        if start <= id && id < end {
            Some(id)
        } else {
            None
        }
    }

    /// The same, over the kinds of rows at the address.
    fn among_kinds(&self, place: &Place, sought: &Sought) -> Option<RowId>
        requires { IsRemembered self.now sought.now.arrival.now sought.now.known }
        ensures { IfSome result
            (RowCovers self.now sought.now.arrival.now sought.now.state.now) }
    {
        for kind in place.kinds.as_slice() {
            let found = self.among_kind(kind, sought);
            if found.is_some() {
                return found;
            }
        }
        None
    }

    /// The same, over rows of one kind. They have the same claims, so where those of one row are not known, those of no
    /// other are.
    fn among_kind(&self, kind: &Kind, sought: &Sought) -> Option<RowId>
        requires { IsRemembered self.now sought.now.arrival.now sought.now.known }
        ensures { IfSome result
            (RowCovers self.now sought.now.arrival.now sought.now.state.now) }
    {
        let id = self.fitting_kind(kind, sought.state)?;
        if self.row_covers(id, sought) {
            Some(id)
        } else {
            None
        }
    }

    /// The number of a row of a kind that seems to cover a state; claims are not looked at. The state is tightened once
    /// for all of the rows. Where nothing is left of it, each of them covers it or none.
    fn fitting_kind(&self, kind: &Kind, state: &AbsState) -> Option<RowId> {
        let row = self.certificate.row(kind.like)?;
        match tightened(row.facts.as_slice(), state.copied()) {
            Some(left) => self.fitting(&kind.order, state, &left.pairs),
            None => Some(kind.like),
        }
    }

    /// The same, among the rows that may cover what is left of the pairs.
    fn fitting(&self, order: &Order, state: &AbsState, left: &Pairs) -> Option<RowId> {
        match order {
            Order::Few(rows) => self.first_fitting(rows.as_slice(), state, left),
            Order::ByValue(by_value) => self.first_fitting(by_value.rows_for(left), state, left),
            Order::Alike(alike) => self.among_groups(alike, state, left),
        }
    }

    /// The same, over all groups.
    fn among_groups(&self, alike: &Alike, state: &AbsState, left: &Pairs) -> Option<RowId> {
        for group in 0..alike.groups.len() {
            if may_cover(alike.groups.as_slice(), group, left) {
                let found = self.among_blocks(alike, group * BLOCK, state, left);
                if found.is_some() {
                    return found;
                }
            }
        }
        None
    }

    /// The same, over the blocks of one group.
    fn among_blocks(
        &self,
        alike: &Alike,
        start: usize,
        state: &AbsState,
        left: &Pairs,
    ) -> Option<RowId> {
        for block in start..alike.blocks.len().min(start.saturating_add(BLOCK)) {
            if may_cover(alike.blocks.as_slice(), block, left) {
                let found = self.first_fitting(alike.rows_of(block), state, left);
                if found.is_some() {
                    return found;
                }
            }
        }
        None
    }

    /// The first of these rows whose ranges cover what is left of the pairs, and those of the stack.
    fn first_fitting(&self, rows: &[RowId], state: &AbsState, left: &Pairs) -> Option<RowId> {
        for id in rows {
            if let Some(row) = self.certificate.row(*id)
                && row.pairs.covers(left)
                && row.shape.covers(&state.shape)
            {
                return Some(*id);
            }
        }
        None
    }

    /// The first of these numbers whose row covers the state.
    fn first_covering(&self, start: RowId, end: RowId, sought: &Sought) -> Option<RowId>
        requires { IsRemembered self.now sought.now.arrival.now sought.now.known }
        ensures { MatchOption result ((k : ℕ) → start ≤ k → k < end
            → RowCovers self.now sought.now.arrival.now sought.now.state.now k → ⊥)
            (λ k. (start ≤ k) × (k < end)
            × RowCovers self.now sought.now.arrival.now sought.now.state.now k) }
    {
        for id in start..end {
            if self.row_covers(id, sought) {
                return Some(id);
            }
        }
        None
    }

    /// Whether there is a row with this number and it covers the state.
    fn row_covers(&self, id: RowId, sought: &Sought) -> bool
        requires { IsRemembered self.now sought.now.arrival.now sought.now.known }
        ensures { IsTrue result
            ↔ RowCovers self.now sought.now.arrival.now sought.now.state.now id }
    {
        match self.certificate.row(id) {
            Some(row) => {
                let known = self.row_known(sought.known);
                sought
                    .arrival
                    .is_covered_by(sought.state, &row, known.as_ref())
            }
            None => false,
        }
    }
}

/// Whether some row of a block or group may cover what facts leave of a state: their hulls have to cover it.
fn may_cover(hulls: &[Pairs], at: usize, left: &Pairs) -> bool {
    match hulls.get(at) {
        Some(hull) => hull.covers(left),
        None => false,
    }
}
