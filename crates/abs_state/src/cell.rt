// Kept cells: cells of work RAM that keep a range once they are armed.
ghost use Rattle.abs_state.specs.Cell.{HoldsCell, CoversCell, hull_of_cells};

use intervals::{ByteRange, Domain};

/// A cell of work RAM that, once armed, holds a byte of its range (docs/CHECKER.md, "What a row knows").
#[derive(Clone, Copy)]
pub struct KeptCell {
    /// An address of the cell, in the first 400h addresses of work RAM.
    pub at: u16,
    /// The bytes that the cell may hold.
    pub range: ByteRange,
}

impl Domain for KeptCell {
    ghost use Rattle.abs_state.specs.CellLaws.{cell_covers_itself, cell_covers_along, cell_holds_wider, cell_hull_covers_first, cell_hull_covers_second};

    ghost holds = { HoldsCell };

    ghost Covers = { CoversCell };

    ghost joined = { hull_of_cells };

    ghost reflexive = { cell_covers_itself };

    ghost transitive = { cell_covers_along };

    ghost widens = { cell_holds_wider };

    ghost joins_first = { cell_hull_covers_first };

    ghost joins_second = { cell_hull_covers_second };

    /// Whether the range covers the other's, whatever the addresses.
    fn covers(&self, other: &Self) -> bool {
        self.range.covers(&other.range)
    }

    /// This cell with the hull of both ranges.
    fn join(&self, other: &Self) -> Self {
        KeptCell {
            at: self.at,
            range: self.range.join(&other.range),
        }
    }
}
