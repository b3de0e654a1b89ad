// Affine spaces over the registers and the stack slots of a row.
ghost use Rattle.std.specs.Prelude.{◌≡◌, ◌↔◌, ◌≢◌, ℕ, ◌<◌, ◌≤◌, ℤ, pos, ◌-ℤ◌, IsTrue, IfSome, MatchOption, slice_index_or, false};
ghost use Rattle.loop_bounds.specs.declared.variable.Variable.{Variable};
ghost use Rattle.loop_bounds.specs.Variable.{rank_of};

use loop_bounds::Variable;
use tracked_variables::{TRACKED, Vector};

/// The directions that a space has at most.
pub const DIRECTIONS: usize = 8;

/// The greatest coordinate of a space's point, in size.
pub const GREATEST_COORDINATE: u32 = 1_000_000;

/// A set of values of the variables: a point, and directions. Of some variables it knows nothing.
#[derive(Clone, Copy)]
pub struct Space {
    /// The variables of which something is known, as bits by rank.
    pub(crate) known: u64,
    /// A value for each known variable, by rank.
    pub(crate) point: [i32; TRACKED],
    /// The coefficient of each direction at each variable, by the variable's rank.
    pub(crate) columns: [[i16; DIRECTIONS]; TRACKED],
    /// For each direction the rank of a variable that no other direction changes.
    pub(crate) pivots: [u8; DIRECTIONS],
    /// How many directions there are.
    pub(crate) count: usize,
    ghost few: { count ≤ 8 },
}

impl Space {
    ghost use Rattle.affine.specs.Space.{LiesOn, HasValue, HasTwoValues, KnowsAt, IsSameAt, coordinate_at, coefficient_at, knowledge_of};
    ghost use Rattle.tracked_variables.specs.Vector.{entry_at};

    /// The space of all values.
    pub fn full() -> Space
        ensures all { (x : Variable → ℤ) → LiesOn result x }
        ensures least { knowledge_of result ≡ 8 }
    {
        Space {
            known: 0,
            point: [0; TRACKED],
            columns: [[0; DIRECTIONS]; TRACKED],
            pivots: [0; DIRECTIONS],
            count: 0,
        }
    }

    /// Whether something is known of the variable of a rank.
    pub(crate) fn knows(&self, rank: usize) -> bool
        ensures { IsTrue result ↔ KnowsAt self.now rank }
    {
        rank < TRACKED && (self.known >> rank) & 1 == 1
    }

    /// The value of a variable, if it has only one.
    pub fn constant(&self, variable: Variable) -> Option<i32>
        ensures { MatchOption result (HasTwoValues self.now variable) (HasValue self.now variable) }
    {
        let rank = usize::from(variable.rank());
        if self.knows(rank) && !self.moves(rank) {
            Some(self.point[rank])
        } else {
            None
        }
    }

    /// Whether something is known of the variable of a rank, and some direction changes it.
    pub(crate) fn moves(&self, rank: usize) -> bool
        ensures still { KnowsAt self.now rank → result ≡ false
            → (i : ℕ) → i < self.now.count → coefficient_at self.now rank i ≡ pos 0 }
        ensures changed { IsTrue result
            → (i : ℕ) × (i < self.now.count) × (coefficient_at self.now rank i ≢ pos 0) }
    {
        if !self.knows(rank) {
            return false;
        }
        for index in 0..self.count {
            if self.columns[rank][index] != 0 {
                return true;
            }
        }
        false
    }

    /// The coefficients of a direction.
    pub(crate) fn direction(&self, index: usize) -> Vector
        requires { index < 8 }
        ensures { (rank : ℕ) → rank < 48
            → entry_at result rank ≡ coefficient_at self.now rank index }
    {
        let mut entries = [0; TRACKED];
        for rank in 0..TRACKED {
            entries[rank] = i32::from(self.columns[rank][index]);
        }
        Vector { entries }
    }

    /// The point of another space minus this one's, or None if a difference does not fit.
    pub(crate) fn difference(&self, other: &Space) -> Option<Vector>
        ensures { IfSome result (λ d. (rank : ℕ) → rank < 48
            → entry_at d rank ≡ coordinate_at other.now rank -ℤ coordinate_at self.now rank) }
    {
        let mut entries = [0; TRACKED];
        for rank in 0..TRACKED {
            entries[rank] = other.point[rank].checked_sub(self.point[rank])?;
        }
        Some(Vector { entries })
    }

    /// Makes the variable of a rank a known one, with a value and coefficients.
    pub(crate) fn set(&mut self, rank: usize, value: i32, column: [i16; DIRECTIONS])
        requires { rank < 48 }
        ensures known { KnowsAt self.new rank }
        ensures value { coordinate_at self.new rank ≡ value }
        ensures column { (i : ℕ) → coefficient_at self.new rank i
            ≡ slice_index_or column i (pos 0) }
        ensures others { (r : ℕ) → r < 48 → r ≢ rank → IsSameAt self.old self.new r }
        ensures count { self.new.count ≡ self.old.count }
    {
        self.known |= 1 << rank;
        self.point[rank] = value;
        self.columns[rank] = column;
    }

    /// Forgets the variable of a rank.
    pub(crate) fn forget(&mut self, rank: usize)
        requires { rank < 48 }
        ensures unknown { ¬ KnowsAt self.new rank }
        ensures others { (r : ℕ) → r < 48 → r ≢ rank → IsSameAt self.old self.new r }
        ensures count { self.new.count ≡ self.old.count }
    {
        self.known &= !(1 << rank);
        self.point[rank] = 0;
        self.columns[rank] = [0; DIRECTIONS];
    }
}
