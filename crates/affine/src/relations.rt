// Linear equalities that hold on a space.
ghost use Rattle.std.specs.Prelude.{◌≡◌, ◌<◌, ◌≤◌, [], ◌∷◌, ◌++◌, length, All};
ghost use Rattle.loop_bounds.specs.Linear.{LinearView};
ghost use Rattle.affine.specs.Equality.{IsZeroOn};

use crate::equalities::Factor;
use crate::space::Space;
use loop_bounds::{Linear, Variable};
use std::marker::Model;
use tracked_variables::{TRACKED, is_half};

/// The equalities that `relations` and `triples` answer at most.
pub const MOST_RELATIONS: usize = 24;

/// At most 24 linears that are 0 on a space.
#[derive(Drop)]
pub struct Relations {
    linears: [Linear; MOST_RELATIONS],
    count: usize,
}

impl Model for Relations {
    ghost use Rattle.std.specs.Prelude.{List, ◌≤◌, take};
    ghost use Rattle.loop_bounds.specs.Linear.{LinearView};

    ghost Value = { List LinearView };

    ghost view = { λ r. take r.count r.linears };

    ghost invariant = { λ r. r.count ≤ 24 };
}

impl Relations {
    fn none() -> Relations
        ensures { result ≡ [] }
    {
        Relations {
            linears: [Linear::zero(); MOST_RELATIONS],
            count: 0,
        }
    }

    /// The linears, in their order.
    pub fn as_slice(&self) -> &[Linear]
        ensures { result.now ≡ self.now }
    {
        &self.linears[..self.count]
    }

    /// Adds a linear, if there is room.
    fn push(&mut self, linear: Linear)
        ensures room { length self.old < 24 → self.new ≡ self.old ++ linear ∷ [] }
        ensures full { 24 ≤ length self.old → self.new ≡ self.old }
    {
        if self.count < MOST_RELATIONS {
            self.linears[self.count] = linear;
            self.count += 1;
        }
    }
}

impl Space {
    /// The equalities `a*x + b*y + c = 0` of two variables that hold on the space, in the order of `x`, then of `y`.
    /// The rank of `x` is lower than that of `y`. `a` and `b` have no common divisor and are at most 1,000 in size; `a`
    /// is positive. A variable with one value is in no equality. There is none of a pair and its half, as HL and H.
    /// After the first 24, further ones are left out.
    pub fn relations(&self) -> Relations
        ensures { All (IsZeroOn self.now) result }
    {
        let mut found = Relations::none();
        let moving = self.moving();
        for first in 0..TRACKED {
            if (moving >> first) & 1 == 1 {
                self.add_pairs(first, moving, &mut found);
            }
        }
        found
    }

    /// The equalities of three variables that hold on the space, one of them `with`, where no two of them are in an
    /// equality by themselves. Their order, coefficients and number are as in `relations`.
    pub fn triples(&self, with: Variable) -> Relations
        ensures { All (IsZeroOn self.now) result }
    {
        let mut found = Relations::none();
        let moving = self.moving();
        let with = usize::from(with.rank());
        if with < TRACKED && (moving >> with) & 1 == 1 {
            for first in 0..TRACKED {
                if (moving >> first) & 1 == 1 && first != with && !is_half(first, with) {
                    self.add_triples(with, first, moving, &mut found);
                }
            }
        }
        found
    }

    /// The known variables that some direction changes, as bits by rank.
    fn moving(&self) -> u64 {
        let mut moving = 0;
        for rank in 0..TRACKED {
            if self.moves(rank) {
                moving |= 1 << rank;
            }
        }
        moving
    }

    /// Adds the equalities of a variable and one of a higher rank.
    fn add_pairs(&self, first: usize, moving: u64, found: &mut Relations)
        requires rank { first < 48 }
        requires zero { All (IsZeroOn self.now) found.old }
        ensures { All (IsZeroOn self.now) found.new }
    {
        for second in first + 1..TRACKED {
            if (moving >> second) & 1 == 1 && !is_half(first, second) {
                if let Some((left, right)) = self.ratio(first, second) {
                    let factors = [(first, left), (second, right)];
                    self.add_equality(&factors, found);
                }
            }
        }
    }

    /// Adds the equalities of two variables and a third one of a higher rank than the second.
    fn add_triples(&self, with: usize, first: usize, moving: u64, found: &mut Relations)
        requires with { with < 48 }
        requires first { first < 48 }
        requires zero { All (IsZeroOn self.now) found.old }
        ensures { All (IsZeroOn self.now) found.new }
    {
        for second in first + 1..TRACKED {
            if (moving >> second) & 1 == 1 && second != with {
                if let Some(factors) = self.triple(with, first, second) {
                    self.add_equality(&factors, found);
                }
            }
        }
    }

    /// Adds the equality with these factors, if it holds.
    fn add_equality(&self, factors: &[Factor], found: &mut Relations)
        requires { All (IsZeroOn self.now) found.old }
        ensures { All (IsZeroOn self.now) found.new }
    {
        if let Some(linear) = self.equality(factors) {
            if self.has_zero(&linear) {
                found.push(linear);
            }
        }
    }

    /// Factors of three variables by rising rank, if no two of them are halves of one another.
    fn triple(&self, with: usize, first: usize, second: usize) -> Option<[Factor; 3]>
        requires with { with < 48 }
        requires first { first < 48 }
        requires second { second < 48 }
    {
        if is_half(second, with) || is_half(first, second) {
            return None;
        }
        let ranks = if with < first {
            [with, first, second]
        } else if with < second {
            [first, with, second]
        } else {
            [first, second, with]
        };
        let [one, two, three] = self.balance(ranks[0], ranks[1], ranks[2])?;
        Some([(ranks[0], one), (ranks[1], two), (ranks[2], three)])
    }
}
