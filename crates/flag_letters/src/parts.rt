// The flag parts of a row.
ghost use Rattle.std.specs.Prelude.{◌≡◌, ◌↔◌, ◌<◌, ◌≤◌, ◌++◌, [], ◌∷◌, length, IsTrue};

use crate::part::FlagPart;
use arrayvec::ArrayVec;
use std::marker::Model;

/// The greatest number of flag parts of a row.
pub const MOST_PARTS: usize = 8;

const _: () = prove!(MOST_PARTS == 8);

/// The flag parts of a row, at most eight, in the row's order.
#[derive(Drop, PartialEq, Eq)]
pub struct FlagParts {
    parts: ArrayVec<FlagPart, MOST_PARTS>,
}

impl Model for FlagParts {
    ghost use Rattle.std.specs.Prelude.{List, length, ◌≤◌};
    ghost use Rattle.flag_letters.specs.declared.part.FlagPart.{FlagPart};

    ghost Value = { List FlagPart };

    ghost view = { λ p. p.parts.items };

    ghost invariant = { λ p. length p.parts.items ≤ 8 };

    ghost inverse = { λ parts. record { parts = record { items = parts } } };
}

impl FlagParts {
    /// No parts: nothing is known of the flags.
    pub fn empty() -> FlagParts
        ensures { result ≡ [] }
    {
        FlagParts {
            parts: ArrayVec::new(),
        }
    }

    /// A copy. It takes no memory.
    pub fn copied(&self) -> FlagParts
        ensures { result ≡ self.now }
    {
        let mut parts = ArrayVec::new();
        let _fits = parts.try_extend_from_slice(self.parts());
        FlagParts { parts }
    }

    /// The parts in their order, at most eight.
    pub fn parts(&self) -> &[FlagPart]
        ensures value { result.now ≡ self.now }
        ensures within { length result.now ≤ 8 }
    {
        self.parts.as_slice()
    }

    /// Whether there is no part.
    pub fn is_empty(&self) -> bool
        ensures { IsTrue result ↔ (self.now ≡ []) }
    {
        self.parts.is_empty()
    }

    /// Whether there are eight parts, so that no other fits.
    pub fn is_full(&self) -> bool
        ensures full { IsTrue result ↔ (length self.now ≡ 8) }
        ensures room { IsTrue result ↔ (8 ≤ length self.now) }
    {
        self.parts.len() == MOST_PARTS
    }

    /// Adds a part behind the others.
    pub fn push(&mut self, part: FlagPart)
        requires { length self.old < 8 }
        ensures { self.new ≡ self.old ++ part ∷ [] }
    {
        self.parts.push(part);
    }
}
