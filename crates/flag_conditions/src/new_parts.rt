// At most three flag parts in their order.
ghost use Rattle.std.specs.Prelude.{◌≡◌, ◌≤◌, ◌++◌, [], ◌∷◌, length};

use arrayvec::ArrayVec;
use flag_letters::FlagPart;
use std::marker::Model;

/// At most three flag parts, in order.
#[derive(Drop)]
pub(crate) struct NewParts {
    parts: ArrayVec<FlagPart, 3>,
}

impl Model for NewParts {
    ghost use Rattle.std.specs.Prelude.{List, length, ◌≤◌};
    ghost use Rattle.flag_letters.specs.declared.part.FlagPart.{FlagPart};

    ghost Value = { List FlagPart };

    ghost view = { λ p. p.parts.items };

    ghost invariant = { λ p. length p.parts.items ≤ 3 };

    ghost inverse = { λ parts. record { parts = record { items = parts } } };
}

impl NewParts {
    pub(crate) fn none() -> NewParts
        ensures { result ≡ [] }
    {
        NewParts {
            parts: ArrayVec::new(),
        }
    }

    pub(crate) fn one(first: FlagPart) -> NewParts
        ensures { result ≡ first ∷ [] }
    {
        let mut parts = ArrayVec::new();
        parts.push(first);
        NewParts { parts }
    }

    pub(crate) fn two(first: FlagPart, second: FlagPart) -> NewParts
        ensures { result ≡ first ∷ second ∷ [] }
    {
        let mut parts = ArrayVec::new();
        parts.push(first);
        parts.push(second);
        NewParts { parts }
    }

    pub(crate) fn three(first: FlagPart, second: FlagPart, third: FlagPart) -> NewParts
        ensures { result ≡ first ∷ second ∷ third ∷ [] }
    {
        let mut parts = ArrayVec::new();
        parts.push(first);
        parts.push(second);
        parts.push(third);
        NewParts { parts }
    }

    pub(crate) fn parts(&self) -> &[FlagPart]
        ensures value { result.now ≡ self.now }
        ensures within { length result.now ≤ 3 }
    {
        self.parts.as_slice()
    }
}
