// The flag parts of a certificate's rows, by number.

ghost use Rattle.std.specs.Prelude.{◌≡◌, ◌<◌, ◌≤◌, ℕ, Some, IfOk, OnErr, [], ◌∷◌, length, option_copied, slice_get};

use flag_letters::FlagParts;
use std::alloc::{AllocError, Global};
use std::marker::Model;

/// The flag parts of rows. Most rows have none, so only the others are stored. Number 0 means none.
#[derive(Drop)]
pub(crate) struct StoredParts {
    none: FlagParts,
    others: Vec<FlagParts>,
}

impl Model for StoredParts {
    ghost use Rattle.std.specs.Prelude.{List, [], ◌∷◌, ◌≡◌};
    ghost use Rattle.flag_letters.specs.declared.part.FlagPart.{FlagPart};

    ghost Value = { List (List FlagPart) };

    ghost view = { λ s. [] ∷ s.others.items };

    ghost invariant = { λ s. s.none ≡ [] };
}

impl StoredParts {
    /// Number 0 alone, which stands for no parts. Others that are added take their memory from this allocator.
    pub fn new(alloc: Global) -> StoredParts
        ensures { result ≡ [] ∷ [] }
    {
        StoredParts {
            none: FlagParts::empty(),
            others: Vec::new(alloc),
        }
    }

    /// The number of flag parts; those of a row that has some get the next number. Where memory is refused, what is
    /// stored stays as it was.
    pub fn number_of(&mut self, parts: FlagParts) -> Result<usize, AllocError>
        ensures stored { IfOk result (λ n. slice_get self.new n ≡ Some parts) }
        ensures kept { (n : ℕ) → n < length self.old → slice_get self.new n ≡ slice_get self.old n }
        ensures longer { length self.old ≤ length self.new }
        ensures err { OnErr result (self.new ≡ self.old) }
    {
        let next = self.others.len() + 1;
        if parts.is_empty() {
            return Ok(0);
        }
        self.others.push(parts)?;
        Ok(next)
    }

    /// The flag parts with this number.
    pub fn parts(&self, number: usize) -> Option<&FlagParts>
        ensures { option_copied result ≡ slice_get self.now number }
    {
        if number == 0 {
            return Some(&self.none);
        }
        self.others.get(number - 1)
    }
}
