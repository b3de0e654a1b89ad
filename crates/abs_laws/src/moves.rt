// Laws of the moves without stack accesses: each keeps the abstract draft true of the machine's draft.

ghost use Rattle.abs_laws.specs.MovesLaws.{ConstantsAreInRange, AccessFreeMovesFit};

/// A law: the constants in the moves of an instruction in a ROM of bytes are bytes and words.
pub fn constants_are_in_range()
    ensures { ConstantsAreInRange }
{}

/// A law: a move without stack accesses keeps the abstract draft true. An instruction makes at most two data writes.
pub fn access_free_moves_fit()
    ensures { AccessFreeMovesFit }
{}
