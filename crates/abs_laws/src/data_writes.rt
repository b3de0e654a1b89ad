// Laws of data writes: what a row knows of them is true of what they do to the board.

ghost use Rattle.abs_laws.specs.DataWritesLaws.{WritesAreAsKnownMisses, WritesAreAsKnownTaken, ClearEnablesStayClear, ClearEnablesStayKept, ModesHoldAfterWritesHolds, ModesHoldAfterWritesNmi, ModesHoldAfterWritesUnset, ModesHoldAfterWritesOther, CellsHoldAfterWrites};

/// A law: if no known address of the data writes folds to a cell of the stack region, no write goes to one. If each
/// known address takes data, each write goes to an address that does.
pub fn writes_are_as_known()
    ensures misses { WritesAreAsKnownMisses }
    ensures taken { WritesAreAsKnownTaken }
{}

/// A law: a clear NMI enable stays clear if no data write may enable the NMI and the stack accesses are in the region.
/// (A write of an even byte clears it again.) Without a data write it stays as it is.
pub fn clear_enables_stay()
    ensures clear { ClearEnablesStayClear }
    ensures kept { ClearEnablesStayKept }
{}

/// A law: the mode after a row's data writes holds of the board that they leave, if in mode `u` none of them may enable
/// the NMI. No data write leads into mode `u` or out of it, nor out of mode `n`.
pub fn modes_hold_after_writes()
    ensures holds { ModesHoldAfterWritesHolds }
    ensures nmi { ModesHoldAfterWritesNmi }
    ensures unset { ModesHoldAfterWritesUnset }
    ensures other { ModesHoldAfterWritesOther }
{}

/// A law: after a row's data writes the armed cells hold bytes of their ranges on the board. Each write to an armed
/// cell must be a byte of its range, and the kept cells must lie outside the stack region.
pub fn cells_hold_after_writes()
    ensures { CellsHoldAfterWrites }
{}
