// Laws of a row: what is known before the first move describes the machine, and what is known of reads is true.

ghost use Rattle.abs_laws.specs.RowsLaws.{FirstKnownFits, ReadsFitBytes, ReadsFitWords};

/// A law: if the pairs, the flag fact and the shape of a row hold of the machine at its address, what is known before
/// the first move describes the draft with the program counter after the instruction. The variables are those of the
/// machine.
pub fn first_known_fits()
    ensures { FirstKnownFits }
{}

/// A law: if the armed cells hold bytes of their ranges, each read of the board finds a byte in its known range. The
/// words of such reads are words.
pub fn reads_fit()
    ensures bytes { ReadsFitBytes }
    ensures words { ReadsFitWords }
{}
