// The law that activations are laid out on the board of each run.

ghost use Rattle.check_laws.specs.LaidOutLaws.{AcceptedRunsAreLaidOut};

/// A law: if a certificate is accepted, some activations are laid out before each event of a run from a reset. They are
/// those of main code, or those of the NMI routine over the ones that it interrupted. The running one is at a row that
/// holds. Each waiting one is at the row of its call, which held of what it saw then. Once SP is set, their words and
/// the return addresses between them are exactly what lies from SP up to the region's top.
pub fn runs_are_laid_out()
    ensures { AcceptedRunsAreLaidOut }
{}
