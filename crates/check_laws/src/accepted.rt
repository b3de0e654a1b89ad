// The law that what the rules accept is safe.

ghost use Rattle.check_laws.specs.AcceptedLaws.{AcceptedIsSafe};

/// A law: if a certificate in form is accepted for a ROM, every run from a reset is safe. It never traps, and NMI
/// routines are never nested. Each routine gives back what it interrupted within the certified T-states. If the
/// certificate has no NMI routine, no NMI is accepted.
pub fn accepted_is_safe()
    ensures { AcceptedIsSafe }
{}
