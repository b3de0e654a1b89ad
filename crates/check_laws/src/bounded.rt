// The law that activations keep their time while no NMI comes.

ghost use Rattle.std.specs.Prelude.{ℕ, List};
ghost use Rattle.cert_form.specs.Contents.{CertificateView};
ghost use Rattle.check_laws.specs.Chain.{AcceptsInForm};
ghost use Rattle.check_laws.specs.Bounded.{KeepsTimes};

/// A law: activations of an accepted certificate keep their time (docs/CHECKER.md, "Activations"). Take a chain with a
/// time, on the board of a run before one of its events; it owes some T-states. As long as no NMI is latched from then
/// on, it has either left within them, to the address under it, or is still there, and the time since and what it then
/// owes are within them. At its procedure's entry it owes at most the procedure's time, less the T-states before the
/// entry.
pub fn activations_keep_their_time()
    ensures { (rom : List ℕ) (cert : CertificateView) → AcceptsInForm rom cert
        → KeepsTimes rom cert }
{}
