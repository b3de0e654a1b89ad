// The law that a chain of activations with a time never owes less than 0.

ghost use Rattle.check_laws.specs.OwingLaws.{ChainsOweSomething};

/// A law: if a certificate is accepted, a chain of activations with a time never owes less than 0 T-states, although
/// the potentials of its rows may be negative. The chain executes one instruction after another until it leaves, and
/// each costs at least 4.
pub fn chains_owe_something()
    ensures { ChainsOweSomething }
{}
