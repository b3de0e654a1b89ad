// What ranges and pairs have in common: covering and joins.
ghost use Rattle.std.specs.Prelude.{◌≡◌, ℕ, ◌↔◌, IsTrue};
ghost use Rattle.intervals.specs.Domain.{Entry};

/// What is known of a value of the running program. It holds of a set of values, given what each register pair was at
/// the activation's entry. For ranges the entry does not matter.
pub trait Domain: Sized {
    ghost holds: { Self → Entry → ℕ → Type 0 };

    ghost Covers: { Self → Self → Type 0 };

    ghost joined: { Self → Self → Self };

    /// Whether this value holds wherever the other does.
    fn covers(&self, other: &Self) -> bool
        ensures { IsTrue result ↔ Covers self.now other.now };

    /// A value that covers both.
    fn join(&self, other: &Self) -> Self
        ensures { result ≡ joined self.now other.now };

    ghost reflexive: { (a : Self) → Covers a a };

    ghost transitive: { (a b c : Self) → Covers a b → Covers b c → Covers a c };

    ghost widens: { (a b : Self) (entry : Entry) (v : ℕ) → Covers a b → holds b entry v → holds a entry v };

    ghost joins_first: { (a b : Self) → Covers (joined a b) a };

    ghost joins_second: { (a b : Self) → Covers (joined a b) b };
}
