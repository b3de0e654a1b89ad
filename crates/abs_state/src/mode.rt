// Modes of rows.
ghost use Rattle.std.specs.Prelude.{◌≡◌};
ghost use Rattle.abs_state.specs.Mode.{covers_mode, hull_of_modes};

/// Whether SP is set, and whether an NMI may come (docs/CHECKER.md, "Rows").
#[derive(Clone, Copy, PartialEq, Eq)]
pub enum Mode {
    /// `u`: SP may be unset, and no NMI comes.
    Unset,
    /// `s`: SP is set, and no NMI comes.
    Set,
    /// `n`: SP is set, and an NMI may come.
    Nmi,
}

impl Mode {
    /// Whether a row of this mode covers a state of the other mode: `u` covers `u` and `s`, `s` covers `s`, and `n`
    /// covers `s` and `n`.
    pub fn covers(self, other: Mode) -> bool
        ensures { result ≡ covers_mode self other }
    {
        match (self, other) {
            (Mode::Unset, Mode::Nmi)
            | (Mode::Set | Mode::Nmi, Mode::Unset)
            | (Mode::Set, Mode::Nmi) => false,
            _ => true,
        }
    }

    /// The mode that covers both, or None for `u` and `n`.
    pub fn join(self, other: Mode) -> Option<Mode>
        ensures { result ≡ hull_of_modes self other }
    {
        match (self, other) {
            (Mode::Unset, Mode::Nmi) | (Mode::Nmi, Mode::Unset) => None,
            (Mode::Unset, _) | (_, Mode::Unset) => Some(Mode::Unset),
            (Mode::Nmi, _) | (_, Mode::Nmi) => Some(Mode::Nmi),
            (Mode::Set, Mode::Set) => Some(Mode::Set),
        }
    }
}
