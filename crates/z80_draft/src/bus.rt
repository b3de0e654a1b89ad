// The bus: what an event finds outside the processor.

ghost use Rattle.std.specs.Prelude.{◌≡◌};

/// What an event finds outside the processor (docs/BOARD.md, "Environment").
pub trait Bus {
    ghost use Rattle.z80_draft.specs.Outside.{Outside};

    ghost outside: { Self → Outside };

    /// The byte that a data read finds at `at`. `is_later` is false for the first data byte that the event reads.
    fn read(&self, is_later: bool, at: u16) -> u8
        ensures { result ≡ (outside self.now).read is_later at };

    /// The noise byte: bit k of it is bit k of F wherever the manual leaves that flag undefined.
    fn noise(&self) -> u8
        ensures { result ≡ (outside self.now).noise };

    /// The byte that LD A,R loads.
    fn r(&self) -> u8
        ensures { result ≡ (outside self.now).r };
}
