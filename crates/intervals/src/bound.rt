// The numbers with which ranges begin and end: bytes and words.
ghost use Rattle.std.specs.Prelude.{◌≡◌, ℕ, ◌≤◌, refl};

/// A number with which a range begins or ends: a byte or a word.
pub trait Bound: Copy {
    ghost number: { Self → ℕ };

    ghost of_number: { ℕ → Self };

    ghost back: { (x : Self) → of_number (number x) ≡ x };

    ghost GREATEST: { ℕ };

    /// The greatest number of the type.
    const GREATEST: u16;

    /// The number as a word.
    fn to_word(self) -> u16
        ensures value { result ≡ number self }
        ensures within { number self ≤ GREATEST };

    /// The number that a word is.
    fn of_word(word: u16) -> Self
        requires { word ≤ GREATEST }
        ensures { number result ≡ word };
}

impl Bound for u8 {
    ghost number = { λ x. x };

    ghost of_number = { λ n. n };

    ghost back = { λ _. refl };

    ghost GREATEST = { 255 };

    const GREATEST: u16 = 255;

    #[inline]
    fn to_word(self) -> u16 {
        u16::from(self)
    }

    #[inline]
    fn of_word(word: u16) -> u8 {
        word as u8
    }
}

impl Bound for u16 {
    ghost number = { λ x. x };

    ghost of_number = { λ n. n };

    ghost back = { λ _. refl };

    ghost GREATEST = { 65535 };

    const GREATEST: u16 = 65_535;

    #[inline]
    fn to_word(self) -> u16 {
        self
    }

    #[inline]
    fn of_word(word: u16) -> u16 {
        word
    }
}
