// A word as two bytes.
ghost use Rattle.std.specs.Prelude.{◌≡◌};
ghost use Rattle.z80_alu.specs.Word.{word_of, high_of, low_of};

/// A word as its two bytes (UM0080, "CPU Registers").
#[derive(Clone, Copy)]
pub struct Word {
    pub high: u8,
    pub low: u8,
}

impl Word {
    /// The two bytes of a word.
    pub fn of(value: u16) -> Word
        ensures high { result.high ≡ high_of value }
        ensures low { result.low ≡ low_of value }
    {
        let [high, low] = value.to_be_bytes();
        Word { high, low }
    }

    /// The word made of the two bytes.
    pub fn value(self) -> u16
        ensures { result ≡ word_of self.high self.low }
    {
        u16::from(self.high) * 256 + u16::from(self.low)
    }
}
