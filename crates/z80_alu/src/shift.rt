// Shifts and rotates of a byte, without flags.
ghost use Rattle.std.specs.Prelude.{◌≡◌};

/// A shift or rotate of a byte (UM0080, "Rotate and Shift Group").
#[derive(Clone, Copy)]
pub enum Shift {
    /// Rotates left; bit 7 goes to bit 0 and C.
    Rlc,
    /// Rotates right; bit 0 goes to bit 7 and C.
    Rrc,
    /// Rotates left through C.
    Rl,
    /// Rotates right through C.
    Rr,
    /// Shifts left; bit 0 becomes 0.
    Sla,
    /// Shifts right; bit 7 stays.
    Sra,
    /// Shifts right; bit 7 becomes 0.
    Srl,
}

impl Shift {
    ghost use Rattle.z80_alu.specs.Shift.{shifted, shifted_out};

    // The byte after the shift, and the bit shifted out.
    #[inline]
    pub(crate) fn applied(self, value: u8, carry: bool) -> (u8, bool)
        ensures value { result.0 ≡ shifted self value carry }
        ensures out { result.1 ≡ shifted_out self value }
    {
        let (highest, lowest) = (value & 0x80 != 0, value & 0x01 != 0);
        match self {
            Shift::Rlc => (value << 1 | u8::from(highest), highest),
            Shift::Rrc => (value >> 1 | u8::from(lowest) << 7, lowest),
            Shift::Rl => (value << 1 | u8::from(carry), highest),
            Shift::Rr => (value >> 1 | u8::from(carry) << 7, lowest),
            Shift::Sla => (value << 1, highest),
            Shift::Sra => (value >> 1 | u8::from(highest) << 7, lowest),
            Shift::Srl => (value >> 1, lowest),
        }
    }
}
