// The ten register pairs.
ghost use Rattle.std.specs.Prelude.{◌≡◌, ◌<◌};

/// A register pair of the main or the alternate set (UM0080, "CPU Registers").
#[derive(Clone, Copy, Debug, PartialEq, Eq, Hash)]
pub enum RegPair {
    Af,
    Bc,
    De,
    Hl,
    Ix,
    Iy,
    AlternateAf,
    AlternateBc,
    AlternateDe,
    AlternateHl,
}

impl RegPair {
    ghost use Rattle.intervals.specs.RegPair.{name_of, place_of_pair};

    /// The place of the pair in the order AF BC DE HL IX IY AF' BC' DE' HL', 0 to 9.
    pub fn place(self) -> usize
        ensures value { result ≡ place_of_pair self }
        ensures within { result < 10 }
    {
        self as usize
    }

    /// The name of the pair in the manual's spelling: `AF`, or `AF'` for the alternate set.
    pub fn name(self) -> &'static [u8]
        ensures { result.now ≡ name_of self }
    {
        match self {
            RegPair::Af => b"AF",
            RegPair::Bc => b"BC",
            RegPair::De => b"DE",
            RegPair::Hl => b"HL",
            RegPair::Ix => b"IX",
            RegPair::Iy => b"IY",
            RegPair::AlternateAf => b"AF'",
            RegPair::AlternateBc => b"BC'",
            RegPair::AlternateDe => b"DE'",
            RegPair::AlternateHl => b"HL'",
        }
    }
}
