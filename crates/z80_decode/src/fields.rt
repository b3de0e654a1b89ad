// The three fields of an opcode.
ghost use Rattle.std.specs.Prelude.{◌≡◌, ◌/◌, ◌%◌};

/// The three fields xx yyy zzz of an opcode.
#[derive(Clone, Copy)]
pub(crate) struct OpcodeFields {
    pub(crate) x: u8,
    pub(crate) y: u8,
    pub(crate) z: u8,
}

impl OpcodeFields {
    pub(crate) fn of(opcode: u8) -> OpcodeFields
        ensures x { result.x ≡ opcode / 64 }
        ensures y { result.y ≡ opcode / 8 % 8 }
        ensures z { result.z ≡ opcode % 8 }
    {
        OpcodeFields {
            x: opcode >> 6,
            y: (opcode >> 3) & 7,
            z: opcode & 7,
        }
    }
}
