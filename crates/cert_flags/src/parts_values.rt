// What the type of flag parts implies, and whether they name only slots of a shape.
ghost use Rattle.std.specs.Prelude.{◌↔◌, All, IsTrue};
ghost use Rattle.cert_fields.specs.Linear.{HasSlotsBelow};
ghost use Rattle.cert_flags.specs.Parts.{AreFewParts, AreFlagParts};

use cert_fields::{is_linear, stays_within};
use flag_letters::FlagParts;

/// A law: by their type, flag parts are in form in a row with 64 slots, and within the limits.
pub fn are_parts(parts: &FlagParts)
    ensures form { AreFlagParts 64 parts.now }
    ensures few { AreFewParts parts.now }
{
    for part in parts.parts() {
        is_linear(&part.linear);
    }
}

/// Whether each slot that a flag part names has a number below `slots`.
fn name_slots_below(parts: &FlagParts, slots: usize) -> bool
    ensures { IsTrue result ↔ All (λ part. HasSlotsBelow slots part.linear) parts.now }
{
    parts
        .parts()
        .iter()
        .all(|part| stays_within(&part.linear, slots))
}

/// Whether the flag parts may be in a row with this many slots: none names a slot beyond its shape.
pub fn parts_stay_within(parts: &FlagParts, slots: usize) -> bool
    ensures { IsTrue result ↔ AreFlagParts slots parts.now }
{
    are_parts(parts);
    name_slots_below(parts, slots)
}
