// The flag parts of a row, as they are read.
ghost use Rattle.std.specs.Prelude.{◌++◌, ◌∷◌, [], List};
ghost use Rattle.flag_letters.specs.declared.part.FlagPart.{FlagPart};
ghost use Rattle.cert_fields.specs.Counted.{ReadsCounted};
ghost use Rattle.cert_flags.specs.Kept.{IsPartCountedAs, KeepsFewParts};
ghost use Rattle.cert_flags.specs.Parts.{AreFewParts, AreFlagParts, IsFlagPart, IsShortPart, part_text, parts_text};

use crate::letter::letter_of;
use cert_fields::{Counted, linear_field};
use flag_letters::{FlagPart, FlagParts};
use texts::Fields;

/// A flag part in a row with this many slots: a letter and a linear.
fn part_field(field: &[u8], slots: usize) -> Option<Counted<FlagPart>>
    ensures { ReadsCounted part_text (IsFlagPart slots) IsShortPart field.now result }
{
    let (first, behind) = field.split_first()?;
    let letter = letter_of(*first)?;
    let read = linear_field(behind, slots)?;
    match read {
        Counted::Fits(linear) => Some(Counted::Fits(FlagPart { letter, linear })),
        Counted::TooMany => Some(Counted::TooMany),
    }
}

/// The flag parts with one more, as long as they are within the limits.
fn with_part(kept: Option<FlagParts>, part: Counted<FlagPart>) -> Option<FlagParts>
    ensures { (done : List FlagPart) (next : FlagPart) → KeepsFewParts done kept
        → IsPartCountedAs next part
        → KeepsFewParts (done ++ next ∷ []) result }
{
    let mut parts = kept?;
    match part {
        Counted::Fits(part) => {
            if parts.is_full() {
                return None;
            }
            parts.push(part);
            Some(parts)
        }
        Counted::TooMany => None,
    }
}

/// The flag parts of a row with this many slots; a dash if there are none (docs/CERTIFICATE.md, "Flag parts"). None if
/// the field is out of form; `TooMany` if it is in form, except that it has more than eight parts or a part with more
/// than three terms.
pub fn parts_field(field: &[u8], slots: usize) -> Option<Counted<FlagParts>>
    ensures { ReadsCounted parts_text (AreFlagParts slots) AreFewParts field.now result }
{
    if field == b"-".as_slice() {
        return Some(Counted::Fits(FlagParts::empty()));
    }
    let mut kept = Some(FlagParts::empty());
    let mut fields = Fields::parted(field, b',');
    while let Some(text) = fields.next() {
        let part = part_field(text, slots)?;
        kept = with_part(kept, part);
    }
    match kept {
        Some(parts) => Some(Counted::Fits(parts)),
        None => Some(Counted::TooMany),
    }
}
