// What a row says of the flags.
ghost use Rattle.std.specs.Prelude.{◌↔◌, IsTrue};
ghost use Rattle.cert_fields.specs.Counted.{ReadsCounted};
ghost use Rattle.cert_fields.specs.Flag.{IsFlag};
ghost use Rattle.cert_flags.specs.Flags.{AreFewFlags, AreFlags, flags_text, flags_with};

use crate::form::FlagForm;
use crate::parts::parts_field;
use crate::parts_values::parts_stay_within;
use abs_state::FlagFact;
use cert_fields::{Counted, flag_fact_field};
use flag_letters::FlagParts;

/// What a row says of the flags. In a row in form, what its form does not have is empty.
#[derive(Drop)]
pub struct RowFlags {
    pub fact: Option<FlagFact>,
    pub parts: FlagParts,
}

/// What the FLAG field of a row with this many slots says, in a form; a dash if it says nothing (docs/CERTIFICATE.md,
/// "Rows" and "Flag parts"). None if the field is out of form; `TooMany` if it is in form, except that it has more than
/// eight flag parts or a part with more than three terms.
pub fn flags_field(form: FlagForm, field: &[u8], slots: usize) -> Option<Counted<RowFlags>>
    ensures { ReadsCounted (flags_text form) (AreFlags form slots) AreFewFlags field.now result }
{
    match form {
        FlagForm::Fact => {
            let fact = flag_fact_field(field)?;
            Some(Counted::Fits(RowFlags {
                fact,
                parts: FlagParts::empty(),
            }))
        }
        FlagForm::Parts => {
            let read = parts_field(field, slots)?;
            match read {
                Counted::Fits(parts) => Some(Counted::Fits(RowFlags { fact: None, parts })),
                Counted::TooMany => Some(Counted::TooMany),
            }
        }
    }
}

/// Whether a row with this many slots may say this of the flags, in a form: it has no flag parts where the form is a
/// flag fact; it has no flag fact where the form is flag parts, and these name no slot beyond the shape.
pub fn flags_are_in_form(
    form: FlagForm,
    fact: Option<FlagFact>,
    parts: &FlagParts,
    slots: usize,
) -> bool
    ensures { IsTrue result ↔ AreFlags form slots (flags_with fact parts.now) }
{
    is_flag(fact);
    match form {
        FlagForm::Fact => parts.is_empty(),
        FlagForm::Parts => fact.is_none() && parts_stay_within(parts, slots),
    }
}

/// A law: by its type, a flag fact compares A with a byte.
fn is_flag(fact: Option<FlagFact>)
    ensures { IsFlag fact }
{}
