// Flag facts as fields of a row.
ghost use Rattle.cert_fields.specs.Flag.{IsFlag, flag_text};
ghost use Rattle.texts.specs.Numbers.{Reads};

use crate::names::register_field;
use abs_state::FlagFact;
use texts::hex2_field;

/// A flag fact, or a dash if there is none.
pub fn flag_fact_field(field: &[u8]) -> Option<Option<FlagFact>>
    ensures { Reads flag_text IsFlag field.now result }
{
    match field.split_first()? {
        (b'-', []) => Some(None),
        (b'z', register) => Some(Some(FlagFact::Zero(register_field(register)?))),
        (b'c', byte) => Some(Some(FlagFact::Compared(hex2_field(byte)?))),
        _ => None,
    }
}
