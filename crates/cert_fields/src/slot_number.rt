// The numbers of slots in texts, which may be beyond any shape.
ghost use Rattle.std.specs.Prelude.{◌<◌, ◌^◌, ◌↔◌, IsTrue};
ghost use Rattle.std.specs.Fmt.{decimal};
ghost use Rattle.texts.specs.Numbers.{BeginsDecimal, Reads};

/// Whether a text begins as a decimal: it has a byte, begins with no sign, and has no byte after a leading zero.
fn begins_decimal(field: &[u8]) -> bool
    ensures { IsTrue result ↔ BeginsDecimal field.now }
{
    match field {
        [] | [b'+', ..] => false,
        [b'0', ..] => field.len() == 1,
        _ => true,
    }
}

/// The number of a slot, in decimal without leading zeros.
pub(crate) fn slot_number_field(field: &[u8]) -> Option<usize>
    ensures { Reads decimal (λ n. n < 2 ^ 64) field.now result }
{
    if !begins_decimal(field) {
        return None;
    }
    let Ok(text) = str::from_utf8(field) else {
        return None;
    };
    text.parse::<usize>().ok()
}
