// Pairs as fields of a row.
ghost use Rattle.std.specs.Prelude.{◌≡◌, IfSome, None};
ghost use Rattle.texts.specs.Numbers.{Reads, hex2, hex4};
ghost use Rattle.cert_fields.specs.Pair.{IsPair, IsRange, is_full, known_text, pair_text, range_text, ranges_text};

use crate::names::reg_pair_field;
use intervals::{ByteRange, Pair, WordRange};
use texts::{hex2_field, hex4_field, split_once};

/// A range of words: two bounds, the first not above the second.
fn word_range_field(field: &[u8]) -> Option<WordRange>
    ensures { Reads (range_text hex4) (IsRange 65535) field.now result }
{
    let (low, high) = split_once(field, b'-')?;
    WordRange::new(hex4_field(low)?, hex4_field(high)?)
}

/// A range of bytes: two bounds, the first not above the second.
fn byte_range_field(field: &[u8]) -> Option<ByteRange>
    ensures { Reads (range_text hex2) (IsRange 255) field.now result }
{
    let (low, high) = split_once(field, b'-')?;
    ByteRange::new(hex2_field(low)?, hex2_field(high)?)
}

/// The ranges of the word, of the high byte and of the low byte.
fn ranges_field(field: &[u8]) -> Option<Pair>
    ensures read { Reads ranges_text IsPair field.now result }
    ensures origin { IfSome result (λ pair. pair.origin ≡ None) }
{
    let (word, bytes) = split_once(field, b':')?;
    let (high, low) = split_once(bytes, b':')?;
    Some(Pair {
        word: word_range_field(word)?,
        high: byte_range_field(high)?,
        low: byte_range_field(low)?,
        origin: None,
    })
}

/// Whether all three ranges are full.
pub(crate) fn is_all(pair: &Pair) -> bool
    ensures { result ≡ is_full pair.now }
{
    pair.word.is_full() && pair.high.is_full() && pair.low.is_full()
}

/// The ranges of a pair. The text is a star exactly if all three are full.
fn known_field(field: &[u8]) -> Option<Pair>
    ensures read { Reads known_text IsPair field.now result }
    ensures origin { IfSome result (λ pair. pair.origin ≡ None) }
{
    if field == b"*".as_slice() {
        return Some(Pair::full());
    }
    let pair = ranges_field(field)?;
    if is_all(&pair) {
        return None;
    }
    Some(pair)
}

/// A pair: its ranges, and its origin if it has one.
pub fn pair_field(field: &[u8]) -> Option<Pair>
    ensures { Reads pair_text IsPair field.now result }
{
    match split_once(field, b'@') {
        Some((known, name)) => {
            let pair = known_field(known)?;
            let origin = reg_pair_field(name)?;
            Some(Pair {
                origin: Some(origin),
                ..pair
            })
        }
        None => known_field(field),
    }
}
