// The letters of flag parts.
ghost use Rattle.std.specs.Prelude.{◌≡◌, ◌∷◌, []};
ghost use Rattle.cert_flags.specs.Parts.{letter_text};
ghost use Rattle.texts.specs.Numbers.{Always, Reads};

use flag_letters::Letter;

/// The letter that this byte spells.
pub(crate) fn letter_of(byte: u8) -> Option<Letter>
    ensures { Reads letter_text Always (byte ∷ []) result }
{
    match byte {
        b'z' => Some(Letter::Zero),
        b'b' => Some(Letter::ZeroIfBelow),
        b'c' => Some(Letter::CarryIfBelow),
        b's' => Some(Letter::SignIfBelow),
        _ => None,
    }
}

/// The byte that spells this letter.
pub(crate) fn letter_byte(letter: Letter) -> u8
    ensures { result ∷ [] ≡ letter_text letter }
{
    match letter {
        Letter::Zero => b'z',
        Letter::ZeroIfBelow => b'b',
        Letter::CarryIfBelow => b'c',
        Letter::SignIfBelow => b's',
    }
}
