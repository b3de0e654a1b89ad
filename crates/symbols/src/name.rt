// Which texts are names, and which names are shown.

ghost use Rattle.std.specs.Prelude.{◌≡◌};
ghost use Rattle.symbols.specs.Names.{is_shown_name};

/// The most bytes that a name has.
const MAX_NAME: usize = 255;

/// Whether a text is a name: 1 to 255 bytes. It begins with a letter or one of `_ . ? @ !`. Further characters may also
/// be digits, `$`, `#` and `'`.
pub(crate) fn is_name(text: &str) -> bool {
    let mut signs = text.chars();
    match signs.next() {
        Some(first) => {
            text.len() <= MAX_NAME
                && begins_name(first)
                && !first.is_numeric()
                && signs.all(|sign| begins_name(sign) || matches!(sign, '$' | '#' | '\''))
        }
        None => false,
    }
}

/// Whether the character is a letter, a digit, or one of the signs with which a name may begin.
fn begins_name(sign: char) -> bool {
    sign.is_alphanumeric() || matches!(sign, '_' | '.' | '?' | '@' | '!')
}

/// Whether a name is shown at its address. Those of sections and lengths are not; linkers make them.
pub fn is_shown(name: &str) -> bool
    ensures { result ≡ is_shown_name name.now }
{
    let is_section = name.starts_with('.') || name.starts_with("s__");
    let is_length = name.starts_with("l__") || name.starts_with("_sizeof_");
    !is_section && !is_length
}
