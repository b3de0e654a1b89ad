// The characters of a text, as HTML.

ghost use Rattle.std.specs.Prelude.{◌≡◌, ◌≤◌, ◌+◌, ◌++◌, length};
ghost use Rattle.html.specs.Markup.{html_char};

use arrayvec::ArrayVec;

/// A character as text in HTML: the five signs of markup by their names, a control character of ASCII as `?`, any other
/// in UTF-8.
pub(crate) fn html_char(character: char) -> ArrayVec<u8, 6>
    ensures { result.items ≡ html_char character }
{
    let mut bytes = ArrayVec::new();
    match character {
        '&' => append(&mut bytes, b"&amp;"),
        '<' => append(&mut bytes, b"&lt;"),
        '>' => append(&mut bytes, b"&gt;"),
        '"' => append(&mut bytes, b"&quot;"),
        '\'' => append(&mut bytes, b"&#39;"),
        _ if character.is_ascii_control() => append(&mut bytes, b"?"),
        _ => append(&mut bytes, character.encode_utf8(&mut [0; 4]).as_bytes()),
    }
    bytes
}

/// Appends bytes, for which there must be room.
fn append(bytes: &mut ArrayVec<u8, 6>, more: &[u8])
    requires { length bytes.old.items + length more.now ≤ 6 }
    ensures { bytes.new.items ≡ bytes.old.items ++ more.now }
{
    match bytes.try_extend_from_slice(more) {
        Ok(()) => {}
        Err(_) => unreachable!(),
    }
}
