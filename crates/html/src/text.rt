// Text in HTML.

ghost use Rattle.std.specs.Prelude.{ℕ, List};
ghost use Rattle.std.specs.List.{All};
ghost use Rattle.texts.specs.Device.{Puts};
ghost use Rattle.html.specs.Markup.{IsNoMarkup, html_text};

use crate::characters::html_char;
use bstr::ByteSlice;
use texts::{DeviceFault, Sink, put};

/// Writes bytes as text, also inside an attribute's quotes: `& < > " '` by their names, and a control character of
/// ASCII (00 to 1F, 7F) as `?`. Bytes that are no UTF-8 count as U+FFFD.
///
/// # Errors
///
/// The failure of the sink, which then took a prefix of the text.
pub fn write_text<W: Sink>(text: &[u8], out: &mut W) -> Result<(), DeviceFault>
    ensures { Puts (W.state out.old) (html_text text.now) result (W.state out.new) }
{
    for character in text.chars() {
        put(out, html_char(character).as_slice())?;
    }
    Ok(())
}

/// A law: what is written of a text has no `<`, `>`, `"`, `'` and no control character of ASCII.
pub fn text_has_no_markup()
    ensures { (text : List ℕ) → All IsNoMarkup (html_text text) }
{}
