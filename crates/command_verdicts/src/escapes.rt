// Texts on one line, with control characters escaped.

ghost use Rattle.std.specs.List.{flat_map};
ghost use Rattle.std.specs.Prelude.{◌≡◌};
ghost use Rattle.std.specs.Str.{chars};
ghost use Rattle.texts.specs.Device.{Puts};
ghost use Rattle.command_verdicts.specs.Gathered.{Gathers};
ghost use Rattle.command_verdicts.specs.WriterRefusals.{escaped, escaped_char};

use crate::gathering::gather;
use texts::{DeviceFault, MadeLine, Sink, put};

/// Writes a text with its control characters escaped as in TOML (docs/PROGRAM.md, "Refused").
///
/// # Errors
///
/// The failure of the sink, which then took a prefix of the escaped text.
pub(crate) fn write_escaped<W: Sink>(text: &str, out: &mut W) -> Result<(), DeviceFault>
    ensures { Puts (W.state out.old) (escaped text.now) result (W.state out.new) }
{
    let mut gathered = MadeLine::new();
    gather_escaped(text, &mut gathered, out)?;
    put(out, gathered.bytes())
}

/// Gathers the characters of a text, escaped.
fn gather_escaped<W: Sink>(
    text: &str,
    gathered: &mut MadeLine,
    out: &mut W,
) -> Result<(), DeviceFault>
    ensures { Gathers (W.state out.old) gathered.old (flat_map escaped_char (chars text.now)) result
        (W.state out.new) gathered.new }
{
    for character in text.chars() {
        gather(&escape(character), gathered, out)?;
    }
    Ok(())
}

/// A character, escaped if it is a control character.
fn escape(character: char) -> MadeLine
    ensures { result ≡ escaped_char character }
{
    let mut line = MadeLine::new();
    match character {
        '\u{8}' => line.add(b"\\b"),
        '\t' => line.add(b"\\t"),
        '\n' => line.add(b"\\n"),
        '\u{c}' => line.add(b"\\f"),
        '\r' => line.add(b"\\r"),
        _ if character.is_control() => {
            line.add(b"\\u00");
            line.add_hex2(character as u8);
        }
        _ => line.add(character.encode_utf8(&mut [0; 4]).as_bytes()),
    }
    line
}
