// The lines that say why no certificate was made.

ghost use Rattle.std.specs.List.{flat_map};
ghost use Rattle.std.specs.Prelude.{◌≡◌};
ghost use Rattle.texts.specs.Device.{Puts};
ghost use Rattle.command_verdicts.specs.WriterRefusals.{bad_key_text, entry_text, recursion_text, unbounded_text};

use crate::escapes::write_escaped;
use texts::{DeviceFault, MadeLine, Sink, put};

/// Writes the line of procedures that call one another in a cycle, by their entries along it (docs/PROGRAM.md,
/// "Refused"). It is written entry by entry, since a cycle may be longer than a `MadeLine`.
///
/// # Errors
///
/// The failure of the sink, which then took a prefix of the line.
pub fn write_recursion<W: Sink>(entries: &[u16], out: &mut W) -> Result<(), DeviceFault>
    ensures { Puts (W.state out.old) (recursion_text entries.now) result (W.state out.new) }
{
    put(out, b"recursion")?;
    write_entries(entries, out)?;
    put(out, b"\n")
}

/// Writes each entry after a space.
fn write_entries<W: Sink>(entries: &[u16], out: &mut W) -> Result<(), DeviceFault>
    ensures { Puts (W.state out.old) (flat_map entry_text entries.now) result (W.state out.new) }
{
    for entry in entries {
        put(out, entry_word(*entry).bytes())?;
    }
    Ok(())
}

/// An entry after a space.
fn entry_word(entry: u16) -> MadeLine
    ensures { result ≡ entry_text entry }
{
    let mut word = MadeLine::new();
    word.add(b" ");
    word.add_hex4(entry);
    word
}

/// The line of a loop that no counter bounds, by the lowest address of a row in its cycle (docs/PROGRAM.md, "Refused").
pub fn unbounded_line(address: u16) -> MadeLine
    ensures { result ≡ unbounded_text address }
{
    let mut line = MadeLine::new();
    line.add(b"unbounded ");
    line.add_hex4(address);
    line.add(b"\n");
    line
}

/// Writes the line of a bad key of annotations (docs/PROGRAM.md, "Refused"). A key may have any length. Its control
/// characters are escaped, so the line stays one.
///
/// # Errors
///
/// The failure of the sink, which then took a prefix of the line.
pub fn write_bad_key<W: Sink>(key: &str, out: &mut W) -> Result<(), DeviceFault>
    ensures { Puts (W.state out.old) (bad_key_text key.now) result (W.state out.new) }
{
    put(out, b"bad annotation ")?;
    write_escaped(key, out)?;
    put(out, b"\n")
}
