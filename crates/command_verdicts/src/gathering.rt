// Lines are gathered before they are written, so that there are few writes.

ghost use Rattle.std.specs.Prelude.{◌≡◌};
ghost use Rattle.command_verdicts.specs.Gathered.{Gathers};

use texts::{DeviceFault, MadeLine, Sink, put};

/// The most bytes that are gathered.
const ROOM: usize = 4096;

/// Appends a line to what is gathered. If both exceed `ROOM` bytes, what was gathered is written first.
///
/// # Errors
///
/// The failure of the sink, which then took a prefix of what was gathered.
pub(crate) fn gather<W: Sink>(
    line: &MadeLine,
    gathered: &mut MadeLine,
    out: &mut W,
) -> Result<(), DeviceFault>
    ensures { Gathers (W.state out.old) gathered.old line.now result (W.state out.new)
        gathered.new }
{
    if gathered.bytes().len() + line.bytes().len() > ROOM {
        put(out, gathered.bytes())?;
        *gathered = MadeLine::new();
    }
    gathered.add(line.bytes());
    Ok(())
}
