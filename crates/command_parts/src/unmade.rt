// Reports why no certificate was made.

ghost use Rattle.std.specs.Prelude.{OnErr, OnOk};
ghost use Rattle.command_parts.specs.Unmade.{WritesUnmade};
ghost use Rattle.texts.specs.Device.{FailsAmid, Takes};

use cert_writer::WriterFault;
use command_verdicts::{refused_line, unbounded_line, write_recursion};
use texts::{DeviceFault, Sink, put};

/// Writes the line that says why no certificate was made.
///
/// # Errors
///
/// The sink failed; what it took before stays written.
pub fn tell_unmade<W: Sink>(fault: &WriterFault, out: &mut W) -> Result<(), DeviceFault>
    ensures told { OnOk result (WritesUnmade Takes (W.state out.old) (W.state out.new)) }
    ensures part { OnErr result (WritesUnmade FailsAmid (W.state out.old) (W.state out.new)) }
{
    match fault {
        WriterFault::Refused(refused) => put(out, refused_line(refused).bytes()),
        WriterFault::Recursion(entries) => write_recursion(entries.as_slice(), out),
        WriterFault::LoopUnbounded(address) => put(out, unbounded_line(*address).bytes()),
        WriterFault::Limit | WriterFault::NoMemory => put(out, b"too large\n"),
    }
}
