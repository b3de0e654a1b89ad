// Documents that are written part by part.

ghost use Rattle.std.specs.Prelude.{◌≡◌, ◌≢◌};
ghost use Rattle.texts.specs.Device.{HasFailed, CountsNoFailure};

use crate::showing::Shown;
use command_parts::Stop;
use command_streams::Captured;
use std::alloc::Global;
use texts::{Sink, put};

/// Writes a document part by part; one part at a time is in memory. What was written before a failure stays.
pub(crate) fn write_document<W: Sink>(
    alloc: Global,
    document: &mut Shown,
    out: &mut W,
) -> Result<(), Stop>
    ensures device { result ≡ Err Stop.Device → HasFailed (W.state out.old) (W.state out.new) }
    ensures told { result ≢ Err Stop.Device
        → CountsNoFailure (W.state out.old) (W.state out.new) }
    ensures never { result ≢ Err Stop.Refused }
{
    let mut part = Captured::new(alloc);
    for number in 0..document.count() {
        part.clear();
        document.write_part(number, &mut part)?;
        put(out, part.bytes())?;
    }
    Ok(())
}
