// `galcert diff`.

ghost use Rattle.std.specs.Prelude.{◌≡◌, ◌≢◌, ◌⊎◌};
ghost use Rattle.command_parts.specs.Status.{IsStatus};
ghost use Rattle.texts.specs.Device.{HasFailed, CountsNoFailure};

use crate::changes::{EntryNames, changes};
use command_parts::{ExitStatus, read_certificate};
use std::alloc::Global;
use texts::{DeviceFault, Sink, Source, put};

/// `galcert diff OLD NEW`: writes what two certificates say side by side (docs/PROGRAM.md, "Two certificates"), or the
/// line for a text that is no certificate. No ROM is read, and nothing is checked.
///
/// The result is the exit status: 0 written, 1 no certificate, 3 a device failed, 4 memory was refused. What was
/// written before a device failed stays.
pub fn diff_on<A: Source, B: Source, W: Sink>(
    alloc: Global,
    earlier: &mut A,
    later: &mut B,
    names: EntryNames<'_>,
    out: &mut W,
) -> u8
    ensures known { IsStatus result }
    ensures device { result ≡ 3
        → HasFailed (A.state earlier.old) (A.state earlier.new)
        ⊎ (HasFailed (B.state later.old) (B.state later.new)
        ⊎ HasFailed (W.state out.old) (W.state out.new)) }
    ensures told { result ≢ 3
        → CountsNoFailure (A.state earlier.old) (A.state earlier.new)
        × CountsNoFailure (B.state later.old) (B.state later.new)
        × CountsNoFailure (W.state out.old) (W.state out.new) }
    ensures memory { result ≡ 4 → out.new ≡ out.old }
{
    let before = match read_certificate(alloc, earlier, out) {
        Ok(certificate) => certificate,
        Err(stop) => return stop.status(),
    };
    let after = match read_certificate(alloc, later, out) {
        Ok(certificate) => certificate,
        Err(stop) => return stop.status(),
    };
    let Ok(text) = changes(alloc, &before, &after, names) else {
        return ExitStatus::OutOfMemory.code();
    };
    match put(out, text.as_bytes()) {
        Ok(()) => ExitStatus::Done.code(),
        Err(DeviceFault) => ExitStatus::Device.code(),
    }
}
