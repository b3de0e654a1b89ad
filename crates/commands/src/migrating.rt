// `galcert migrate`.

ghost use Rattle.std.specs.Prelude.{◌≡◌, ◌≢◌, ◌⊎◌};
ghost use Rattle.command_parts.specs.Judging.{WritesUnread};
ghost use Rattle.commands.specs.Migrating.{TellsMigrated};
ghost use Rattle.command_parts.specs.Status.{IsStatus};
ghost use Rattle.texts.specs.Device.{FailsAmid, HasFailed, CountsNoFailure, Takes};

use certificate::{Version, migrate_to, write};
use command_parts::{ExitStatus, read_certificate};
use std::alloc::Global;
use texts::{DeviceFault, Sink, Source};

/// `galcert migrate CERT [--to N]`: writes the text of a certificate in a version, or as it is if its own is later; or
/// the line for a text that is no certificate (docs/PROGRAM.md). The certificate is read to its end before anything is
/// written.
///
/// The result is the exit status: 0 written, 1 no certificate, 3 a device failed, 4 memory was refused. What was
/// written before a device failed stays.
pub fn migrate_on<B: Source, W: Sink>(
    alloc: Global,
    version: Version,
    cert: &mut B,
    out: &mut W,
) -> u8
    ensures known { IsStatus result }
    ensures migrated { result ≡ 0
        → TellsMigrated version Takes (B.state cert.old).bytes (W.state out.old) (W.state out.new) }
    ensures refused { result ≡ 1
        → WritesUnread Takes (B.state cert.old).bytes (W.state out.old) (W.state out.new) }
    ensures device { result ≡ 3
        → HasFailed (B.state cert.old) (B.state cert.new)
        ⊎ HasFailed (W.state out.old) (W.state out.new) }
    ensures part { result ≡ 3
        → (out.new ≡ out.old)
        ⊎ (TellsMigrated version FailsAmid (B.state cert.old).bytes (W.state out.old)
        (W.state out.new)
        ⊎ WritesUnread FailsAmid (B.state cert.old).bytes (W.state out.old) (W.state out.new)) }
    ensures told { result ≢ 3
        → CountsNoFailure (B.state cert.old) (B.state cert.new)
        × CountsNoFailure (W.state out.old) (W.state out.new) }
    ensures memory { result ≡ 4 → out.new ≡ out.old }
    // If the certificate's source failed, `out` is not used.
    ensures cert_first { CountsNoFailure (B.state cert.old) (B.state cert.new)
        ⊎ (out.new ≡ out.old) }
{
    let certificate = match read_certificate(alloc, cert, out) {
        Ok(certificate) => certificate,
        Err(stop) => return stop.status(),
    };
    let migrated = match migrate_to(version, certificate) {
        Ok(migrated) => migrated,
        Err(_) => return ExitStatus::OutOfMemory.code(),
    };
    match write(&migrated, out) {
        Ok(()) => ExitStatus::Done.code(),
        Err(DeviceFault) => ExitStatus::Device.code(),
    }
}
