// Makes a certificate for a ROM.

ghost use Rattle.std.specs.Prelude.{◌≡◌, ◌≢◌, IfOk, OnOk};
ghost use Rattle.cert_form.specs.Text.{text_of};
ghost use Rattle.command_parts.specs.Unmade.{WritesUnmade};
ghost use Rattle.commands.specs.Checking.{said_by};
ghost use Rattle.command_parts.specs.Judging.{IsAccepted};
ghost use Rattle.texts.specs.Device.{FailsAmid, HasFailed, CountsNoFailure, Takes};

use annotations::Annotations;
use cert_writer::{WriterFault, certify};
use command_parts::{Stop, tell_unmade};
use runner::cert_checker::Accepted;
use std::alloc::Global;
use texts::Sink;

/// Makes a certificate for a ROM by its annotations, and checks it. If none is made, the line that reports it is
/// written.
///
/// # Errors
///
/// `Refused` where no certificate is made, `Device` where a device failed, and `OutOfMemory` where memory was refused.
pub fn make<'r, W: Sink>(
    alloc: Global,
    rom: &'r [u8],
    said: &Annotations,
    out: &mut W,
) -> Result<Accepted<'r>, Stop>
    ensures rom { IfOk result (λ accepted. accepted.rom ≡ rom.now) }
    ensures accepted { IfOk result
        (λ accepted. IsAccepted rom.now (text_of accepted.certificate) accepted.certificate) }
    ensures said { IfOk result (λ accepted. said_by accepted.certificate ≡ said.now) }
    ensures kept { OnOk result (out.new ≡ out.old) }
    ensures refused { result ≡ Err Stop.Refused
        → WritesUnmade Takes (W.state out.old) (W.state out.new) }
    ensures device { result ≡ Err Stop.Device → HasFailed (W.state out.old) (W.state out.new) }
    ensures part { result ≡ Err Stop.Device
        → WritesUnmade FailsAmid (W.state out.old) (W.state out.new) }
    ensures told { result ≢ Err Stop.Device → CountsNoFailure (W.state out.old) (W.state out.new) }
    ensures memory { result ≡ Err Stop.OutOfMemory → out.new ≡ out.old }
{
    match certify(alloc, rom, said) {
        Ok(accepted) => {
            accepted.certificate().is_in_form();
            Ok(accepted)
        }
        Err(WriterFault::NoMemory) => Err(Stop::OutOfMemory),
        Err(fault) => {
            tell_unmade(&fault, out)?;
            Err(Stop::Refused)
        }
    }
}
