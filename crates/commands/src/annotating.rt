// Reads annotations from a source.

ghost use Rattle.std.specs.Prelude.{◌≡◌, ◌≢◌, ◌⊎◌, IfOk, OnOk};
ghost use Rattle.certificate.specs.Pieces.{OfBytes};
ghost use Rattle.commands.specs.Annotating.{SaysOfWhole, WritesBadAnnotation};
ghost use Rattle.texts.specs.Device.{FailsAmid, HasFailed, CountsNoFailure, Takes};

use annotations::{AnnotationFault, Annotations};
use command_parts::{Stop, read_all};
use command_verdicts::write_bad_key;
use std::alloc::Global;
use texts::{Sink, Source, put};

/// Reads annotations. If they are bad, the line that reports it is written.
///
/// # Errors
///
/// `Refused` where the annotations are bad, `Device` where a device failed, and `OutOfMemory` where memory was refused.
pub fn read_annotations<B: Source, W: Sink>(
    alloc: Global,
    annot: &mut B,
    out: &mut W,
) -> Result<Annotations, Stop>
    ensures said { IfOk result
        (λ said. OfBytes (B.state annot.old).bytes (λ text. SaysOfWhole text said)) }
    ensures kept { OnOk result (out.new ≡ out.old) }
    ensures refused { result ≡ Err Stop.Refused
        → WritesBadAnnotation Takes (B.state annot.old).bytes (W.state out.old) (W.state out.new) }
    ensures device { result ≡ Err Stop.Device
        → HasFailed (B.state annot.old) (B.state annot.new)
        ⊎ HasFailed (W.state out.old) (W.state out.new) }
    ensures part { result ≡ Err Stop.Device
        → (out.new ≡ out.old)
        ⊎ WritesBadAnnotation FailsAmid (B.state annot.old).bytes (W.state out.old)
        (W.state out.new) }
    ensures told { result ≢ Err Stop.Device
        → CountsNoFailure (B.state annot.old) (B.state annot.new)
        × CountsNoFailure (W.state out.old) (W.state out.new) }
    ensures order { CountsNoFailure (B.state annot.old) (B.state annot.new) ⊎ (out.new ≡ out.old) }
    ensures memory { result ≡ Err Stop.OutOfMemory → out.new ≡ out.old }
{
    let text = match read_all(alloc, annot) {
        Ok(text) => text,
        Err(stop) => return Err(stop),
    };
    match Annotations::read(alloc, text.as_slice()) {
        Ok(said) => Ok(said),
        Err(AnnotationFault::Text) => {
            put(out, b"bad annotation text\n")?;
            Err(Stop::Refused)
        }
        Err(AnnotationFault::Key(key)) => {
            write_bad_key(key.as_str(), out)?;
            Err(Stop::Refused)
        }
        Err(AnnotationFault::NoMemory) => Err(Stop::OutOfMemory),
    }
}
