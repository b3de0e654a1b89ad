// `galcert suggest` with names for addresses.

ghost use Rattle.std.specs.Prelude.{◌≡◌, ◌≢◌, ◌⊎◌};
ghost use Rattle.command_parts.specs.Status.{IsStatus};
ghost use Rattle.inference_commands.specs.Inferring.{IsAcceptable};
ghost use Rattle.texts.specs.Device.{HasFailed, CountsNoFailure};

use crate::checking_named::said_by;
use certificate::Version;
use command_parts::{read_all, read_rom};
use inference_commands::{Progress, suggest};
use named_reports::ProgramNames;
use std::alloc::Global;
use texts::{Sink, Source};

/// `galcert suggest ROM [ANNOT] --symbols FILE --listing FILE`: finds annotations beside those in ANNOT, in which names
/// stand for addresses, and beside the notes in the source; writes a whole annotation file to `out`, with names for
/// addresses (docs/PROGRAM.md, "Names for addresses"). The search takes at most `trials` trials, and looks for a
/// certificate of version `most` at most: 3, or less for 2. What `notes` does changes nothing. `progress` hears of each
/// trial.
///
/// The result is the exit status: 0 where the ROM is accepted, 1 where it is refused (the file then says what was
/// found), or the annotations or a note are bad, 3 where a device failed, 4 where memory was refused. What was written
/// before a device failed stays.
pub fn suggest_named_on<A: Source, B: Source, W: Sink, N: Sink, P: Progress>(
    alloc: Global,
    rom: &mut A,
    annot: &mut B,
    names: &ProgramNames<'_>,
    trials: u32,
    most: Version,
    out: &mut W,
    notes: &mut N,
    progress: &mut P,
) -> u8
    ensures known { IsStatus result }
    // Some certificate is accepted for the ROM that was read.
    ensures accepted { result ≡ 0 → IsAcceptable (A.state rom.old).bytes }
    ensures device { result ≡ 3
        → HasFailed (A.state rom.old) (A.state rom.new)
        ⊎ (HasFailed (B.state annot.old) (B.state annot.new)
        ⊎ HasFailed (W.state out.old) (W.state out.new)) }
    ensures told { result ≢ 3
        → CountsNoFailure (A.state rom.old) (A.state rom.new)
        × CountsNoFailure (B.state annot.old) (B.state annot.new)
        × CountsNoFailure (W.state out.old) (W.state out.new) }
    ensures memory { result ≡ 4 → out.new ≡ out.old }
{
    let bytes = match read_rom(alloc, rom) {
        Ok(bytes) => bytes,
        Err(stop) => return stop.status(),
    };
    let read = bytes.as_slice();
    let text = match read_all(alloc, annot) {
        Ok(text) => text,
        Err(stop) => return stop.status(),
    };
    let said = match said_by(alloc, read, text.as_slice(), names, out, notes) {
        Ok(said) => said,
        Err(stop) => return stop.status(),
    };
    suggest(
        alloc,
        read,
        said.as_slice(),
        text.as_slice(),
        trials,
        most,
        &names.names.symbols,
        out,
        notes,
        progress,
    )
}
