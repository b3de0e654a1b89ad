// The checker's verdict.

ghost use Rattle.std.specs.Prelude.{◌≡◌, Err, IfOk, IsOkUnless, OnOk};
ghost use Rattle.board_step.specs.Safe.{Safe};
ghost use Rattle.check_laws.specs.Acceptance.{Accepts, IsRefused};
ghost use Rattle.check_rules.specs.declared.refused.Refused.{Refused};
ghost use Rattle.check_laws.specs.Bounded.{KeepsTimes};
ghost use Rattle.check_laws.specs.Layout.{RunsAreLaidOut};
ghost use Rattle.check_laws.specs.Profile.{certified_profile, nmi_time};

use crate::accepted::{Accepted, acceptance_means};
use certificate::Certificate;
use check_rules::{Refused, examine};
use std::alloc::Global;
use thiserror::Error;

/// Why `check` does not accept.
#[derive(Clone, Copy, Debug, Error, PartialEq, Eq)]
pub enum CheckFault {
    /// The first reason that applies, in the order of the rules.
    #[error("refused at {:04X}: {}", .0.address, .0.reason)]
    Refused(Refused),
    /// Memory was refused for the table of the ROM's instructions. The rules accept the certificate.
    #[error("out of memory")]
    NoMemory,
}

/// Checks a certificate for a ROM. It is accepted exactly where no reason of the table applies (docs/CHECKER.md, "The
/// table of reasons"); then every run of the board on this ROM is safe (docs/THEOREM.md). Once the rules accept the
/// certificate, memory is taken for the table of the ROM's instructions.
///
/// # Errors
///
/// `Refused` has the first reason that applies: 1, 2 and 3 of the whole; then those of the rows in order, each with its
/// lowest number; then 11 and 18 of the whole. `NoMemory` comes only where the rules accept the certificate and memory
/// was refused for that table.
pub fn check<'r>(
    alloc: Global,
    rom: &'r [u8],
    certificate: Certificate,
) -> Result<Accepted<'r>, CheckFault>
    // Exactly what the rules accept is accepted, unless memory is refused.
    ensures exact { Accepts rom.now certificate → IsOkUnless result CheckFault.NoMemory }
    ensures only { OnOk result (Accepts rom.now certificate) }
    // An accepted ROM is safe: every run, from every reset state, for every input and every phase of the vertical
    // blank.
    ensures safe { OnOk result (Safe (certified_profile rom.now certificate) (nmi_time certificate)) }
    // While no NMI comes, each activation with a time keeps it.
    ensures bounded { OnOk result (KeepsTimes rom.now certificate) }
    // Before each event some activations are laid out: the running one is at a row that holds, and SP is where their
    // shapes say.
    ensures laid { OnOk result (RunsAreLaidOut rom.now certificate) }
    ensures kept { IfOk result (λ accepted. (accepted.rom ≡ rom.now)
        × (accepted.certificate ≡ certificate)) }
    // A refusal has the first reason that applies.
    ensures refused { (r : Refused) → result ≡ Err (CheckFault.Refused r)
        → IsRefused rom.now certificate r.row r.address r.reason }
    // No refusal depends on memory.
    ensures memory { result ≡ Err CheckFault.NoMemory → Accepts rom.now certificate }
{
    match examine(alloc, rom, &certificate) {
        Ok(()) => {
            acceptance_means(rom, &certificate);
            match Accepted::of(alloc, rom, certificate) {
                Ok(accepted) => Ok(accepted),
                Err(_) => Err(CheckFault::NoMemory),
            }
        }
        Err(refused) => Err(CheckFault::Refused(refused)),
    }
}
