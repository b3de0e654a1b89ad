// What a certificate says about its ROM's addresses and its procedures, found by binary search.

ghost use Rattle.std.specs.Prelude.{◌≡◌};
ghost use Rattle.check_cover.specs.Program.{call_number, callee_at, is_inline, split_at};

use call_graph::ProcId;
use cert_contents::Certificate;
use cert_form::place_number;
use cert_lines::{Proc, ProcKind};
use z80_decode::Register8;

/// A called procedure, with its number.
#[derive(Clone, Copy)]
pub struct Callee {
    pub number: ProcId,
    pub proc: Proc,
}

/// Whether the certificate marks the call at an address as inline.
pub fn is_inline(certificate: &Certificate, address: u16) -> bool
    ensures { result ≡ is_inline certificate.now address }
{
    certificate.is_in_form();
    let inlines = certificate.inlines();
    let place = inlines.partition_point(|at| *at < address);
    match inlines.get(place) {
        Some(at) => *at == address,
        None => false,
    }
}

/// The register of the split at an address of a procedure, if there is one.
pub fn split_at(certificate: &Certificate, proc: ProcId, address: u16) -> Option<Register8>
    ensures { result ≡ split_at certificate.now proc address }
{
    certificate.is_in_form();
    let splits = certificate.splits();
    let number = place_number(proc, address);
    let place = splits.partition_point(|split| place_number(split.proc, split.address) < number);
    let split = splits.get(place)?;
    if place_number(split.proc, split.address) == number {
        Some(split.register)
    } else {
        None
    }
}

/// The procedure with this entry, if it is called. Main and the NMI routine are never called.
pub fn callee_at(certificate: &Certificate, entry: u16) -> Option<Callee>
    ensures { result ≡ callee_at certificate.now entry }
{
    certificate.is_in_form();
    let procs = certificate.procs();
    let number = u32::from(entry) + 1;
    let place = procs.partition_point(|proc| call_number(proc) < number);
    let proc = procs.get(place)?;
    if call_number(proc) == number {
        Some(Callee {
            number: place as u16,
            proc: *proc,
        })
    } else {
        None
    }
}

/// The number by which procedures are ordered: 0 for main and the NMI routine, else the entry plus 1.
fn call_number(proc: &Proc) -> u32
    ensures { result ≡ call_number proc.now }
{
    match proc.kind {
        ProcKind::Main | ProcKind::Nmi => 0,
        ProcKind::Sub => u32::from(proc.entry) + 1,
    }
}
