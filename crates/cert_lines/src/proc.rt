// Procedures.

ghost use Rattle.std.specs.Prelude.{◌↔◌, IsTrue};
ghost use Rattle.cert_lines.specs.Proc.{IsOfKind, IsProc};

use z80_moves::NMI_ADDRESS;

/// The greatest time of a procedure, in T-states.
pub const GREATEST_TIME: u32 = 1_000_000_000;

/// The kind of a procedure.
#[derive(Clone, Copy, PartialEq, Eq)]
pub enum ProcKind {
    /// The main procedure, which a reset enters at 0000.
    Main,
    /// The NMI routine, which an acceptance enters at 0066.
    Nmi,
    /// A procedure that is called.
    Sub,
}

/// A procedure of a certificate (docs/CERTIFICATE.md, "Procedures").
#[derive(Clone, Copy)]
pub struct Proc {
    pub kind: ProcKind,
    /// The address of its first instruction.
    pub entry: u16,
    /// The rules want each callee's rank below this one, 0 to 65,535.
    pub rank: u16,
    /// The bytes of stack that it and its callees need, 0 to 65,535; for all but main the return word is included.
    pub depth: u16,
    /// The T-states from its entry to the end of its return, 0 to 1,000,000,000; for the NMI routine the 11 of the
    /// acceptance are included. None for a procedure without a time.
    pub time: Option<u32>,
}

impl Proc {
    /// Whether the procedure is in form by itself. Main has the entry 0000 and no time; the NMI routine has the entry
    /// 0066 and a time; a time is at most 1,000,000,000.
    pub fn is_in_form(self) -> bool
        ensures { IsTrue result ↔ IsProc self }
    {
        self.time.unwrap_or(0) <= GREATEST_TIME && is_of_kind(self.kind, self.entry, self.time)
    }
}

/// Whether the kind may have this entry and this time.
pub(crate) fn is_of_kind(kind: ProcKind, entry: u16, time: Option<u32>) -> bool
    ensures { IsTrue result ↔ IsOfKind kind entry time }
{
    match kind {
        ProcKind::Main => entry == 0 && time.is_none(),
        ProcKind::Nmi => entry == NMI_ADDRESS && time.is_some(),
        ProcKind::Sub => true,
    }
}
