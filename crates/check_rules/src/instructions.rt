// The reasons of a row that look at its instruction: 19 and 20, and LD I,A of reason 14.

ghost use Rattle.std.specs.Prelude.{◌≡◌, ◌↔◌, IsTrue};
ghost use Rattle.check_rules.specs.Table.{IsTimed, Passes, PassesBelow, TellsLowest};

use abs_step::{Reason, Saved};
use cert_lines::Proc;
use check_ways::Subject;
use check_writes::{sets_sp, sets_top};
use z80_decode::{Instr, Special};

/// Reasons 19 and 20: HALT in a timed procedure, and instructions that set SP.
pub(crate) fn check_instruction(subject: &Subject) -> Result<(), Reason>
    requires { PassesBelow subject.now 19 }
    ensures { TellsLowest subject.now 21 result }
{
    if !never_halts(subject) {
        return Err(Reason::HaltInNmi);
    }
    if !sets_top_alone(subject) {
        return Err(Reason::SpWrite);
    }
    Ok(())
}

pub(crate) fn is_timed(proc: &Proc) -> bool
    ensures { IsTrue result ↔ IsTimed proc.now }
{
    proc.time.is_some()
}

/// Whether the row is not LD I,A in a timed procedure.
pub(crate) fn keeps_i(subject: &Subject) -> bool
    ensures { IsTrue result ↔ Passes subject.now (Reason.SavedRegister Saved.I) }
{
    !is_timed(&subject.proc) || !matches!(subject.decoded, Ok(Instr::StoreASpecial(Special::I)))
}

/// Whether the row is not HALT in a timed procedure.
fn never_halts(subject: &Subject) -> bool
    ensures { IsTrue result ↔ Passes subject.now Reason.HaltInNmi }
{
    !is_timed(&subject.proc) || !matches!(subject.decoded, Ok(Instr::Halt))
}

/// Whether the instruction does not set SP, or is main's LD SP,nn with the region's top, or a restart by it.
fn sets_top_alone(subject: &Subject) -> bool
    ensures { IsTrue result ↔ Passes subject.now Reason.SpWrite }
{
    match &subject.decoded {
        Ok(instr) => {
            let region = subject.certificate.region();
            !sets_sp(instr)
                || sets_top(subject.row.proc == 0, region, instr)
                || (subject.restarts() && sets_top(true, region, instr))
        }
        Err(_) => true,
    }
}
