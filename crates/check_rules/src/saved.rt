// Reason 14: what a row's procedure has to give back.

ghost use Rattle.std.specs.Prelude.{◌≡◌, Ok};
ghost use Rattle.check_rules.specs.Saved.{LosesBy};
ghost use Rattle.check_rules.specs.Table.{PassesBelow, TellsLowest};
ghost use Rattle.check_ways.specs.Ways.{step_of};

use crate::instructions::keeps_i;
use abs_step::{Next, Reason, Saved};
use cert_lines::ProcKind;
use check_ways::Subject;
use check_writes::lost_at;
use intervals::RegPair;

/// Reason 14: the NMI routine gives back each pair at its exits, and a timed procedure keeps I.
pub(crate) fn check_saved(subject: &Subject, nexts: &[Next]) -> Result<(), Reason>
    requires step { step_of subject.now ≡ Ok nexts.now }
    requires below { PassesBelow subject.now 14 }
    ensures { TellsLowest subject.now 15 result }
{
    if let Some(pair) = lost_by(subject, nexts) {
        return Err(Reason::SavedRegister(Saved::Pair(pair)));
    }
    if !keeps_i(subject) {
        return Err(Reason::SavedRegister(Saved::I));
    }
    Ok(())
}

/// The first pair that a row of the NMI routine does not give back; none in other procedures.
fn lost_by(subject: &Subject, nexts: &[Next]) -> Option<RegPair>
    ensures { LosesBy subject.now.proc.kind nexts.now result }
{
    match subject.proc.kind {
        ProcKind::Nmi => lost_at(nexts),
        ProcKind::Main | ProcKind::Sub => None,
    }
}
