// Which register pair an exit does not give back.

ghost use Rattle.std.specs.Prelude.{Contains, MatchOption};
ghost use Rattle.check_writes.specs.Saved.{LosesAmong, LosesTo};

use abs_step::{Next, NextKind};
use intervals::RegPair;
use nmi_saves::restores;

/// The first pair that an exit among the successors does not give back.
pub fn lost_at(nexts: &[Next]) -> Option<RegPair>
    ensures { LosesAmong nexts.now result }
{
    for next in nexts {
        if let Some(pair) = lost_to(next) {
            return Some(pair);
        }
    }
    None
}

/// The first pair that a successor does not give back, if it is an exit.
fn lost_to(next: &Next) -> Option<RegPair>
    ensures { LosesTo next.now result }
{
    match next.kind {
        NextKind::Exit => restores(&next.state).err(),
        NextKind::Jump | NextKind::Call => None,
    }
}
