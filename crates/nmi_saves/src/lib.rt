// Whether an NMI routine restores each register pair (docs/CHECKER.md, "The table of reasons", SavedRegister).
#![tactic(auto)]

ghost use Rattle.std.specs.Prelude.{◌≡◌, ◌↔◌, IfErr, IsOk, IsTrue};
ghost use Rattle.intervals.specs.declared.reg_pair.RegPair.{RegPair as Name};
ghost use Rattle.nmi_saves.specs.Lost.{IsFirstLost, IsRestored};

use abs_state::AbsState;
use intervals::RegPair;

/// The pairs in their order.
const PAIRS: [RegPair; 10] = [
    RegPair::Af,
    RegPair::Bc,
    RegPair::De,
    RegPair::Hl,
    RegPair::Ix,
    RegPair::Iy,
    RegPair::AlternateAf,
    RegPair::AlternateBc,
    RegPair::AlternateDe,
    RegPair::AlternateHl,
];

/// Whether every register pair is known to be what it was at the activation's entry. The call takes no memory.
///
/// # Errors
///
/// The first pair, in the order AF BC DE HL IX IY AF' BC' DE' HL', that is not known to be what it was.
pub fn restores(state: &AbsState) -> Result<(), RegPair>
    ensures all { IsOk result ↔ ((pair : Name) → IsRestored state.now pair) }
    ensures first { IfErr result (λ pair. IsFirstLost state.now pair) }
{
    for pair in PAIRS {
        if !is_restored(state, pair) {
            return Err(pair);
        }
    }
    Ok(())
}

/// Whether a pair is known to be what it was at the activation's entry.
fn is_restored(state: &AbsState, pair: RegPair) -> bool
    ensures { IsTrue result ↔ IsRestored state.now pair }
{
    state.pair(pair).origin == Some(pair)
}
