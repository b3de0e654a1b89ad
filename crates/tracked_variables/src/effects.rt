// What an effect leaves in the variable of each rank.
ghost use Rattle.std.specs.Prelude.{◌≡◌, ◌<◌, ◌≤◌};
ghost use Rattle.loop_bounds.specs.declared.variable.Variable.{Variable};
ghost use Rattle.loop_bounds.specs.Variable.{rank_of};
ghost use Rattle.loop_bounds.specs.Effect.{change_of};
ghost use Rattle.tracked_variables.specs.Written.{first_written};

use crate::tracked::{TRACKED, TRACKED_REGISTERS, TRACKED_SLOTS, variable};
use loop_bounds::{Change, Effect, Variable};

/// The variable from which a change takes its value.
pub fn source(change: &Change) -> Option<Variable> {
    match *change {
        Change::Old(from) | Change::Raised(from) | Change::Lowered(from) => Some(from),
        Change::Constant(_) | Change::Unknown => None,
    }
}

/// Whether a change takes its value from the variable of a rank.
pub fn takes(change: &Change, rank: usize) -> bool {
    match source(change) {
        Some(from) => usize::from(from.rank()) == rank,
        None => false,
    }
}

/// The lowest rank of the slot that an effect writes; the number of tracked variables if it writes no tracked one.
pub fn first_written(effect: &Effect) -> usize
    ensures value { result ≡ first_written effect.now.slot }
    ensures low { 12 ≤ result }
    ensures high { result ≤ 48 }
{
    match effect.slot {
        Some(slot) => (TRACKED_REGISTERS + 3 * usize::from(slot.number.number())).min(TRACKED),
        None => TRACKED,
    }
}

/// What an effect leaves in the variable of a rank.
pub fn change_at(effect: &Effect, rank: usize) -> Change
    ensures { rank < 48 → (v : Variable) → rank_of v ≡ rank → result ≡ change_of effect.now v }
{
    match variable(rank) {
        Some(variable) => effect.change(variable),
        None => Change::Unknown,
    }
}

/// The lowest rank of a slot from number `slots` on.
pub fn end_of(slots: usize) -> usize
    ensures { result ≤ 48 }
{
    TRACKED_REGISTERS + 3 * slots.min(TRACKED_SLOTS)
}

/// Whether a variable other than that of rank `but` takes its value from the variable of rank `from`.
pub fn is_read(effect: &Effect, from: usize, but: usize) -> bool {
    for rank in 0..TRACKED_REGISTERS {
        if rank != but && takes(&change_at(effect, rank), from) {
            return true;
        }
    }
    let first = first_written(effect);
    for rank in first..(first + 3).min(TRACKED) {
        if rank != but && takes(&change_at(effect, rank), from) {
            return true;
        }
    }
    false
}
