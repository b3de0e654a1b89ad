// The variables that a space tracks, by their rank.
ghost use Rattle.std.specs.Prelude.{◌≡◌, ◌+◌, ◌≤◌, MatchOption};
ghost use Rattle.loop_bounds.specs.Variable.{rank_of};

use loop_bounds::{Part, SlotNumber, Variable};

/// The slots that a space tracks: those whose number is below this one.
pub const TRACKED_SLOTS: usize = 12;

/// How many variables a space tracks: twelve registers and pairs, and three for each tracked slot. They are the
/// variables whose rank is below this number.
pub const TRACKED: usize = 48;

/// How many variables are registers or pairs. Their ranks are the lowest.
pub const TRACKED_REGISTERS: usize = 12;

/// The variable of a rank, or None from 204 on.
pub fn variable(rank: usize) -> Option<Variable>
    ensures { MatchOption result (204 ≤ rank) (λ v. rank_of v ≡ rank) }
{
    let variable = match rank {
        0 => Variable::A,
        1 => Variable::B,
        2 => Variable::C,
        3 => Variable::D,
        4 => Variable::E,
        5 => Variable::H,
        6 => Variable::L,
        7 => Variable::Bc,
        8 => Variable::De,
        9 => Variable::Hl,
        10 => Variable::Ix,
        11 => Variable::Iy,
        _ => return slot_variable(rank - TRACKED_REGISTERS),
    };
    Some(variable)
}

/// The variable of a slot, by its place after the registers.
fn slot_variable(place: usize) -> Option<Variable>
    ensures { MatchOption result (192 ≤ place) (λ v. rank_of v ≡ 12 + place) }
{
    if place >= 192 {
        return None;
    }
    let slot = SlotNumber::new((place / 3) as u8)?;
    let part = match place % 3 {
        0 => Part::Word,
        1 => Part::High,
        _ => Part::Low,
    };
    Some(Variable::Slot(slot, part))
}

/// The rank of the pair, or of the slot's word, of which the variable of this rank is a half.
fn whole(rank: usize) -> Option<usize> {
    match rank {
        1 | 2 => Some(7),
        3 | 4 => Some(8),
        5 | 6 => Some(9),
        _ if rank >= TRACKED_REGISTERS && rank % 3 != 0 => Some(rank - rank % 3),
        _ => None,
    }
}

/// Whether one of the two variables is a half of the other, as H of HL.
pub fn is_half(one: usize, other: usize) -> bool {
    whole(one) == Some(other) || whole(other) == Some(one)
}
