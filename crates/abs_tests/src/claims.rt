// What a row says of the successors of a step.
//
// A successor is written as words. `taken` and `passed` say whether its test held, `jump`, `call` and `exit` are its
// kind, to=0012 is its address, and t=7 its T-states. B=C+1 says of the effect that B becomes C plus 1; B=C-1, B=C,
// B=#0005 and B=? are written likewise. moved.B=C says it of the effect without the priority of constants, and
// slot=none that no slot is written. The other words tell the state, which is as before where no word names it.
use crate::reading::put;
use abs_state::{AbsState, covers_fact};
use abs_step::{Next, NextKind, Nexts, Reason};
use cert_fields::variable_field;
use intervals::RegPair;
use loop_bounds::{Change, Effect};
use texts::{decimal_field, hex4_field, split_once};

/// Whether two states are the same.
pub fn are_same(one: &AbsState, other: &AbsState) -> bool {
    for pair in [
        RegPair::Af,
        RegPair::Bc,
        RegPair::De,
        RegPair::Hl,
        RegPair::Ix,
        RegPair::Iy,
        RegPair::AlternateAf,
        RegPair::AlternateBc,
        RegPair::AlternateDe,
        RegPair::AlternateHl,
    ] {
        if one.pairs.pair(pair) != other.pairs.pair(pair) {
            return false;
        }
    }
    let have_same_fact = covers_fact(one.flag, other.flag) && covers_fact(other.flag, one.flag);
    have_same_fact && one.mode == other.mode && one.armed == other.armed && one.shape == other.shape
}

/// What a step leaves in a variable.
fn change_of(text: &[u8]) -> Option<Change> {
    Some(match text {
        [b'?'] => Change::Unknown,
        [b'#', constant @ ..] => Change::Constant(hex4_field(constant)?),
        [name @ .., b'+', b'1'] => Change::Raised(variable_field(name)?),
        [name @ .., b'-', b'1'] => Change::Lowered(variable_field(name)?),
        name => Change::Old(variable_field(name)?),
    })
}

/// Whether a step leaves this in a variable.
fn leaves(effect: &Effect, name: &[u8], change: &[u8]) -> bool {
    match (variable_field(name), change_of(change)) {
        (Some(variable), Some(change)) => effect.change(variable) == change,
        _ => false,
    }
}

/// Whether a successor has this value under this name.
fn is_equal(next: &Next, name: &[u8], value: &[u8]) -> bool {
    match name {
        b"to" => hex4_field(value) == Some(next.address),
        b"t" => decimal_field(value) == Some(u16::from(next.cost)),
        b"slot" => value == b"none".as_slice() && next.effect.slot.is_none(),
        [b'm', b'o', b'v', b'e', b'd', b'.', name @ ..] => leaves(&next.moved, name, value),
        _ => leaves(&next.effect, name, value),
    }
}

/// Whether a word that is not of the state holds. None if it is of the state.
fn holds(next: &Next, word: &[u8]) -> Option<bool> {
    Some(match word {
        b"taken" => next.taken,
        b"passed" => !next.taken,
        b"jump" => next.kind == NextKind::Jump,
        b"call" => next.kind == NextKind::Call,
        b"exit" => next.kind == NextKind::Exit,
        _ => match split_once(word, b'=') {
            Some((name, value)) => is_equal(next, name, value),
            None => return None,
        },
    })
}

/// Whether a successor is what these words say, after this state.
fn is_next(next: &Next, text: &str, before: &AbsState) -> bool {
    let mut state = before.copied();
    for word in text.split_whitespace() {
        let word = word.as_bytes();
        let is_right = match holds(next, word) {
            Some(is_right) => is_right,
            None => put(&mut state, word).is_some(),
        };
        if !is_right {
            return false;
        }
    }
    are_same(&state, &next.state)
}

/// Whether the successors are those of these columns, in their order. The name of a reason as the only column says that
/// the row is refused for it.
pub fn are_successors(answer: &Result<Nexts, Reason>, columns: &[&str], before: &AbsState) -> bool {
    match (answer, columns) {
        (Ok(nexts), _) => {
            if nexts.len() != columns.len() {
                return false;
            }
            for (next, column) in nexts.as_slice().iter().zip(columns) {
                if !is_next(next, column, before) {
                    return false;
                }
            }
            true
        }
        (Err(reason), [column]) => column.as_bytes() == reason.name(),
        (Err(_), _) => false,
    }
}
