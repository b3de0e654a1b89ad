// Joins of the states at the exits of a procedure.

ghost use Rattle.std.specs.Prelude.{◌≡◌, ◌↔◌, ◌⊎◌, [], IfOk, IsTrue};
ghost use Rattle.check_tables.specs.Lefts.{HaveOrigins, IsWidened, Widens, WidensEach};

use crate::left::Left;
use abs_state::AbsState;
use std::alloc::{AllocError, Global};

/// The most patterns of origins whose states are joined.
const MOST_PATTERNS: usize = 16;

/// Joins of these states, one for each pattern of origins. For each state one of them covers it and has its origins.
/// There are none if the states have too many patterns. The error is refused memory.
pub(crate) fn widest(alloc: Global, lefts: &[Left]) -> Result<Vec<AbsState>, AllocError>
    ensures { IfOk result (λ wides. (wides.items ≡ []) ⊎ WidensEach lefts.now wides.items) }
{
    let mut wides = Vec::new(alloc);
    for left in lefts {
        join_into(&mut wides, &left.state())?;
    }
    if widen_each(wides.as_slice(), lefts) {
        return Ok(wides);
    }
    Ok(Vec::new(alloc))
}

/// Joins a state into the first of these that has its origins, or adds it, if there are not too many.
fn join_into(wides: &mut Vec<AbsState>, state: &AbsState) -> Result<(), AllocError> {
    for at in 0..wides.len() {
        if let Some(wide) = wides.get_mut(at)
            && let Some(both) = wider(wide, state)
        {
            *wide = both;
            return Ok(());
        }
    }
    if wides.len() < MOST_PATTERNS {
        wides.push(state.copied())?;
    }
    Ok(())
}

/// The join of two states, if they have the same origins and the join has them too.
fn wider(wide: &AbsState, state: &AbsState) -> Option<AbsState> {
    let both = wide.join(state)?;
    if have_origins(&both, wide) && have_origins(&both, state) {
        Some(both)
    } else {
        None
    }
}

/// Whether each of these is found to be covered by one of the states that has its origins.
fn widen_each(wides: &[AbsState], lefts: &[Left]) -> bool
    ensures { IsTrue result → WidensEach lefts.now wides.now }
{
    for left in lefts {
        if !is_widened(wides, &left.state()) {
            return false;
        }
    }
    true
}

/// Whether one of the states is found to cover a state and to have its origins.
fn is_widened(wides: &[AbsState], state: &AbsState) -> bool
    ensures { IsTrue result → IsWidened wides.now state.now }
{
    for wide in wides {
        if widens(wide, state) {
            return true;
        }
    }
    false
}

/// Whether a state covers another one and has the same origins.
fn widens(wide: &AbsState, state: &AbsState) -> bool
    ensures { IsTrue result ↔ Widens wide.now state.now }
{
    wide.covers(state) && have_origins(wide, state)
}

/// Whether two states have the same origins.
fn have_origins(one: &AbsState, other: &AbsState) -> bool
    ensures { IsTrue result ↔ HaveOrigins one.now other.now }
{
    one.pairs.keeps(&other.pairs) && other.pairs.keeps(&one.pairs)
}
