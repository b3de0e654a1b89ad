// How a row's state covers another state. States are large, so they are compared in place and not copied.

ghost use Rattle.std.specs.Prelude.{◌≡◌, ◌↔◌, IsTrue, []};
ghost use Rattle.abs_state.specs.Covers.{CoversState, KeepsState};

use abs_state::{AbsState, covers_fact, keeps_slots};
use cert_lines::RowRef;

/// Whether the row's state covers a state; facts and flag parts are not looked at.
pub fn covers_state(row: &RowRef, state: &AbsState) -> bool
    ensures { IsTrue result ↔ CoversState row.now.state state.now }
{
    row.mode.covers(state.mode)
        && row.armed <= state.armed
        && covers_fact(row.flag, state.flag)
        && row.pairs.covers(&state.pairs)
        && row.shape.covers(&state.shape)
}

/// Whether the row has no facts and no flag parts.
pub fn is_plain(row: &RowRef) -> bool
    ensures { IsTrue result ↔ ((row.now.facts ≡ []) × (row.now.parts ≡ [])) }
{
    row.facts.as_slice().is_empty() && row.parts.is_empty()
}

/// Whether each origin and the flag fact that the row gives are the state's.
pub fn keeps_state(row: &RowRef, state: &AbsState) -> bool
    ensures { IsTrue result ↔ KeepsState row.now.state state.now }
{
    covers_fact(row.flag, state.flag)
        && row.pairs.keeps(&state.pairs)
        && keeps_slots(row.shape.slots(), state.shape.slots())
}
