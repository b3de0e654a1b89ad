// The annotated facts that hold at an address.

use abs_state::AbsState;
use annotations::FactNote;
use cert_fields::stays_within;

/// The facts at an address. The facts have to be sorted by address.
pub fn facts_at(facts: &[FactNote], address: u16) -> &[FactNote] {
    let first = facts.partition_point(|fact| fact.at < address);
    let behind = facts.partition_point(|fact| fact.at <= address);
    if first <= behind && behind <= facts.len() {
        &facts[first..behind]
    } else {
        &[]
    }
}

/// Tightens a state by facts, each once and in their order. A fact that names a slot which the state does not have is
/// left out; the first fact that leaves nothing ends it.
pub(crate) fn tighten_by(facts: &[FactNote], state: &mut AbsState) {
    for note in facts {
        if stays_within(&note.fact, state.shape.len()) && !state.tighten(&note.fact) {
            return;
        }
    }
}
