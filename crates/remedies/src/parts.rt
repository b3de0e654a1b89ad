// Splits of the annotations that lack parts.

use analysis::FlowFault;
use annotations::{Annotations, SplitNote};
use explored_plans::{ByteSet, PARTS};
use intervals::ByteRange;
use std::alloc::Global;

/// The split at an address with a part for each value of a range that it lacks; None if there is no split, or it would
/// have too many parts.
pub(crate) fn widened_split(
    alloc: Global,
    said: &Annotations,
    at: u16,
    range: ByteRange,
) -> Result<Option<SplitNote>, FlowFault> {
    let Some(split) = said.splits().iter().find(|split| split.at == at) else {
        return Ok(None);
    };
    let mut have = ByteSet::empty();
    let mut parts = Vec::new(alloc);
    for part in split.parts.as_slice() {
        have.add_range(*part);
        parts.push(*part)?;
    }
    for value in range.low()..=range.high() {
        if !have.contains(value) {
            parts.push(ByteRange::single(value))?;
        }
    }
    if parts.len() > PARTS {
        return Ok(None);
    }
    parts.sort_unstable_by_key(|part| part.low());
    Ok(Some(SplitNote {
        at,
        register: split.register,
        parts,
        until: split.until,
    }))
}
