// The rows at the target of a step.

use abs_state::AbsState;
use loop_bounds::Linear;

/// A row at the target of a step.
#[derive(Drop)]
pub struct TargetRow {
    pub state: AbsState,
    pub facts: Vec<Linear>,
}
