// Moves of the search that help one refused row.

use analysis::FlowFault;
use explored_plans::{ExploredPlan, Search};
use inferred_rows::ContextPoint;
use plan_search::helping_at;

/// The search gives up after so many moves that lead nowhere.
const MOVES: u32 = 4;

/// The first move that takes the refusals of an address away and is no dead end.
///
/// # Errors
///
/// `NoMemory` where memory was refused.
pub(crate) fn helping_on(
    search: &mut Search,
    address: u16,
) -> Result<Option<Box<ExploredPlan>>, FlowFault> {
    for _ in 0..MOVES {
        let Some(other) = helping_at(search, address)? else {
            return Ok(None);
        };
        if !is_dead_end(&search.explored, &other, address) {
            return Ok(Some(other));
        }
    }
    Ok(None)
}

/// Whether a plan refuses an address that another has rows of and does not refuse, though from its own address the
/// program went on before: an inline call may move rows to another procedure, where a return is then refused.
fn is_dead_end(before: &ExploredPlan, after: &ExploredPlan, address: u16) -> bool {
    if before.leads_nowhere(address) {
        return false;
    }
    after.refused.iter().any(|(number, _)| {
        let at = ContextPoint::of(*number).address;
        !before.rows_at(at).is_empty() && before.refusals_at(at).0 == 0
    })
}
