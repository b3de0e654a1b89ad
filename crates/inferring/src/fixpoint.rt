// The fixpoint of an inferring analysis from the entries.

use crate::lowering::lowered_if_widened;
use analysis::FlowFault;
use judged_rows::JudgedRows;
use row_worklist::{Setting, Watch, Worklist};
use std::alloc::Global;

/// Computes the fixpoint from the entries of main and of the NMI routine, if there is one, in at most `visits` visits
/// of rows. Then two rounds without widening lower what a widening raised.
///
/// # Errors
///
/// `Limit` if there are more than 65,535 rows or 1,024 procedures, or the visits do not suffice; `NoMemory` where
/// memory was refused.
pub fn found_rows(
    alloc: Global,
    setting: Setting,
    visits: u32,
) -> Result<Box<Worklist>, FlowFault> {
    found_rows_with(
        alloc,
        setting,
        visits,
        &JudgedRows::none(alloc)?,
        Watch::Nothing,
    )
}

/// The same, with the judged rows of other analyses of the ROM on one map. Rows that this one judges are added. A
/// watched row that is refused before the fixpoint is reached ends the analysis.
///
/// # Errors
///
/// As for `found_rows`; `Limit` for the refused row too.
pub fn found_rows_with(
    alloc: Global,
    setting: Setting,
    visits: u32,
    judged: &JudgedRows,
    watched: Watch,
) -> Result<Box<Worklist>, FlowFault> {
    let mut list = Worklist::begin(alloc, setting, judged.shared(setting.task)?)?;
    list.watch(watched);
    for _ in 0..visits {
        match list.take_first() {
            Some(number) => list.visit(alloc, setting, number)?,
            None => return lowered_if_widened(alloc, setting, list),
        }
    }
    Err(FlowFault::Limit)
}
