// What an analysis takes over from another one.

use crate::setting::Setting;
use crate::worklist::Worklist;
use analysis::FlowFault;
use board_fetch::fetch;
use inferred_rows::{ContextPoint, InferredRow};
use std::collections::BTreeSet;
use std::rc::Rc;

impl Worklist {
    /// Takes over a row of another analysis.
    ///
    /// # Errors
    ///
    /// `NoMemory` where memory was refused.
    pub fn keep_row(&mut self, number: u64, row: &Rc<InferredRow>) -> Result<(), FlowFault> {
        self.rows.insert(number, row.clone()?)?;
        Ok(())
    }

    /// Takes over the rows of another analysis that are not lost, with what was found beside them.
    ///
    /// # Errors
    ///
    /// `NoMemory` where memory was refused.
    pub fn keep_rows(
        &mut self,
        setting: Setting,
        before: &Worklist,
        lost: &BTreeSet<u64>,
    ) -> Result<(), FlowFault> {
        for (number, row) in before.rows.iter() {
            if lost.contains(number) {
                continue;
            }
            let address = ContextPoint::of(*number).address;
            if let Ok((instr, _)) = fetch(setting.task.rom(), address) {
                self.thresholds.add(&instr)?;
            }
            self.keep_row(*number, row)?;
        }
        for (number, exit) in before.exits.iter() {
            if !lost.contains(number) {
                self.exits.insert(*number, exit.copied())?;
            }
        }
        self.keep_timed(before)?;
        self.keep_calls(before, lost)
    }

    /// Takes over the exits of another analysis at rows that this one has.
    ///
    /// # Errors
    ///
    /// `NoMemory` where memory was refused.
    pub fn keep_exits(&mut self, before: &Worklist) -> Result<(), FlowFault> {
        for (number, exit) in before.exits.iter() {
            if self.rows.contains_key(number) {
                self.exits.insert(*number, exit.copied())?;
            }
        }
        Ok(())
    }

    /// Takes over which procedures are timed.
    ///
    /// # Errors
    ///
    /// `NoMemory` where memory was refused.
    pub fn keep_timed(&mut self, before: &Worklist) -> Result<(), FlowFault> {
        for timed in before.timed.iter() {
            self.timed.insert(*timed)?;
        }
        Ok(())
    }
}
