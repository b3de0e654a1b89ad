// The places that wait, and which refused row ends the analysis.

use crate::setting::Watch;
use crate::worklist::Worklist;
use analysis::FlowFault;
use std::alloc::Global;
use std::collections::BTreeSet;

impl Worklist {
    /// Says which refused row ends the analysis.
    pub fn watch(&mut self, watched: Watch) {
        self.watched = watched;
    }

    /// Lets the place with this number wait.
    ///
    /// # Errors
    ///
    /// `NoMemory` where memory was refused.
    pub fn wake(&mut self, number: u64) -> Result<(), FlowFault> {
        self.waiting.insert(number)?;
        Ok(())
    }

    /// The first waiting place, which waits no more.
    pub fn take_first(&mut self) -> Option<u64> {
        self.waiting.pop_first()
    }

    /// The next waiting place, which waits no more. It is the last one where called procedures come first.
    pub fn take_waiting(&mut self) -> Option<u64> {
        match self.watched {
            Watch::Callees(_) => self.waiting.pop_last(),
            _ => self.waiting.pop_first(),
        }
    }

    /// Lets no place wait any more.
    pub fn rest(&mut self, alloc: Global) {
        self.waiting = BTreeSet::new(alloc);
    }
}
