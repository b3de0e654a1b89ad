// The rows of an exploring analysis, with the steps that come to each.

use crate::unshown::RowSteps;
use abs_state::AbsState;
use analysis::{FlowFault, Task};
use board_fetch::fetch;
use explored_plans::entry_of;
use inferred_rows::{ContextPoint, InferredRow};
use row_graph::{FlowGraph, NaturalLoop, loops_of};
use row_worklist::{RowEdge, Setting, Worklist};
use std::alloc::Global;
use z80_decode::Instr;

/// The rows of an exploring analysis, with the steps that come to each.
#[derive(Drop)]
pub struct Explored<'e> {
    pub task: &'e Task<'e>,
    pub list: &'e Worklist,
    setting: Setting<'e>,
    /// The steps, by the rows to which they come.
    incoming: Vec<RowEdge>,
    graph: FlowGraph,
}

impl<'e> Explored<'e> {
    /// The rows that an analysis found.
    ///
    /// # Errors
    ///
    /// `NoMemory` where memory was refused.
    pub fn of(
        alloc: Global,
        setting: Setting<'e>,
        list: &'e Worklist,
    ) -> Result<Explored<'e>, FlowFault> {
        let mut incoming = list.edges(alloc, setting)?;
        incoming.sort_unstable_by_key(|edge| (edge.to, edge.from));
        let graph = FlowGraph::of(alloc, &incoming)?;
        Ok(Explored {
            task: setting.task,
            list,
            setting,
            incoming,
            graph,
        })
    }

    /// The steps that come to a row.
    pub fn incoming(&self, number: u64) -> &[RowEdge] {
        let first = self.incoming.partition_point(|edge| edge.to < number);
        let after = self.incoming.partition_point(|edge| edge.to <= number);
        match self.incoming.get(first..after) {
            Some(edges) => edges,
            None => &[],
        }
    }

    /// All steps, by the rows to which they come.
    pub fn edges(&self) -> &[RowEdge] {
        self.incoming.as_slice()
    }

    /// The rows, and the steps between them.
    pub fn steps(&self) -> RowSteps<'_> {
        RowSteps {
            list: self.list,
            edges: self.incoming.as_slice(),
        }
    }

    /// The instruction at an address.
    pub fn instr_at(&self, address: u16) -> Option<Instr> {
        match fetch(self.task.rom(), address) {
            Ok((instr, _)) => Some(instr),
            Err(_) => None,
        }
    }

    /// The row at a place.
    pub fn row(&self, number: u64) -> Option<&InferredRow> {
        self.list.row(number)
    }

    /// The state of a row.
    pub fn state(&self, number: u64) -> Option<AbsState> {
        match self.list.row(number) {
            Some(row) => Some(row.state.copied()),
            None => None,
        }
    }

    /// The numbers of the rows at an address of a procedure, rising.
    ///
    /// # Errors
    ///
    /// `NoMemory` where memory was refused.
    pub fn rows_at(&self, alloc: Global, proc: u32, address: u16) -> Result<Vec<u64>, FlowFault> {
        let mut numbers = Vec::new(alloc);
        let last = ContextPoint::last_at(proc, address);
        for (number, _) in self
            .list
            .rows()
            .range(ContextPoint::first_at(proc, address)..=last)
        {
            numbers.push(*number)?;
        }
        Ok(numbers)
    }

    /// The splits to which a row sends a state that is in no part, with the register's range.
    ///
    /// # Errors
    ///
    /// `NoMemory` where memory was refused.
    pub fn lacking(
        &self,
        alloc: Global,
        number: u64,
    ) -> Result<Vec<(u16, intervals::ByteRange)>, FlowFault> {
        self.list.lacking(alloc, self.setting, number)
    }

    /// The loops of a procedure, those with the fewest addresses first.
    ///
    /// # Errors
    ///
    /// `NoMemory` where memory was refused.
    pub fn loops(&self, alloc: Global, proc: u32) -> Result<Vec<NaturalLoop>, FlowFault> {
        loops_of(alloc, &self.graph, proc, entry_of(proc))
    }

    /// The smallest loop of a procedure around an address.
    ///
    /// # Errors
    ///
    /// `NoMemory` where memory was refused.
    pub fn loop_around(
        &self,
        alloc: Global,
        proc: u32,
        address: u16,
    ) -> Result<Option<NaturalLoop>, FlowFault> {
        for found in self.loops(alloc, proc)? {
            if found.contains(address) {
                return Ok(Some(found));
            }
        }
        Ok(None)
    }

    /// The addresses to which a loop leads.
    ///
    /// # Errors
    ///
    /// `NoMemory` where memory was refused.
    pub fn exits(&self, alloc: Global, proc: u32, of: &NaturalLoop) -> Result<Vec<u16>, FlowFault> {
        of.exits(alloc, &self.graph, proc)
    }

    /// The addresses of the rows that call a procedure, rising, each once.
    ///
    /// # Errors
    ///
    /// `NoMemory` where memory was refused.
    pub fn call_sites(&self, alloc: Global, proc: u32) -> Result<Vec<u16>, FlowFault> {
        let mut sites = Vec::new(alloc);
        for caller in self.list.callers_of(alloc, proc)? {
            sites.push(ContextPoint::of(caller).address)?;
        }
        sites.sort_unstable();
        sites.dedup();
        Ok(sites)
    }
}
