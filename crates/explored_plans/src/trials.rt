// The state of a search: the explored plan, and the trials that are left.

use crate::explored_plan::ExploredPlan;
use crate::search_context::SearchContext;
use analysis::FlowFault;
use board_fetch::fetch;
use inferring::SplitReach;
use plans::{Family, Plan};
use row_graph::{FlowGraph, NaturalLoop, loops_of};
use row_worklist::{RowEdge, Watch};
use std::alloc::Global;
use std::collections::{BTreeMap, BTreeSet};
use std::mem::replace;
use z80_decode::Instr;

/// What a move was tried on, so that it is not tried again: a number for the kind of move, two addresses, and a number
/// for what else matters.
pub type Attempt = (u8, u16, u16, u64);

/// A search: the explored plan, and the trials that are left.
#[derive(Drop)]
pub struct Search<'s> {
    pub alloc: Global,
    pub context: &'s SearchContext<'s>,
    pub explored: Box<ExploredPlan>,
    pub graph: FlowGraph,
    /// The steps between the rows.
    edges: Vec<RowEdge>,
    /// How many trials are left.
    pub left: u32,
    /// Whether moves that were tried with fewer findings are tried again, and splits with the whole plan explored.
    pub repeats: bool,
    /// What was tried, each with the number of findings that the plan had then.
    tried: BTreeMap<Attempt, usize>,
    /// The refused addresses that no cheap move helped since the plan was last explored as a whole.
    passed: BTreeSet<u16>,
    /// How many findings there were then.
    settled: usize,
    /// The places that were refused then.
    known: BTreeSet<u64>,
}

/// What a search goes back to: its explored plan and the graph of its rows.
#[derive(Drop)]
pub struct SetAside {
    explored: Box<ExploredPlan>,
    graph: FlowGraph,
    edges: Vec<RowEdge>,
}

impl<'s> Search<'s> {
    /// A search that begins with an explored plan.
    ///
    /// # Errors
    ///
    /// `NoMemory` where memory was refused.
    pub fn of(
        alloc: Global,
        context: &'s SearchContext<'s>,
        explored: Box<ExploredPlan>,
        trials: u32,
    ) -> Result<Search<'s>, FlowFault> {
        let edges = explored.edges(alloc, context)?;
        let graph = FlowGraph::of(alloc, &edges)?;
        let settled = explored.plan.findings.len();
        let known = places_refused(alloc, &explored)?;
        Ok(Search {
            alloc,
            context,
            explored,
            graph,
            edges,
            left: trials,
            repeats: false,
            tried: BTreeMap::new(alloc),
            passed: BTreeSet::new(alloc),
            settled,
            known,
        })
    }

    /// Goes on with another explored plan.
    ///
    /// # Errors
    ///
    /// `NoMemory` where memory was refused.
    pub fn keep(&mut self, explored: Box<ExploredPlan>) -> Result<(), FlowFault> {
        let edges = explored.edges(self.alloc, self.context)?;
        self.graph = FlowGraph::of(self.alloc, &edges)?;
        self.edges = edges;
        if !explored.is_near {
            self.passed = BTreeSet::new(self.alloc);
            self.settled = explored.plan.findings.len();
            self.known = places_refused(self.alloc, &explored)?;
        }
        self.explored = explored;
        Ok(())
    }

    /// Whether no cheap move helped a refused address since the plan was last explored as a whole. It is not tried
    /// again before.
    pub fn is_passed(&self, address: u16) -> bool {
        self.explored.is_near && self.passed.contains(&address)
    }

    /// No cheap move helped a refused address.
    pub fn pass(&mut self, address: u16) -> Result<(), FlowFault> {
        self.passed.insert(address)?;
        Ok(())
    }

    /// Goes on with another explored plan for a while. The result is what `restore` takes.
    ///
    /// # Errors
    ///
    /// `NoMemory` where memory was refused.
    pub fn exchange(&mut self, explored: Box<ExploredPlan>) -> Result<SetAside, FlowFault> {
        let edges = explored.edges(self.alloc, self.context)?;
        let graph = FlowGraph::of(self.alloc, &edges)?;
        Ok(SetAside {
            explored: replace(&mut self.explored, explored),
            graph: replace(&mut self.graph, graph),
            edges: replace(&mut self.edges, edges),
        })
    }

    /// Goes back to the explored plan that was set aside.
    pub fn restore(&mut self, before: SetAside) {
        self.explored = before.explored;
        self.graph = before.graph;
        self.edges = before.edges;
    }

    /// Whether a move is new; from now on it is not. Where the search repeats moves, one that was tried on a plan with
    /// another number of findings is new too.
    ///
    /// # Errors
    ///
    /// `NoMemory` where memory was refused.
    pub fn is_new(&mut self, attempt: Attempt) -> Result<bool, FlowFault> {
        let findings = self.explored.plan.findings.len();
        match self.tried.get(&attempt).copied() {
            Some(before) if !self.repeats || before == findings => Ok(false),
            _ => {
                self.tried.insert(attempt, findings)?;
                Ok(true)
            }
        }
    }

    /// Whether a trial is left.
    pub fn has_trials(&self) -> bool {
        self.left > 0
    }

    /// Explores a plan as a trial; None if no trial is left, or it is too large.
    ///
    /// # Errors
    ///
    /// `NoMemory` where memory was refused.
    pub fn try_plan(&mut self, plan: Plan) -> Result<Option<Box<ExploredPlan>>, FlowFault> {
        if self.left == 0 {
            return Ok(None);
        }
        self.left = self.left.saturating_sub(1);
        self.explored.with_plan(self.alloc, self.context, plan)
    }

    /// Explores the plan with a split or inline calls more as a trial, from the rows found so far. Only what these
    /// distinguish is explored again, so more may be refused than if all were explored. None if a watched address is
    /// refused again.
    pub fn try_near(
        &mut self,
        family: Family,
        wanted_at: u16,
        watched: Watch,
    ) -> Result<Option<Box<ExploredPlan>>, FlowFault> {
        let Some(reaches) = reaches_of(self.alloc, &family)? else {
            return Ok(None);
        };
        let plan = self.explored.plan.with(self.alloc, family, wanted_at)?;
        self.try_reaches(plan, &reaches, watched)
    }

    /// The same for a plan that differs in the splits and inline calls at these reaches.
    ///
    /// # Errors
    ///
    /// `NoMemory` where memory was refused.
    pub fn try_reaches(
        &mut self,
        plan: Plan,
        reaches: &[SplitReach],
        watched: Watch,
    ) -> Result<Option<Box<ExploredPlan>>, FlowFault> {
        if self.left == 0 {
            return Ok(None);
        }
        self.left = self.left.saturating_sub(1);
        self.explored.with_reaches(
            self.alloc,
            self.context,
            plan,
            &self.edges,
            reaches,
            watched,
        )
    }

    /// Whether a family of the plan seems not to be needed: without it, nothing is refused that is not refused now, as
    /// far as only what it distinguishes is explored again.
    pub fn seems_unneeded(&self, place: usize) -> Result<bool, FlowFault> {
        let Some(finding) = self.explored.plan.findings.get(place) else {
            return Ok(true);
        };
        let Some(reaches) = reaches_of(self.alloc, &finding.family)? else {
            return Ok(true);
        };
        let watched = Watch::Callees(finding.wanted_at);
        let plan = self.explored.plan.without(self.alloc, place)?;
        let found = self.explored.with_reaches(
            self.alloc,
            self.context,
            plan,
            &self.edges,
            &reaches,
            watched,
        )?;
        Ok(match found {
            Some(explored) => !self.explored.is_worse(&explored),
            None => false,
        })
    }

    /// Explores the whole plan, if only a part of it was explored. It was tried before, and is no trial. If that
    /// refuses what was not refused before, the splits found since then lose their ends, where that helps.
    pub fn explore_whole(&mut self) -> Result<(), FlowFault> {
        if !self.explored.is_near {
            return Ok(());
        }
        let plan = self.explored.plan.in_order(self.alloc)?;
        let Some(whole) = self.explored.with_plan(self.alloc, self.context, plan)? else {
            self.explored.is_near = false;
            return Ok(());
        };
        if self.refuses_anew(&whole) {
            if let Some(open) = self.opened()? {
                if open.refused.len() < whole.refused.len() && whole.refuses_all_of(&open) {
                    return self.keep(open);
                }
            }
        }
        self.keep(whole)
    }

    /// Whether a plan refuses a place that was not refused when the plan was last explored as a whole.
    fn refuses_anew(&self, explored: &ExploredPlan) -> bool {
        explored
            .refused
            .iter()
            .any(|(number, _)| !self.known.contains(number))
    }

    /// The plan where the splits found since it was last explored as a whole have no ends, explored as a whole; None if
    /// none has one.
    fn opened(&self) -> Result<Option<Box<ExploredPlan>>, FlowFault> {
        let mut plan = self.explored.plan.in_order(self.alloc)?;
        let mut place = 0usize;
        let mut is_other = false;
        for finding in &mut plan.findings {
            if let Family::Split(split) = &mut finding.family {
                if place >= self.settled && split.until != split.at {
                    split.until = split.at;
                    is_other = true;
                }
            }
            place = place.saturating_add(1);
        }
        if !is_other {
            return Ok(None);
        }
        self.explored.with_plan(self.alloc, self.context, plan)
    }

    /// Takes a plan that differs in the bounds of loops alone, as a trial. The result is the plan before; None if no
    /// trial is left.
    ///
    /// # Errors
    ///
    /// `NoMemory` where memory was refused.
    pub fn try_bounds(&mut self, plan: Plan) -> Result<Option<Plan>, FlowFault> {
        if self.left == 0 {
            return Ok(None);
        }
        self.left = self.left.saturating_sub(1);
        let before = self
            .explored
            .exchange_bounds(self.alloc, self.context, plan)?;
        Ok(Some(before))
    }

    /// Goes back to a plan that differs in the bounds of loops alone.
    ///
    /// # Errors
    ///
    /// `NoMemory` where memory was refused.
    pub fn set_bounds(&mut self, plan: Plan) -> Result<(), FlowFault> {
        self.explored
            .exchange_bounds(self.alloc, self.context, plan)?;
        Ok(())
    }

    /// Explores the plan with one more family as a trial.
    ///
    /// # Errors
    ///
    /// `NoMemory` where memory was refused.
    pub fn try_family(
        &mut self,
        family: Family,
        wanted_at: u16,
    ) -> Result<Option<Box<ExploredPlan>>, FlowFault> {
        let plan = self.explored.plan.with(self.alloc, family, wanted_at)?;
        self.try_plan(plan)
    }

    /// The instruction at an address.
    pub fn instr_at(&self, address: u16) -> Option<Instr> {
        match fetch(self.context.rom(), address) {
            Ok((instr, _)) => Some(instr),
            Err(_) => None,
        }
    }

    /// The length of the instruction at an address; 1 where there is none.
    pub fn len_at(&self, address: u16) -> u16 {
        match fetch(self.context.rom(), address) {
            Ok((_, len)) => u16::from(len),
            Err(_) => 1,
        }
    }

    /// The loops of a procedure, those with the fewest addresses first.
    ///
    /// # Errors
    ///
    /// `NoMemory` where memory was refused.
    pub fn loops(&self, proc: u32) -> Result<Vec<NaturalLoop>, FlowFault> {
        loops_of(self.alloc, &self.graph, proc, entry_of(proc))
    }
}

/// The places that a plan refuses.
fn places_refused(alloc: Global, explored: &ExploredPlan) -> Result<BTreeSet<u64>, FlowFault> {
    let mut places = BTreeSet::new(alloc);
    for (number, _) in explored.refused.iter() {
        places.insert(*number)?;
    }
    Ok(places)
}

/// What a split or inline calls distinguish; None for another family.
fn reaches_of(alloc: Global, family: &Family) -> Result<Option<Vec<SplitReach>>, FlowFault> {
    let mut reaches = Vec::new(alloc);
    match family {
        Family::Inlines(calls) => {
            for call in calls.as_slice() {
                reaches.push(SplitReach {
                    at: *call,
                    until: *call,
                    is_longer: false,
                })?;
            }
        }
        Family::Split(split) => reaches.push(SplitReach {
            at: split.at,
            until: split.until,
            is_longer: false,
        })?,
        _ => return Ok(None),
    }
    Ok(Some(reaches))
}

/// The entry of a procedure, by its number.
pub fn entry_of(proc: u32) -> u16 {
    match proc {
        analysis::MAIN => 0,
        analysis::NMI => z80_moves::NMI_ADDRESS,
        _ => proc.saturating_sub(2).min(0xFFFF) as u16,
    }
}
