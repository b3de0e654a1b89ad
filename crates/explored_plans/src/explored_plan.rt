// An explored plan: its rows, and what is refused.

use crate::search_context::SearchContext;
use abs_state::AbsState;
use analysis::{FlowFault, Task};
use annotations::Annotations;
use flag_letters::FlagParts;
use inferred_rows::{ContextPoint, Guide, InferredRow, Manner};
use inferring::{SplitReach, found_rows_with, resumed};
use judged_rows::JudgedRows;
use plans::Plan;
use row_worklist::{RowEdge, Setting, Watch, Worklist};
use std::alloc::Global;
use std::collections::BTreeMap;
use std::mem::replace;

/// Why rows at an address of a procedure are refused: a bit for each reason by its number, and bit 0 where a state that
/// leaves them is in no part of a split, or in no row.
#[derive(Clone, Copy, PartialEq, Eq)]
pub struct Refusals(pub u32);

/// The reasons that a smaller range may take away.
pub const OF_RANGES: [u8; 7] = [6, 7, 8, 15, 16, 21, 22];

/// The reasons that a context may take away: those of ranges, and where a row leads.
pub const OF_CONTEXTS: [u8; 9] = [6, 7, 8, 10, 12, 15, 16, 21, 22];

/// The bit of a reason's number, or 0 for `drops`.
fn bit(number: u8) -> u32 {
    1u32.checked_shl(u32::from(number)).unwrap_or(0)
}

impl Refusals {
    /// Whether the reason with this number is among them; 0 is where a state is in no part of a split, or in no row.
    pub fn has(self, number: u8) -> bool {
        self.0 & bit(number) != 0
    }

    /// Whether one of these reasons is among them.
    pub fn has_any(self, numbers: &[u8]) -> bool {
        numbers.iter().any(|number| self.has(*number))
    }
}

/// An explored plan: what it says, its rows, and what is refused.
#[derive(Drop)]
pub struct ExploredPlan {
    pub plan: Plan,
    pub said: Annotations,
    pub guide: Guide,
    pub list: Box<Worklist>,
    /// Why rows are refused, by procedure and address.
    pub refused: BTreeMap<u64, Refusals>,
    /// The rows at each address, by address and then by number.
    pub places: Vec<(u16, u64)>,
    /// Whether only a part of the plan was explored: some rows may have more than the plan gives them.
    pub is_near: bool,
}

/// The number of an address of a procedure.
pub fn spot(proc: u32, address: u16) -> u64 {
    ContextPoint::at(proc, address).number()
}

/// The procedure and the address of a spot.
pub fn of_spot(number: u64) -> (u32, u16) {
    let point = ContextPoint::of(number);
    (point.proc, point.address)
}

impl ExploredPlan {
    /// Explores a plan; None if its analysis takes too many rows or visits.
    ///
    /// # Errors
    ///
    /// `NoMemory` where memory was refused.
    pub fn of(
        alloc: Global,
        context: &SearchContext,
        plan: Plan,
    ) -> Result<Option<Box<ExploredPlan>>, FlowFault> {
        ExploredPlan::with_rows(
            alloc,
            context,
            plan,
            &JudgedRows::none(alloc)?,
            Watch::Nothing,
        )
    }

    /// Explores another plan on the same ground; None if its analysis takes too many rows or visits.
    ///
    /// # Errors
    ///
    /// `NoMemory` where memory was refused.
    pub fn with_plan(
        &self,
        alloc: Global,
        context: &SearchContext,
        plan: Plan,
    ) -> Result<Option<Box<ExploredPlan>>, FlowFault> {
        ExploredPlan::with_rows(
            alloc,
            context,
            plan,
            self.list.judged_rows(),
            Watch::Nothing,
        )
    }

    /// Explores the plan without the family at a place. None if its analysis takes too many rows or visits, or what the
    /// family was found for is refused again.
    ///
    /// # Errors
    ///
    /// `NoMemory` where memory was refused.
    pub fn without(
        &self,
        alloc: Global,
        context: &SearchContext,
        place: usize,
    ) -> Result<Option<Box<ExploredPlan>>, FlowFault> {
        let watched = match self.plan.findings.get(place) {
            Some(finding) => Watch::Address(finding.wanted_at),
            None => Watch::Nothing,
        };
        let plan = self.plan.without(alloc, place)?;
        ExploredPlan::with_rows(alloc, context, plan, self.list.judged_rows(), watched)
    }

    /// Takes another plan that differs in the bounds of loops alone, and so has the same rows. The result is the plan
    /// before.
    ///
    /// # Errors
    ///
    /// `NoMemory` where memory was refused.
    pub fn exchange_bounds(
        &mut self,
        alloc: Global,
        context: &SearchContext,
        plan: Plan,
    ) -> Result<Plan, FlowFault> {
        self.said = plan.annotations(alloc, context.base())?;
        Ok(replace(&mut self.plan, plan))
    }

    /// Explores another plan from the rows of this one, between which these are the steps. The plans differ in the
    /// splits and inline calls at these reaches. Only what these distinguish is explored again, so more may be refused
    /// than if all were explored. None if the analysis takes too many rows or visits, or the watched address is refused
    /// before the fixpoint is reached.
    ///
    /// # Errors
    ///
    /// `NoMemory` where memory was refused.
    pub fn with_reaches(
        &self,
        alloc: Global,
        context: &SearchContext,
        plan: Plan,
        edges: &[RowEdge],
        reaches: &[SplitReach],
        watched: Watch,
    ) -> Result<Option<Box<ExploredPlan>>, FlowFault> {
        let said = plan.annotations(alloc, context.base())?;
        let guide = plan.guide(alloc, context.base())?;
        let Some(task) = context.task(&said) else {
            return Ok(None);
        };
        let setting = exploring(&task, &guide);
        let found = resumed(
            alloc,
            setting,
            context.visits(),
            &self.list,
            edges,
            reaches,
            watched,
        );
        let list = match found {
            Ok(list) => list,
            Err(FlowFault::Limit) => return Ok(None),
            Err(FlowFault::NoMemory) => return Err(FlowFault::NoMemory),
        };
        let mut explored = explored_of(alloc, plan, said, guide, list)?;
        explored.is_near = true;
        Ok(Some(explored))
    }

    /// Explores a plan, with the judged rows of others.
    fn with_rows(
        alloc: Global,
        context: &SearchContext,
        plan: Plan,
        judged: &JudgedRows,
        watched: Watch,
    ) -> Result<Option<Box<ExploredPlan>>, FlowFault> {
        let said = plan.annotations(alloc, context.base())?;
        let guide = plan.guide(alloc, context.base())?;
        let Some(task) = context.task(&said) else {
            return Ok(None);
        };
        let setting = exploring(&task, &guide);
        let found = found_rows_with(alloc, setting, context.visits(), judged, watched);
        let list = match found {
            Ok(list) => list,
            Err(FlowFault::Limit) => return Ok(None),
            Err(FlowFault::NoMemory) => return Err(FlowFault::NoMemory),
        };
        Ok(Some(explored_of(alloc, plan, said, guide, list)?))
    }

    /// The numbers of the rows at an address.
    pub fn rows_at(&self, address: u16) -> &[(u16, u64)] {
        let first = self.places.partition_point(|(at, _)| *at < address);
        let behind = self.places.partition_point(|(at, _)| *at <= address);
        match self.places.get(first..behind) {
            Some(places) => places,
            None => &[],
        }
    }

    /// The rows at an address, of a procedure or of all.
    ///
    /// # Errors
    ///
    /// `NoMemory` where memory was refused.
    pub fn rows_of(
        &self,
        alloc: Global,
        proc: Option<u32>,
        address: u16,
    ) -> Result<Vec<&InferredRow>, FlowFault> {
        let mut rows = Vec::new(alloc);
        for (_, number) in self.rows_at(address) {
            let is_of = match proc {
                Some(proc) => ContextPoint::of(*number).proc == proc,
                None => true,
            };
            if is_of {
                if let Some(row) = self.list.row(*number) {
                    rows.push(row)?;
                }
            }
        }
        Ok(rows)
    }

    /// The procedures with rows at an address, rising.
    ///
    /// # Errors
    ///
    /// `NoMemory` where memory was refused.
    pub fn procs_at(&self, alloc: Global, address: u16) -> Result<Vec<u32>, FlowFault> {
        let mut procs = Vec::new(alloc);
        for (_, number) in self.rows_at(address) {
            procs.push(ContextPoint::of(*number).proc)?;
        }
        procs.sort_unstable();
        procs.dedup();
        Ok(procs)
    }

    /// The steps between the rows.
    ///
    /// # Errors
    ///
    /// `NoMemory` where memory was refused.
    pub fn edges(&self, alloc: Global, context: &SearchContext) -> Result<Vec<RowEdge>, FlowFault> {
        match context.task(&self.said) {
            Some(task) => self.list.edges(alloc, exploring(&task, &self.guide)),
            None => Ok(Vec::new(alloc)),
        }
    }

    /// Why rows at an address are refused, of any procedure.
    pub fn refusals_at(&self, address: u16) -> Refusals {
        let mut all = Refusals(0);
        for (_, number) in self.rows_at(address) {
            let point = ContextPoint::of(*number);
            if let Some(refusals) = self.refused.get(&spot(point.proc, address)) {
                all = Refusals(all.0 | refusals.0);
            }
        }
        all
    }

    /// Whether some row of a procedure is refused at an address.
    pub fn refuses_at(&self, proc: u32, address: u16) -> bool {
        self.refused.contains_key(&spot(proc, address))
    }

    /// Whether nothing is refused.
    pub fn is_clean(&self) -> bool {
        self.refused.is_empty()
    }

    /// The refused addresses, rising.
    pub fn refused_addresses(&self, alloc: Global) -> Result<Vec<u16>, FlowFault> {
        let mut addresses = Vec::new(alloc);
        for (number, _) in self.refused.iter() {
            addresses.push(of_spot(*number).1)?;
        }
        addresses.sort_unstable();
        addresses.dedup();
        Ok(addresses)
    }

    /// Whether the address of a procedure has a row.
    fn has_spot(&self, number: u64) -> bool {
        let (proc, address) = of_spot(number);
        let last = ContextPoint::last_at(proc, address);
        self.list
            .rows()
            .range(ContextPoint::first_at(proc, address)..=last)
            .next()
            .is_some()
    }

    /// Whether another plan's rows are refused where these have none refused.
    pub fn is_worse(&self, other: &ExploredPlan) -> bool {
        for (number, refusals) in other.refused.iter() {
            if !self.has_spot(*number) {
                continue;
            }
            match self.refused.get(number) {
                None => return true,
                Some(before) => {
                    if refusals.has(0) && !before.has(0) {
                        return true;
                    }
                }
            }
        }
        false
    }

    /// Whether each place that another plan refuses is refused here too.
    pub fn refuses_all_of(&self, other: &ExploredPlan) -> bool {
        other
            .refused
            .iter()
            .all(|(number, _)| self.refused.contains_key(number))
    }

    /// Whether another plan has rows at an address, and takes the refusals there away.
    pub fn is_cleared_by(&self, other: &ExploredPlan, address: u16) -> bool {
        if other.rows_at(address).is_empty() {
            return false;
        }
        for (number, _) in self.refused.iter() {
            if of_spot(*number).1 == address && other.refused.contains_key(number) {
                return false;
            }
        }
        true
    }

    /// Whether the rows at an address lead nowhere, or not with all of their states.
    pub fn leads_nowhere(&self, address: u16) -> bool {
        self.refusals_at(address).has_any(&[0, 10, 12])
    }

    /// Whether another plan takes the refusals of an address away, and is no worse elsewhere. Where more code is
    /// reached, more may be refused there.
    pub fn is_bettered_by(&self, other: &ExploredPlan, address: u16) -> bool {
        if !self.is_cleared_by(other, address) {
            return false;
        }
        if self.leads_nowhere(address) && other.count_of_spots() > self.count_of_spots() {
            return !self.drops_more(other);
        }
        !self.is_worse(other)
    }

    /// Whether another plan drops states at places where this one drops none.
    fn drops_more(&self, other: &ExploredPlan) -> bool {
        for (number, refusals) in other.refused.iter() {
            let before = match self.refused.get(number) {
                Some(before) => before.has(0),
                None => false,
            };
            if self.has_spot(*number) && refusals.has(0) && !before {
                return true;
            }
        }
        false
    }

    /// How many addresses of procedures have rows.
    fn count_of_spots(&self) -> usize {
        let mut count = 0usize;
        let mut last = None;
        for (number, _) in self.list.rows().iter() {
            let point = ContextPoint::of(*number);
            let here = Some((point.proc, point.address));
            if here != last {
                count = count.saturating_add(1);
            }
            last = here;
        }
        count
    }

    /// Whether a reason is against a state with flag parts in place of a row.
    ///
    /// # Errors
    ///
    /// `NoMemory` where memory was refused.
    pub fn refuses(
        &self,
        alloc: Global,
        context: &SearchContext,
        proc: u32,
        address: u16,
        state: &AbsState,
        parts: &FlagParts,
    ) -> Result<bool, FlowFault> {
        let Some(task) = context.task(&self.said) else {
            return Ok(true);
        };
        let place = ContextPoint::at(proc, address).plain();
        let judged = self.list.judged_at(alloc, &task, place, state, parts)?;
        Ok(judged.as_ref().reason.is_some())
    }
}

/// An exploring analysis that keeps relations.
pub fn exploring<'s>(task: &'s Task<'s>, guide: &'s Guide) -> Setting<'s> {
    Setting {
        task,
        guide,
        manner: Manner {
            explores: true,
            relates: true,
        },
    }
}

/// An explored plan with these rows.
fn explored_of(
    alloc: Global,
    plan: Plan,
    said: Annotations,
    guide: Guide,
    list: Box<Worklist>,
) -> Result<Box<ExploredPlan>, FlowFault> {
    let refused = refusals_of(alloc, &list)?;
    let mut places = Vec::new(alloc);
    for (number, _) in list.rows().iter() {
        places.push((ContextPoint::of(*number).address, *number))?;
    }
    places.sort_unstable();
    let explored = ExploredPlan {
        plan,
        said,
        guide,
        list,
        refused,
        places,
        is_near: false,
    };
    Ok(Box::new(alloc, explored)?)
}

/// Why rows are refused, by procedure and address.
fn refusals_of(alloc: Global, list: &Worklist) -> Result<BTreeMap<u64, Refusals>, FlowFault> {
    let mut refused: BTreeMap<u64, Refusals> = BTreeMap::new(alloc);
    for (number, row) in list.rows().iter() {
        let mut bits = if row.drops { bit(0) } else { 0 };
        if let Some(reason) = row.reason {
            bits |= bit(reason.number());
        }
        if bits != 0 {
            let point = ContextPoint::of(*number);
            let here = spot(point.proc, point.address);
            let before = match refused.get(&here) {
                Some(before) => before.0,
                None => 0,
            };
            refused.insert(here, Refusals(before | bits))?;
        }
    }
    Ok(refused)
}
