// Remedies: annotations that were tried, and take a refusal away.

use crate::case::Case;
use crate::facts::{RowNeeds, with_facts};
use crate::loops::for_time;
use crate::moves::helping_on;
use crate::parts::widened_split;
use abs_step::Reason;
use address_map::{Region, Rom};
use analysis::FlowFault;
use annotations::Annotations;
use explanations::{Refusal, Situation, falling_with, unshown_after};
use explored_plans::{ExploredPlan, Family, Search};
use inferred_rows::ContextPoint;
use std::alloc::Global;
use t_states::MAX_BUDGET;
use tried_notes::{
    TrialGoal, added_of, clash, clean_with, merged, only_facts, only_split, with_budget,
    with_region, with_split_instead, without_facts,
};

/// The most trials for one refusal.
const TRIALS: u32 = 40;

/// What takes a refusal away. It was tried.
#[derive(Drop)]
pub enum Remedy {
    /// Notes that are added to the annotations.
    Notes(Annotations),
    /// Another region of the stack.
    Stack(Region),
    /// An NMI routine, with this budget.
    Budget(u16),
    /// The facts of these addresses are left out.
    WithoutFacts(Vec<u16>),
    /// A split in the place of the one at its address.
    Instead(Annotations),
    /// The notes of the remedies before this one.
    Above,
    /// `check --infer` with the same annotations.
    Infer,
    /// None is known.
    Unknown,
    /// Not all was tried: so many analyses are not made in one call.
    Untried,
}

/// What was tried so far.
#[derive(Drop)]
pub struct Remedies {
    /// How many analyses may still be made.
    left: u32,
    /// Whether one more was wanted.
    is_spent: bool,
    /// The facts that the rows of the search need, once they are known.
    needed: Option<RowNeeds>,
    /// The annotations with the notes of all remedies so far, where there are any.
    so_far: Option<Annotations>,
    /// The addresses that are not refused with these, rising.
    clean: Vec<u16>,
    /// Those of the last analysis in which further notes took a refusal away.
    last_clean: Vec<u16>,
}

impl Remedies {
    /// Nothing was tried yet. At most `analyses` are made, beside the trials of the search.
    pub fn new(alloc: Global, analyses: u32) -> Remedies {
        Remedies {
            left: analyses,
            is_spent: false,
            needed: None,
            so_far: None,
            clean: Vec::new(alloc),
            last_clean: Vec::new(alloc),
        }
    }

    /// A remedy against a refusal. It was tried together with the notes of the remedies before it.
    ///
    /// # Errors
    ///
    /// `NoMemory` where memory was refused.
    pub fn find(
        &mut self,
        case: &Case,
        search: &mut Search,
        refusal: &Refusal,
    ) -> Result<Remedy, FlowFault> {
        self.is_spent = false;
        if refusal.row.is_some() && self.clean.binary_search(&refusal.address).is_ok() {
            return Ok(Remedy::Above);
        }
        match self.looked_for(case, search, refusal)? {
            Remedy::Unknown | Remedy::Infer if self.is_spent => Ok(Remedy::Untried),
            Remedy::Notes(notes) => self.kept(case, notes),
            remedy => Ok(remedy),
        }
    }

    /// These notes as a remedy, which the next remedies go together with.
    fn kept(&mut self, case: &Case, notes: Annotations) -> Result<Remedy, FlowFault> {
        self.so_far = Some(merged(case.alloc, self.said_so_far(case), &notes)?);
        self.clean = Vec::from_slice(case.alloc, self.last_clean.as_slice())?;
        Ok(Remedy::Notes(notes))
    }

    /// The annotations with the notes of all remedies so far.
    pub(crate) fn said_so_far<'c>(&'c self, case: &'c Case) -> &'c Annotations {
        match &self.so_far {
            Some(said) => said,
            None => case.said,
        }
    }

    /// Whether an address is refused no more with these notes and those of all remedies so far.
    pub(crate) fn is_gone_by(
        &mut self,
        case: &Case,
        notes: &Annotations,
        address: u16,
    ) -> Result<bool, FlowFault> {
        let before = self.said_so_far(&*case);
        if clash(before, notes) {
            return Ok(false);
        }
        let said = merged(case.alloc, before, notes)?;
        match self.clean_with(case, &said, address)? {
            Some(addresses) => {
                self.last_clean = addresses;
                Ok(true)
            }
            None => Ok(false),
        }
    }

    fn looked_for(
        &mut self,
        case: &Case,
        search: &mut Search,
        refusal: &Refusal,
    ) -> Result<Remedy, FlowFault> {
        match refusal.reason {
            Reason::Region => case.other_region(refusal, None),
            Reason::Entry => case.without_facts_there(refusal),
            Reason::StackDepth => case.deep_enough(refusal),
            Reason::Budget => case.long_enough(),
            Reason::NmiMissing => {
                let said = with_budget(case.alloc, case.said, MAX_BUDGET as u16)?;
                if self.is_gone_with(case, &said, refusal.address)? {
                    Ok(Remedy::Budget(MAX_BUDGET as u16))
                } else {
                    Ok(Remedy::Unknown)
                }
            }
            Reason::Time => for_time(case, search, refusal.address),
            Reason::SpWrite => {
                let found = case.other_top(refusal)?;
                self.if_region_stands(case, refusal, found)
            }
            Reason::StackOverwrite => {
                let found = case.deep_enough(refusal)?;
                match self.if_region_stands(case, refusal, found)? {
                    Remedy::Unknown => self.found(case, search, refusal),
                    remedy => Ok(remedy),
                }
            }
            Reason::NotCovered => match self.otherwise_covered(case, refusal)? {
                Remedy::Unknown => self.found(case, search, refusal),
                remedy => Ok(remedy),
            },
            Reason::WriteRom | Reason::WriteUnmapped if writes_one_address(case, refusal) => {
                Ok(Remedy::Unknown)
            }
            Reason::WriteRom
            | Reason::WriteUnmapped
            | Reason::StackShape
            | Reason::NmiBeforeStack
            | Reason::CellRange
            | Reason::CellUnarmed => self.found(case, search, refusal),
            _ => Ok(Remedy::Unknown),
        }
    }

    /// A remedy that is a region, if the refused row is refused no more with it.
    fn if_region_stands(
        &mut self,
        case: &Case,
        refusal: &Refusal,
        remedy: Remedy,
    ) -> Result<Remedy, FlowFault> {
        let Remedy::Stack(region) = remedy else {
            return Ok(Remedy::Unknown);
        };
        let said = with_region(case.alloc, case.said, region)?;
        if self.is_gone_with(case, &said, refusal.address)? {
            Ok(Remedy::Stack(region))
        } else {
            Ok(Remedy::Unknown)
        }
    }

    /// Whether an address is refused no more with these annotations.
    fn is_gone_with(
        &mut self,
        case: &Case,
        said: &Annotations,
        address: u16,
    ) -> Result<bool, FlowFault> {
        Ok(self.clean_with(case, said, address)?.is_some())
    }

    /// The addresses that are not refused with these annotations, rising; None if this address is refused, or no
    /// analysis is left.
    fn clean_with(
        &mut self,
        case: &Case,
        said: &Annotations,
        address: u16,
    ) -> Result<Option<Vec<u16>>, FlowFault> {
        let Some(rom) = Rom::of(case.bytes) else {
            return Ok(None);
        };
        if self.left == 0 {
            self.is_spent = true;
            return Ok(None);
        }
        self.left = self.left.saturating_sub(1);
        let map = said.board().map(rom.len());
        let asked = TrialGoal {
            address,
            before: self.said_so_far(case).facts(),
            visits: case.visits,
        };
        clean_with(case.alloc, case.bytes, &rom, &map, said, asked)
    }

    /// Other facts or another split where a row leads, if the refusal goes then.
    fn otherwise_covered(&mut self, case: &Case, refusal: &Refusal) -> Result<Remedy, FlowFault> {
        let remedy = self.without_unshown(case, refusal)?;
        if !matches!(&remedy, Remedy::Unknown) {
            return Ok(remedy);
        }
        match self.without_facts_after(case, refusal)? {
            Remedy::Unknown => self.with_parts(case, refusal),
            remedy => Ok(remedy),
        }
    }

    /// The annotations without the facts that do not follow where a row leads, and without those that follow only from
    /// these, if the refusal goes then.
    fn without_unshown(&mut self, case: &Case, refusal: &Refusal) -> Result<Remedy, FlowFault> {
        let gone = unshown_facts(case, refusal)?;
        if gone.is_empty() {
            return Ok(Remedy::Unknown);
        }
        let said = without_facts(case.alloc, case.said, &gone)?;
        if self.is_gone_with(case, &said, refusal.address)? {
            Ok(Remedy::WithoutFacts(gone))
        } else {
            Ok(Remedy::Unknown)
        }
    }

    /// The split to which a row leads with the parts that it lacks, if the refusal goes then.
    fn with_parts(&mut self, case: &Case, refusal: &Refusal) -> Result<Remedy, FlowFault> {
        let Some(number) = refusal.row else {
            return Ok(Remedy::Unknown);
        };
        for (at, range) in case.explored.lacking(case.alloc, number)? {
            let Some(split) = widened_split(case.alloc, case.said, at, range)? else {
                continue;
            };
            let said = with_split_instead(case.alloc, case.said, &split)?;
            if self.is_gone_with(case, &said, refusal.address)? {
                return Ok(Remedy::Instead(only_split(case.alloc, case.said, split)?));
            }
        }
        Ok(Remedy::Unknown)
    }

    /// The annotations without the facts to which a row leads, if the refusal goes then.
    fn without_facts_after(&mut self, case: &Case, refusal: &Refusal) -> Result<Remedy, FlowFault> {
        let Some(number) = refusal.row else {
            return Ok(Remedy::Unknown);
        };
        let explored = case.explored;
        for edge in explored.edges() {
            let to = ContextPoint::of(edge.to).address;
            let has_fact = case.said.facts().iter().any(|note| note.at == to);
            if edge.from != number || !has_fact {
                continue;
            }
            let mut gone = Vec::new(case.alloc);
            gone.push(to)?;
            let said = without_facts(case.alloc, case.said, &gone)?;
            if self.is_gone_with(case, &said, refusal.address)? {
                return Ok(Remedy::WithoutFacts(gone));
            }
        }
        Ok(Remedy::Unknown)
    }

    /// Notes that a search finds for a refused row.
    fn found(
        &mut self,
        case: &Case,
        search: &mut Search,
        refusal: &Refusal,
    ) -> Result<Remedy, FlowFault> {
        if search.explored.rows_at(refusal.address).is_empty() {
            return Ok(Remedy::Unknown);
        }
        if search.explored.refusals_at(refusal.address).0 == 0 {
            return self.with_needed(case, search, refusal);
        }
        match self.moved(search, refusal.address)? {
            Some(other) if has_plain_form(&other) => self.with_move(case, search, refusal, &other),
            Some(_) => Ok(Remedy::Infer),
            None => Ok(Remedy::Unknown),
        }
    }

    /// Facts that the rows of the search need, if they take a refusal away; else only an inferring run has them.
    fn with_needed(
        &mut self,
        case: &Case,
        search: &Search,
        refusal: &Refusal,
    ) -> Result<Remedy, FlowFault> {
        let needed = match self.needed.take() {
            Some(needed) => needed,
            None => RowNeeds::of(case.alloc, search, &search.explored)?,
        };
        let none = only_facts(case.alloc, case.said, Vec::new(case.alloc));
        let remedy = with_facts(self, case, refusal, &none, &search.explored, &needed)?;
        self.needed = Some(needed);
        Ok(or_infer(remedy))
    }

    /// The first move of a search that takes the refusals of an address away.
    fn moved(
        &mut self,
        search: &mut Search,
        address: u16,
    ) -> Result<Option<Box<ExploredPlan>>, FlowFault> {
        let left = search.left;
        search.left = left.min(TRIALS);
        let found = helping_on(search, address)?;
        let taken = left.min(TRIALS).saturating_sub(search.left);
        search.left = left.saturating_sub(taken);
        self.is_spent = search.left == 0;
        Ok(found)
    }

    /// The notes of a move, with facts if these are needed.
    fn with_move(
        &mut self,
        case: &Case,
        search: &Search,
        refusal: &Refusal,
        other: &ExploredPlan,
    ) -> Result<Remedy, FlowFault> {
        let added = added_of(case.alloc, case.said, &other.said)?;
        if clash(self.said_so_far(&*case), &added) {
            return Ok(Remedy::Untried);
        }
        if self.is_gone_by(case, &added, refusal.address)? {
            return Ok(Remedy::Notes(added));
        }
        let needed = RowNeeds::of(case.alloc, search, other)?;
        let remedy = with_facts(self, case, refusal, &added, other, &needed)?;
        Ok(or_infer(remedy))
    }
}

/// The remedy, or an inferring run where it is unknown.
fn or_infer(remedy: Remedy) -> Remedy {
    match remedy {
        Remedy::Unknown => Remedy::Infer,
        remedy => remedy,
    }
}

/// Whether each write of a row goes to one address, which no annotation changes.
fn writes_one_address(case: &Case, refusal: &Refusal) -> bool {
    let Some(row) = refusal.row else {
        return false;
    };
    match Situation::at(case.alloc, case.explored, row) {
        Some(situation) => situation
            .judged
            .writes
            .iter()
            .all(|write| write.at.value().is_some()),
        None => false,
    }
}

/// The addresses of the facts that do not follow where a row leads, and of those that follow only from these, rising.
fn unshown_facts(case: &Case, refusal: &Refusal) -> Result<Vec<u16>, FlowFault> {
    let mut gone: Vec<u16> = Vec::new(case.alloc);
    let Some(number) = refusal.row else {
        return Ok(gone);
    };
    let facts = case.said.facts();
    for first in unshown_after(case.alloc, case.explored.steps(), facts, number)? {
        gone.extend_from_slice(&falling_with(case.alloc, case.explored.steps(), facts, first)?)?;
    }
    gone.sort_unstable();
    gone.dedup();
    Ok(gone)
}

/// Whether plain `check` reads what was found.
pub(crate) fn has_plain_form(explored: &ExploredPlan) -> bool {
    explored
        .plan
        .findings
        .iter()
        .all(|finding| match &finding.family {
            Family::Calls(_) | Family::Turns(_) => false,
            Family::Loop(note) => !note.rises,
            Family::Inlines(_) | Family::Split(_) | Family::Cells(_) => true,
        })
}
