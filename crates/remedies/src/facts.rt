// Facts as remedies: as few as take a refusal away.

use crate::case::Case;
use crate::looking::{Remedies, Remedy};
use analysis::{FlowFault, MAIN};
use annotations::{Annotations, FactNote};
use explanations::{Refusal, RowSteps, unshown_rows};
use explored_plans::{ExploredPlan, Search, exploring};
use fact_closure::{FactSearch, needed_facts};
use inferred_rows::{ContextPoint, Guide};
use row_graph::NaturalLoop;
use row_worklist::RowEdge;
use std::alloc::Global;
use tried_notes::{has_fact, merged, only_facts};

/// The most facts of an address.
const FACTS: usize = 4;

/// A remedy with more facts than this is given whole: no fact is tried alone.
const FEW: usize = 8;

/// How many choices of facts there are.
const CHOICES: u8 = 4;

/// The facts that rows of an analysis need.
#[derive(Drop)]
pub(crate) struct RowNeeds {
    /// The facts by rising address, each once.
    facts: Vec<FactNote>,
    /// The steps between the rows.
    edges: Vec<RowEdge>,
}

impl RowNeeds {
    /// The facts that rows of an explored plan need.
    pub(crate) fn of(
        alloc: Global,
        search: &Search,
        explored: &ExploredPlan,
    ) -> Result<RowNeeds, FlowFault> {
        Ok(RowNeeds {
            facts: facts_of(alloc, search, explored)?,
            edges: explored.edges(alloc, search.context)?,
        })
    }

    /// Whether some facts follow from each other and from given ones, where an inferring run knows the ranges: else
    /// they do not follow in an analysis either.
    fn are_closed(
        &self,
        alloc: Global,
        explored: &ExploredPlan,
        given: &[FactNote],
        chosen: &[FactNote],
    ) -> Result<bool, FlowFault> {
        let mut all = Vec::from_slice(alloc, given)?;
        all.extend_from_slice(chosen)?;
        all.sort_by_key(|note| note.at)?;
        let steps = RowSteps {
            list: &explored.list,
            edges: self.edges.as_slice(),
        };
        Ok(unshown_rows(alloc, steps, &all, chosen)?.is_empty())
    }
}

/// What facts are tried for: a refusal, the notes that go with the facts, and an explored plan that needs the facts.
#[derive(Clone, Copy)]
struct Wanted<'w> {
    case: &'w Case<'w>,
    address: u16,
    notes: &'w Annotations,
    explored: &'w ExploredPlan,
    needed: &'w RowNeeds,
}

impl<'w> Wanted<'w> {
    /// Notes and these facts together, if the address is refused no more with them.
    fn if_helpful(
        &self,
        remedies: &mut Remedies,
        facts: &[FactNote],
    ) -> Result<Option<Annotations>, FlowFault> {
        let case = self.case;
        let given = remedies.said_so_far(case).facts();
        let are_closed = self
            .needed
            .are_closed(case.alloc, self.explored, given, facts)?;
        if !are_closed {
            return Ok(None);
        }
        let own = only_facts(case.alloc, case.said, Vec::from_slice(case.alloc, facts)?);
        let added = merged(case.alloc, self.notes, &own)?;
        let is_gone = remedies.is_gone_by(case, &added, self.address)?;
        Ok(is_gone.then_some(added))
    }

    /// The same without facts that are not needed: without all those over the same variables, and where the facts are
    /// few also without each.
    fn lessened(
        &self,
        remedies: &mut Remedies,
        facts: Vec<FactNote>,
        added: Annotations,
    ) -> Result<Annotations, FlowFault> {
        let alloc = self.case.alloc;
        let mut facts = facts;
        let mut added = added;
        for kind in first_of_kinds(alloc, &facts)? {
            let fewer = without_kind(alloc, &facts, &kind)?;
            if fewer.is_empty() {
                continue;
            }
            if let Some(less) = self.if_helpful(remedies, &fewer)? {
                facts = fewer;
                added = less;
            }
        }
        if facts.len() > FEW {
            return Ok(added);
        }
        for place in (0..facts.len()).rev() {
            let fewer = without_place(alloc, &facts, place)?;
            if let Some(less) = self.if_helpful(remedies, &fewer)? {
                facts = fewer;
                added = less;
            }
        }
        Ok(added)
    }
}

/// Notes and as few of the needed facts as take a refusal away: those of the address, of the loop around it, of the
/// procedure, or all. `explored` is the plan that needs them.
pub(crate) fn with_facts(
    remedies: &mut Remedies,
    case: &Case,
    refusal: &Refusal,
    notes: &Annotations,
    explored: &ExploredPlan,
    needed: &RowNeeds,
) -> Result<Remedy, FlowFault> {
    let wanted = Wanted {
        case,
        address: refusal.address,
        notes,
        explored,
        needed,
    };
    let proc = match refusal.row {
        Some(number) => ContextPoint::of(number).proc,
        None => MAIN,
    };
    let around = case
        .explored
        .loop_around(case.alloc, proc, refusal.address)?;
    let mut tried = 0usize;
    for choice in 0..CHOICES {
        let given = remedies.said_so_far(case).facts();
        let chosen = chosen_facts(&wanted, given, proc, around.as_ref(), choice)?;
        // Each choice has all facts of those before it.
        if chosen.len() == tried {
            continue;
        }
        tried = chosen.len();
        if let Some(added) = wanted.if_helpful(remedies, &chosen)? {
            return Ok(Remedy::Notes(wanted.lessened(remedies, chosen, added)?));
        }
    }
    Ok(Remedy::Unknown)
}

/// The needed facts of a choice that are not given, four at most of each address: those of the address, of the loop
/// around it, of the procedure, or all.
fn chosen_facts(
    wanted: &Wanted,
    given: &[FactNote],
    proc: u32,
    around: Option<&NaturalLoop>,
    choice: u8,
) -> Result<Vec<FactNote>, FlowFault> {
    let case = wanted.case;
    let mut chosen: Vec<FactNote> = Vec::new(case.alloc);
    for fact in wanted.needed.facts.as_slice() {
        let is_near = match choice {
            0 => fact.at == wanted.address,
            1 => match around {
                Some(found) => found.contains(fact.at),
                None => false,
            },
            2 => !case.explored.rows_at(case.alloc, proc, fact.at)?.is_empty(),
            _ => true,
        };
        let count = chosen.iter().filter(|other| other.at == fact.at).count();
        if is_near && count < FACTS && !has_fact(given, fact) {
            chosen.push(*fact)?;
        }
    }
    Ok(chosen)
}

/// Facts without those of a kind.
fn without_kind(
    alloc: Global,
    facts: &[FactNote],
    kind: &FactNote,
) -> Result<Vec<FactNote>, FlowFault> {
    let mut fewer: Vec<FactNote> = Vec::new(alloc);
    for fact in facts {
        if !is_of_kind(fact, kind) {
            fewer.push(*fact)?;
        }
    }
    Ok(fewer)
}

/// Facts without the one at a place.
fn without_place(
    alloc: Global,
    facts: &[FactNote],
    place: usize,
) -> Result<Vec<FactNote>, FlowFault> {
    let mut fewer: Vec<FactNote> = Vec::new(alloc);
    for (at, fact) in facts.iter().enumerate() {
        if at != place {
            fewer.push(*fact)?;
        }
    }
    Ok(fewer)
}

/// Whether two facts are over the same variables, with the same coefficients.
fn is_of_kind(one: &FactNote, other: &FactNote) -> bool {
    one.fact.terms() == other.fact.terms()
}

/// Of the facts of each kind the first.
fn first_of_kinds(alloc: Global, facts: &[FactNote]) -> Result<Vec<FactNote>, FlowFault> {
    let mut kinds: Vec<FactNote> = Vec::new(alloc);
    for fact in facts {
        let is_new = kinds.iter().all(|other| !is_of_kind(fact, other));
        if is_new && kinds.len() < FEW {
            kinds.push(*fact)?;
        }
    }
    Ok(kinds)
}

/// The facts that rows of an analysis need, by rising address, each once.
fn facts_of(
    alloc: Global,
    search: &Search,
    explored: &ExploredPlan,
) -> Result<Vec<FactNote>, FlowFault> {
    let mut facts: Vec<FactNote> = Vec::new(alloc);
    let Some(task) = search.context.task(&explored.said) else {
        return Ok(facts);
    };
    let wanted = FactSearch {
        setting: exploring(&task, &explored.guide),
        related: &explored.list,
        visits: search.context.visits(),
    };
    let guide: Guide = needed_facts(alloc, &wanted)?;
    for (number, own) in guide.facts.iter() {
        let at = ContextPoint::of(*number).address;
        for fact in own.as_slice() {
            if !facts.iter().any(|note| note.at == at && note.fact == *fact) {
                facts.push(FactNote {
                    at,
                    fact: *fact,
                    part: None,
                })?;
            }
        }
    }
    facts.sort_by_key(|note| note.at)?;
    Ok(facts)
}
