// The facts and flag parts that rows need so that nothing is against them.

use crate::closure::{Claim, Followed, IncomingSteps, closure_of};
use crate::needs::{Needs, guide_by};
use abs_state::AbsState;
use abs_step::Reason;
use analysis::FlowFault;
use board_fetch::fetch;
use cert_fields::Facts;
use cert_lines::Version;
use flag_letters::FlagParts;
use inferred_rows::{ContextPoint, Guide, InferredRow, Manner, pointer_of};
use inferring::found_rows_with;
use loop_bounds::{Linear, Ranges, Variable};
use row_worklist::{Setting, Watch, Worklist};
use std::alloc::Global;

/// How many stages there are.
const STAGES: u32 = 4;

/// How many times facts are added for the rows that are still refused.
const ROUNDS: u32 = 8;

/// The same in version 3, where flag parts are added too, the nearest ones first.
const PARTED_ROUNDS: u32 = 24;

/// An analysis with relations, whose facts are looked for.
#[derive(Drop)]
pub struct FactSearch<'s> {
    pub setting: Setting<'s>,
    /// The rows with their relations.
    pub related: &'s Worklist,
    /// The most visits of rows in an analysis.
    pub visits: u32,
}

/// The facts of rows with which an analysis that keeps no relations refuses no row that the one with relations accepts.
/// They are the facts wanted by refused rows and all from which these follow; where those do not suffice, in version 3
/// the flag parts before refused rows that narrow a state at a condition; then also each relation that says something
/// of what a refused row writes through, and then each that narrows a row where states join. At last come those that
/// narrow the counter of a loop. Some may be missing: the checker judges.
///
/// # Errors
///
/// `Limit` if an analysis takes too many visits; `NoMemory` where memory was refused.
pub fn needed_facts(alloc: Global, search: &FactSearch) -> Result<Guide, FlowFault> {
    let NeededFacts { guide, .. } = facts_and_rows(alloc, search)?;
    Ok(guide)
}

/// The facts of rows that are needed, and what an analysis without relations finds by them.
#[derive(Drop)]
pub struct NeededFacts {
    pub guide: Guide,
    /// The rows, if none of them is refused.
    pub rows: Option<Box<Worklist>>,
}

/// The same as `needed_facts`, with the rows.
///
/// # Errors
///
/// As for `needed_facts`.
pub fn facts_and_rows(alloc: Global, search: &FactSearch) -> Result<NeededFacts, FlowFault> {
    let incoming = IncomingSteps::of(search.related.edges(alloc, search.setting)?);
    let mut guide = search.setting.guide.copied(alloc)?;
    let mut stage = FactFamily::Wanted;
    let rounds = match search.setting.task.version() {
        Version::One | Version::Two => ROUNDS,
        Version::Three => PARTED_ROUNDS,
    };
    for _ in 0..rounds {
        let setting = Setting {
            guide: &guide,
            manner: Manner {
                explores: true,
                relates: false,
            },
            ..search.setting
        };
        let plain = found_rows_with(
            alloc,
            setting,
            search.visits,
            search.related.judged_rows(),
            Watch::Nothing,
        )?;
        let mut found = search.found(alloc, &incoming, &guide, &plain, stage)?;
        for _ in 0..STAGES {
            if !found.is_empty() {
                break;
            }
            if !search.has_refused(&plain) {
                stage = FactFamily::Counting;
                found = search.found(alloc, &incoming, &guide, &plain, stage)?;
                if found.is_empty() {
                    return Ok(NeededFacts {
                        guide,
                        rows: Some(plain),
                    });
                }
                break;
            }
            stage = match stage.next() {
                Some(next) => next,
                None => return Ok(NeededFacts { guide, rows: None }),
            };
            found = search.found(alloc, &incoming, &guide, &plain, stage)?;
        }
        guide_by(&mut guide, &found)?;
        stage = FactFamily::Wanted;
    }
    Ok(NeededFacts { guide, rows: None })
}

/// Which facts are looked for, the most telling first.
#[derive(Clone, Copy, PartialEq, Eq)]
enum FactFamily {
    /// Those with which a refused row is not refused any more.
    Wanted,
    /// In version 3, the flag parts before refused rows that narrow a state at a condition, with their facts.
    Parting,
    /// Those of refused rows that say something of the pair through which they write.
    Pointing,
    /// Those that narrow rows at which states join or are cut.
    Narrowing,
    /// Those that narrow the counters of loops.
    Counting,
}

impl FactFamily {
    fn next(self) -> Option<FactFamily> {
        match self {
            FactFamily::Wanted => Some(FactFamily::Parting),
            FactFamily::Parting => Some(FactFamily::Pointing),
            FactFamily::Pointing => Some(FactFamily::Narrowing),
            FactFamily::Narrowing | FactFamily::Counting => None,
        }
    }
}

impl<'s> FactSearch<'s> {
    /// The number of the row with relations for a row without. It is that of the same class, or else of the first
    /// class: a wide store may seem to enable NMIs, and then the analysis without relations distinguishes more classes.
    pub(crate) fn related_number(&self, number: u64) -> u64 {
        if self.related.row(number).is_some() {
            return number;
        }
        ContextPoint {
            class: 0,
            ..ContextPoint::of(number)
        }
        .number()
    }

    /// Whether a row is refused in the analysis without relations, and not in the one with them.
    fn is_refused(&self, number: u64, row: &InferredRow) -> bool {
        match self.related.row(self.related_number(number)) {
            Some(related) => is_soft(row.reason) && related.reason.is_none(),
            None => false,
        }
    }

    fn has_refused(&self, plain: &Worklist) -> bool {
        plain
            .rows()
            .iter()
            .any(|(_, row)| row.reason.is_some() || row.drops)
    }

    /// The facts of a stage, with all from which these follow.
    fn found(
        &self,
        alloc: Global,
        incoming: &IncomingSteps,
        guide: &Guide,
        plain: &Worklist,
        stage: FactFamily,
    ) -> Result<Needs, FlowFault> {
        match stage {
            FactFamily::Wanted => self.wanted(alloc, incoming, guide, plain),
            FactFamily::Parting => self.parting(alloc, incoming, guide, plain),
            FactFamily::Pointing => self.pointing(alloc, incoming, guide, plain),
            FactFamily::Narrowing => self.narrowing(alloc, incoming, guide, plain),
            FactFamily::Counting => self.counting(alloc, incoming, guide, plain),
        }
    }

    /// The relations of refused rows that say something of the pair through which they write.
    fn pointing(
        &self,
        alloc: Global,
        incoming: &IncomingSteps,
        guide: &Guide,
        plain: &Worklist,
    ) -> Result<Needs, FlowFault> {
        let mut all = Needs::none(alloc);
        let mut table = guide.copied(alloc)?;
        for (number, row) in plain.rows().iter() {
            let place = self.related_number(*number);
            let Some(related) = self.related.row(place) else {
                continue;
            };
            if !self.is_refused(*number, row) {
                continue;
            }
            let Ok((instr, _)) = fetch(self.setting.task.rom(), ContextPoint::of(place).address)
            else {
                continue;
            };
            let Some(pointer) = pointer_of(&instr) else {
                continue;
            };
            for relation in related.relations.as_slice() {
                if !says_of(relation, &pointer) {
                    continue;
                }
                if let Some(closure) = self.closure(alloc, incoming, &table, place, relation)? {
                    all.merge(&closure)?;
                    guide_by(&mut table, &closure)?;
                }
            }
        }
        Ok(all)
    }

    /// The facts that refused rows want, with all from which these follow.
    fn wanted(
        &self,
        alloc: Global,
        incoming: &IncomingSteps,
        guide: &Guide,
        plain: &Worklist,
    ) -> Result<Needs, FlowFault> {
        let mut all = Needs::none(alloc);
        let mut table = guide.copied(alloc)?;
        for (number, row) in plain.rows().iter() {
            if !self.is_refused(*number, row) {
                continue;
            }
            let place = self.related_number(*number);
            if let Some(best) = self.best_for(alloc, incoming, &table, place, row)? {
                all.merge(&best)?;
                guide_by(&mut table, &best)?;
            }
        }
        Ok(all)
    }

    /// The fewest facts with which a refused row is not refused any more.
    fn best_for(
        &self,
        alloc: Global,
        incoming: &IncomingSteps,
        table: &Guide,
        number: u64,
        row: &InferredRow,
    ) -> Result<Option<Needs>, FlowFault> {
        let Some(related) = self.related.row(number) else {
            return Ok(None);
        };
        let mut best: Option<Needs> = None;
        for relation in related.relations.as_slice() {
            let Some(state) = tightened(&row.state, table.facts.get(&number), relation) else {
                continue;
            };
            if is_soft(self.reason_of(alloc, number, &state, &row.parts)?) {
                continue;
            }
            let closure = self.closure(alloc, incoming, table, number, relation)?;
            if let Some(closure) = closure {
                let is_better = match &best {
                    Some(best) => closure.len() < best.len(),
                    None => true,
                };
                if is_better {
                    best = Some(closure);
                }
            }
        }
        Ok(best)
    }

    /// Where claims are followed.
    pub(crate) fn followed<'i>(&self, incoming: &'i IncomingSteps) -> Followed<'s, 'i> {
        Followed {
            setting: self.setting,
            related: self.related,
            incoming,
        }
    }

    /// A relation of a row with all facts from which it follows.
    fn closure(
        &self,
        alloc: Global,
        incoming: &IncomingSteps,
        table: &Guide,
        number: u64,
        relation: &Linear,
    ) -> Result<Option<Needs>, FlowFault> {
        let claim = Claim::Fact(*relation);
        closure_of(alloc, self.followed(incoming), table, number, claim)
    }

    /// The relations that narrow the counters of loops in timed procedures, with all from which these follow.
    fn counting(
        &self,
        alloc: Global,
        incoming: &IncomingSteps,
        guide: &Guide,
        plain: &Worklist,
    ) -> Result<Needs, FlowFault> {
        let mut all = Needs::none(alloc);
        let mut table = guide.copied(alloc)?;
        for (number, row) in plain.rows().iter() {
            let point = ContextPoint::of(*number);
            let Some(counter) = self.counter_at(point) else {
                continue;
            };
            let place = self.related_number(*number);
            let Some(related) = self.related.row(place) else {
                continue;
            };
            for relation in related.relations.as_slice() {
                let facts = table.facts.get(&place);
                let Some(left) = tightened(&row.state, facts, relation) else {
                    continue;
                };
                let is_narrower = left.range(counter) != row.state.range(counter);
                if !says_of(relation, &counter) || !is_narrower {
                    continue;
                }
                if let Some(closure) = self.closure(alloc, incoming, &table, place, relation)? {
                    all.merge(&closure)?;
                    guide_by(&mut table, &closure)?;
                }
            }
        }
        self.add_counting_parts(alloc, incoming, &mut table, plain, &mut all)?;
        Ok(all)
    }

    /// The counter of the loop at an address of a timed procedure, if it is a register or a pair.
    fn counter_at(&self, point: ContextPoint) -> Option<Variable> {
        if !self.related.is_timed(point.proc) {
            return None;
        }
        let loops = self.setting.task.said().loops();
        let note = loops.iter().find(|note| note.at == point.address)?;
        match note.counter {
            Variable::Slot(_, _) => None,
            counter => Some(counter),
        }
    }

    /// The lowest reason against a state with flag parts at a place.
    fn reason_of(
        &self,
        alloc: Global,
        number: u64,
        state: &AbsState,
        parts: &FlagParts,
    ) -> Result<Option<Reason>, FlowFault> {
        let place = ContextPoint::of(number).plain();
        let judged = self
            .related
            .judged_at(alloc, self.setting.task, place, state, parts)?;
        Ok(judged.as_ref().reason)
    }

    /// The relations that narrow rows at which states join, or at which a split cuts them, with all from which these
    /// follow.
    fn narrowing(
        &self,
        alloc: Global,
        incoming: &IncomingSteps,
        guide: &Guide,
        plain: &Worklist,
    ) -> Result<Needs, FlowFault> {
        let mut all = Needs::none(alloc);
        let mut table = guide.copied(alloc)?;
        for (number, row) in plain.rows().iter() {
            let place = self.related_number(*number);
            let is_cut = self
                .setting
                .task
                .split_at(ContextPoint::of(place).address)
                .is_some();
            if incoming.to(place).len() < 2 && !is_cut {
                continue;
            }
            let Some(related) = self.related.row(place) else {
                continue;
            };
            let mut state = row.state.copied();
            for relation in related.relations.as_slice() {
                let facts = table.facts.get(&place);
                let Some(left) = tightened(&state, facts, relation) else {
                    continue;
                };
                if !narrows(&state, &left, relation) {
                    continue;
                }
                let closure = self.closure(alloc, incoming, &table, place, relation)?;
                if let Some(closure) = closure {
                    all.merge(&closure)?;
                    guide_by(&mut table, &closure)?;
                    state = left;
                }
            }
        }
        Ok(all)
    }
}

/// Whether a reason is one that a fact may take away: 6, 7, 8, 15, 16, 21 or 22.
fn is_soft(reason: Option<Reason>) -> bool {
    match reason {
        Some(reason) => matches!(reason.number(), 6 | 7 | 8 | 15 | 16 | 21 | 22),
        None => false,
    }
}

/// A state tightened by facts and a further one; None if nothing is left.
fn tightened(state: &AbsState, facts: Option<&Facts>, relation: &Linear) -> Option<AbsState> {
    let mut left = state.copied();
    if let Some(facts) = facts {
        for fact in facts.as_slice() {
            if !left.tighten(fact) {
                return None;
            }
        }
    }
    if left.tighten(relation) {
        Some(left)
    } else {
        None
    }
}

/// Whether a linear has a pair or one of its halves.
pub(crate) fn says_of(linear: &Linear, pair: &Variable) -> bool {
    linear.terms().iter().any(|term| term.variable == *pair || is_half(&term.variable, pair))
}

/// Whether a variable is a half of a pair.
fn is_half(variable: &Variable, pair: &Variable) -> bool {
    match pair {
        Variable::Bc => matches!(variable, Variable::B | Variable::C),
        Variable::De => matches!(variable, Variable::D | Variable::E),
        Variable::Hl => matches!(variable, Variable::H | Variable::L),
        _ => false,
    }
}

/// Whether a variable of a linear has a smaller range in the second state.
fn narrows(before: &AbsState, after: &AbsState, linear: &Linear) -> bool {
    linear.terms().iter().any(|term| before.range(term.variable) != after.range(term.variable))
}
