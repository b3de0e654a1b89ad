// A row as an inferring analysis knows it.

use crate::growing::Growth;
use crate::held::hold;
use crate::thresholds::Thresholds;
use abs_state::{AbsState, Mode};
use abs_step::Reason;
use affine::Space;
use analysis::{FlowFault, joined, widest};
use annotations::{FactNote, RangeNote};
use cert_fields::stays_within;
use derived_parts::common_parts;
use flag_letters::FlagParts;
use loop_bounds::{Linear, Ranges, Term, Variable};
use std::alloc::Global;
use std::mem::swap;

/// After how many changes of a row its relations no longer tighten it.
const TIGHTENED: u16 = 300;

/// After how many changes of a row its ranges become full.
const CHANGES: u16 = 2_000;

/// The number of no row.
pub const NO_ROW: u64 = u64::MAX;

/// What a state that comes to a row says of the flags there.
#[derive(Drop)]
pub struct ArrivingParts {
    pub parts: FlagParts,
    /// The row from which the state comes; `NO_ROW` at an entry.
    pub from: u64,
}

impl ArrivingParts {
    /// Nothing is known of the flags, wherever the state comes from.
    pub fn none() -> ArrivingParts {
        ArrivingParts {
            parts: FlagParts::empty(),
            from: NO_ROW,
        }
    }
}

/// A row as an inferring analysis knows it.
#[derive(Drop)]
pub struct InferredRow {
    pub state: AbsState,
    /// What is known of its variables together.
    pub space: Space,
    /// The equalities of two or three variables that hold there. They name only slots that the row has.
    pub relations: Vec<Linear>,
    /// What is known of the flags there; nothing before version 3.
    pub parts: FlagParts,
    /// The row from which all states came so far that told of the flags; `NO_ROW` if there are several, or none.
    teller: u64,
    /// The lowest reason that is against the row.
    pub reason: Option<Reason>,
    /// Whether a state to which the row leads is in no part of a split, or in no row.
    pub drops: bool,
    /// The most bytes of slots on the stack at the row and its successors, 0 to 128; the return address is not counted.
    pub bytes: u16,
    /// The pair through which its instruction writes.
    pointer: Option<Variable>,
    growth: Growth,
    changes: u16,
}

/// What tightens a row, and how it grows.
#[derive(Drop)]
pub struct Tightening<'t> {
    /// The annotated facts of its address.
    pub said: &'t [FactNote],
    /// The ranges of its address, which no widening leaves.
    pub ranges: &'t [RangeNote],
    /// The part of a split that its states belong to, counted from 1; 0 for none.
    pub part: u16,
    /// The facts of the row itself.
    pub found: &'t [Linear],
    /// Whether its relations tighten it.
    pub relates: bool,
    /// Whether it may have a flag fact: before version 3, where it has no flag parts.
    pub has_flag_facts: bool,
    pub thresholds: &'t Thresholds,
    /// How many kept cells there are.
    pub cells: usize,
}

/// What became of a state that came to a row.
#[derive(Clone, Copy, PartialEq, Eq)]
pub enum JoinOutcome {
    /// The row has it, and had it before.
    Same,
    /// The row has it now.
    Changed,
    /// The row cannot have it: the shapes have two lengths, or the modes or the armed cells differ.
    Unjoined,
}

impl InferredRow {
    /// The row of the first state that comes, of an instruction that writes through `pointer`.
    ///
    /// # Errors
    ///
    /// `NoMemory` where memory was refused.
    pub fn first(
        alloc: Global,
        state: &AbsState,
        space: &Space,
        told: &ArrivingParts,
        pointer: Option<Variable>,
        by: &Tightening,
    ) -> Result<InferredRow, FlowFault> {
        let mut row = InferredRow {
            state: state.copied(),
            space: *space,
            relations: Vec::new(alloc),
            parts: told.parts.copied(),
            teller: told.from,
            reason: None,
            drops: false,
            bytes: 0,
            pointer,
            growth: Growth::none(),
            changes: 0,
        };
        if !by.has_flag_facts {
            row.state.flag = None;
        }
        if by.relates {
            row.relate()?;
        }
        row.tighten_itself(by);
        Ok(row)
    }

    /// A copy.
    ///
    /// # Errors
    ///
    /// `NoMemory` where memory was refused.
    pub fn copied(&self, alloc: Global) -> Result<InferredRow, FlowFault> {
        Ok(InferredRow {
            state: self.state.copied(),
            space: self.space,
            relations: Vec::from_slice(alloc, self.relations.as_slice())?,
            parts: self.parts.copied(),
            teller: self.teller,
            reason: self.reason,
            drops: self.drops,
            bytes: self.bytes,
            pointer: self.pointer,
            growth: self.growth,
            changes: self.changes,
        })
    }

    /// Finds the relations of the row.
    fn relate(&mut self) -> Result<(), FlowFault> {
        let slots = self.state.shape.len();
        self.relations.clear();
        for relation in self.space.relations().as_slice() {
            if stays_within(relation, slots) {
                self.relations.push(*relation)?;
            }
        }
        if let Some(pointer) = self.pointer {
            for relation in self.space.triples(pointer).as_slice() {
                if stays_within(relation, slots) {
                    self.relations.push(*relation)?;
                }
            }
        }
        Ok(())
    }

    /// Tightens a state by the row's facts and relations; those that leave nothing are passed over.
    fn tighten(&self, state: &mut AbsState, by: &Tightening) {
        for note in by.said {
            if speaks_of(note, by.part) {
                tighten_by(state, &note.fact);
            }
        }
        for fact in by.found {
            tighten_by(state, fact);
        }
        if by.relates && self.changes < TIGHTENED {
            for relation in self.relations.as_slice() {
                tighten_by(state, relation);
            }
        }
    }

    /// Tightens the row's own state. It is copied only if something may narrow it.
    fn tighten_itself(&mut self, by: &Tightening) {
        if self.is_tight(by) {
            return;
        }
        let mut left = self.state.copied();
        self.tighten(&mut left, by);
        self.state = left;
    }

    /// Whether no fact and no relation narrows the row's own state.
    fn is_tight(&self, by: &Tightening) -> bool {
        for note in by.said {
            if speaks_of(note, by.part) && may_tighten(&self.state, &note.fact) {
                return false;
            }
        }
        for fact in by.found {
            if may_tighten(&self.state, fact) {
                return false;
            }
        }
        if by.relates && self.changes < TIGHTENED {
            for relation in self.relations.as_slice() {
                if may_tighten(&self.state, relation) {
                    return false;
                }
            }
        }
        true
    }

    /// Whether a state that comes to the row leaves it as it is.
    pub fn has_all(
        &self,
        state: &AbsState,
        space: &Space,
        told: &ArrivingParts,
        by: &Tightening,
    ) -> bool {
        if !self.has(state) || self.parts_after(told, by) != self.parts {
            return false;
        }
        let mut both = self.space;
        !(by.relates && both.join(space))
    }

    /// The row's parts once a state came that tells of the flags: what it tells, if the row it comes from told all so
    /// far; else the parts that both have. An analysis without relations has the parts that its guide gives.
    fn parts_after(&self, told: &ArrivingParts, by: &Tightening) -> FlagParts {
        if !by.relates {
            self.parts.copied()
        } else if self.is_told_by(told.from) {
            told.parts.copied()
        } else {
            common_parts(&self.parts, &told.parts)
        }
    }

    /// Whether a row alone told of the flags so far.
    fn is_told_by(&self, from: u64) -> bool {
        self.teller == from && from != NO_ROW
    }

    /// Takes what a state that comes to the row tells of the flags. The result is whether the row's parts changed.
    fn hear(&mut self, told: &ArrivingParts, by: &Tightening) -> bool {
        let parts = self.parts_after(told, by);
        if !self.is_told_by(told.from) {
            self.teller = NO_ROW;
        }
        if parts == self.parts {
            return false;
        }
        self.parts = parts;
        true
    }

    /// Whether another row has the same state, relations and flag parts.
    pub fn is_like(&self, other: &InferredRow) -> bool {
        self.has(&other.state)
            && other.has(&self.state)
            && self.parts == other.parts
            && are_same(self.relations.as_slice(), other.relations.as_slice())
    }

    /// Joins a state that comes to the row.
    ///
    /// # Errors
    ///
    /// `NoMemory` where memory was refused.
    pub fn take(
        &mut self,
        state: &AbsState,
        space: &Space,
        told: &ArrivingParts,
        by: &Tightening,
    ) -> Result<JoinOutcome, FlowFault> {
        if !self.has(state) {
            return self.take_new(state, space, told, by);
        }
        let heard = self.hear(told, by);
        if !(by.relates && self.space.join(space)) {
            return Ok(if heard {
                JoinOutcome::Changed
            } else {
                JoinOutcome::Same
            });
        }
        self.relate()?;
        let mut state = self.state.copied();
        Ok(self.grow(&mut state, true, by))
    }

    /// Whether the row has a state already.
    fn has(&self, state: &AbsState) -> bool {
        self.state.mode == state.mode && self.state.armed == state.armed && self.state.covers(state)
    }

    /// Joins a state that the row does not have.
    fn take_new(
        &mut self,
        state: &AbsState,
        space: &Space,
        told: &ArrivingParts,
        by: &Tightening,
    ) -> Result<JoinOutcome, FlowFault> {
        let Some(mut both) = join_of(&self.state, state, by.cells) else {
            return Ok(JoinOutcome::Unjoined);
        };
        let heard = self.hear(told, by);
        let grew = by.relates && self.space.join(space);
        if grew {
            self.relate()?;
        }
        if !grew && self.state.covers(&both) {
            return Ok(if heard {
                JoinOutcome::Changed
            } else {
                JoinOutcome::Same
            });
        }
        Ok(self.grow(&mut both, grew || heard, by))
    }

    /// Goes on with a join, which is lost. `grew` says whether the row's relations or flag parts changed.
    fn grow(&mut self, both: &mut AbsState, grew: bool, by: &Tightening) -> JoinOutcome {
        self.change(both, by);
        if self.state.covers(both) && both.covers(&self.state) {
            return if grew {
                JoinOutcome::Changed
            } else {
                JoinOutcome::Same
            };
        }
        self.changes = self.changes.saturating_add(1);
        swap(&mut self.state, both);
        JoinOutcome::Changed
    }

    /// Joins a state without any widening.
    ///
    /// # Errors
    ///
    /// `NoMemory` where memory was refused.
    pub fn add(
        &mut self,
        state: &AbsState,
        space: &Space,
        told: &ArrivingParts,
        by: &Tightening,
    ) -> Result<JoinOutcome, FlowFault> {
        if !self.has(state) {
            let Some(both) = join_of(&self.state, state, by.cells) else {
                return Ok(JoinOutcome::Unjoined);
            };
            self.state = both;
        }
        let _heard = self.hear(told, by);
        if by.relates && self.space.join(space) {
            self.relate()?;
        }
        self.tighten_itself(by);
        Ok(JoinOutcome::Same)
    }

    /// Makes the row's state after a join of the join.
    fn change(&mut self, both: &mut AbsState, by: &Tightening) {
        if self.changes >= CHANGES {
            *both = widest(both);
            return;
        }
        if by.ranges.is_empty() {
            self.growth.widen(&self.state, both, by.thresholds);
        } else {
            self.widen_within(both, by);
        }
        self.tighten(both, by);
    }

    /// Widens a join, but not beyond the ranges of its address.
    fn widen_within(&mut self, both: &mut AbsState, by: &Tightening) {
        let joined = both.copied();
        self.growth.widen(&self.state, both, by.thresholds);
        for note in by.ranges {
            hold(both, &joined, note);
        }
    }

    /// Whether a bound of the row was widened.
    pub fn is_widened(&self) -> bool {
        self.growth.is_widened()
    }
}

/// The join of two states, if one row can have both. The writer's analysis joins no state in which an NMI may come
/// before the cells are armed; here two such states are joined, so that they take one row.
fn join_of(one: &AbsState, other: &AbsState, cells: usize) -> Option<AbsState> {
    if one.mode == other.mode && one.armed == other.armed {
        one.join(other)
    } else {
        joined(one, other, cells)
    }
}

/// Whether one row can have both states, which then have a join.
pub fn are_joined(one: &AbsState, other: &AbsState, cells: usize) -> bool {
    if one.shape.len() != other.shape.len() {
        return false;
    }
    match one.mode.join(other.mode) {
        Some(Mode::Nmi) if one.mode != other.mode || one.armed != other.armed => {
            usize::from(one.armed.min(other.armed)) >= cells
        }
        Some(_) => true,
        None => false,
    }
}

/// Whether two lists have the same linears.
fn are_same(one: &[Linear], other: &[Linear]) -> bool {
    one.len() == other.len() && one.iter().zip(other).all(|(a, b)| a == b)
}

/// Whether a fact speaks of the rows of a part.
pub fn speaks_of(note: &FactNote, part: u16) -> bool {
    match note.part {
        Some(only) => only == part,
        None => true,
    }
}

/// Tightens a state by a linear that is 0; it stays as it was if nothing would be left.
fn tighten_by(state: &mut AbsState, fact: &Linear) {
    if may_tighten(state, fact) {
        narrow(state, fact);
    }
}

/// Whether a linear that is 0 may tighten a state.
fn may_tighten(state: &AbsState, fact: &Linear) -> bool {
    stays_within(fact, state.shape.len()) && may_narrow(state, fact)
}

/// The same of a state that has each slot that the linear names.
fn narrow(state: &mut AbsState, fact: &Linear) {
    let mut left = state.copied();
    if left.tighten(fact) {
        *state = left;
    }
}

/// Whether a linear that is 0 narrows the range of a variable. A state is copied only then.
fn may_narrow(state: &AbsState, fact: &Linear) -> bool {
    let constant = i64::from(fact.constant());
    let (mut least, mut most) = (constant, constant);
    for term in fact.terms() {
        let (low, high) = span_of(state, term);
        least = least.saturating_add(low);
        most = most.saturating_add(high);
    }
    fact.terms().iter().any(|term| {
        let (low, high) = span_of(state, term);
        let (others_least, others_most) = (least.saturating_sub(low), most.saturating_sub(high));
        high.saturating_add(others_least) > 0 || low.saturating_add(others_most) < 0
    })
}

/// The least and the greatest value of a term.
fn span_of(state: &AbsState, term: &Term) -> (i64, i64) {
    let range = state.range(term.variable);
    let coefficient = i64::from(term.coefficient);
    let one = coefficient.saturating_mul(i64::from(range.low()));
    let other = coefficient.saturating_mul(i64::from(range.high()));
    (one.min(other), one.max(other))
}
