// The flag parts that rows need, in version 3: those that narrow a state at a condition, or make a carry known.

use crate::closure::{Claim, IncomingSteps, closure_of};
use crate::needed::{FactSearch, says_of};
use crate::needs::{Needs, guide_by};
use analysis::FlowFault;
use board_fetch::fetch;
use cert_lines::Version;
use derived_parts::{carry_part, narrowing_part};
use flag_letters::{FlagPart, FlagParts, MOST_PARTS};
use inferred_rows::{ContextPoint, Guide, InferredRow, Manner};
use loop_bounds::Variable;
use refined_step::tested_condition;
use row_worklist::{Setting, Worklist};
use std::alloc::Global;
use std::collections::BTreeSet;
use z80_decode::{ArithmeticKind, Instr};

/// The numbers of rows.
type NumberSet = BTreeSet<u64>;

/// Whether an instruction adds or subtracts with the carry.
fn reads_carry(instr: &Instr) -> bool {
    match instr {
        Instr::Arithmetic(kind, _) => { matches!(kind, ArithmeticKind::Adc | ArithmeticKind::Sbc) }
        Instr::AdcHl(_) | Instr::SbcHl(_) => true,
        _ => false,
    }
}

/// The part that a plain row lacks, of those that hold at the related row: the first that narrows it at its condition,
/// or that makes the carry known that it reads.
fn lacking_part(
    setting: Setting,
    number: u64,
    parts: &FlagParts,
    related: &InferredRow,
    plain: &InferredRow,
) -> Option<FlagPart> {
    let address = ContextPoint::of(number).address;
    let Ok((instr, _)) = fetch(setting.task.rom(), address) else {
        return None;
    };
    if let Some(condition) = tested_condition(&instr) {
        return narrowing_part(parts, &plain.parts, condition, &plain.state);
    }
    if reads_carry(&instr) && carry_part(&plain.parts, &plain.state).is_none() {
        return carry_part(parts, &related.state);
    }
    None
}

/// The rows from which a step leads to one of these, and which were not seen before. They count as seen then.
fn rows_before(
    alloc: Global,
    steps: &IncomingSteps,
    rows: &NumberSet,
    seen: &mut NumberSet,
) -> Result<NumberSet, FlowFault> {
    let mut before = BTreeSet::new(alloc);
    for number in rows.iter() {
        for edge in steps.to(*number) {
            if seen.insert(edge.from)? {
                before.insert(edge.from)?;
            }
        }
    }
    Ok(before)
}

impl<'s> FactSearch<'s> {
    /// Whether something is against a row in the analysis without relations, and nothing in the one with them.
    fn is_worse(&self, number: u64, row: &InferredRow) -> bool {
        if row.reason.is_none() && !row.drops {
            return false;
        }
        match self.related.row(self.related_number(number)) {
            Some(related) => related.reason.is_none() && !related.drops,
            None => true,
        }
    }

    /// The flag parts that rows before refused ones lack, at the least distance at which there are any, with all from
    /// which these follow.
    ///
    /// # Errors
    ///
    /// `NoMemory` where memory was refused.
    pub(crate) fn parting(
        &self,
        alloc: Global,
        incoming: &IncomingSteps,
        guide: &Guide,
        plain: &Worklist,
    ) -> Result<Needs, FlowFault> {
        let mut all = Needs::none(alloc);
        if self.setting.task.version() != Version::Three {
            return Ok(all);
        }
        let steps = IncomingSteps::of(plain.edges(alloc, self.plain_setting(guide))?);
        let mut table = guide.copied(alloc)?;
        let mut seen = BTreeSet::new(alloc);
        let mut rows = BTreeSet::new(alloc);
        for (number, row) in plain.rows().iter() {
            if self.is_worse(*number, row) {
                rows.insert(*number)?;
                seen.insert(*number)?;
            }
        }
        for _ in 0..plain.rows().len() {
            if rows.is_empty() || !all.is_empty() {
                break;
            }
            for number in rows.iter() {
                self.add_lacking(alloc, incoming, &mut table, plain, *number, None, &mut all)?;
            }
            rows = rows_before(alloc, &steps, &rows, &mut seen)?;
        }
        Ok(all)
    }

    /// An analysis without relations by a guide.
    fn plain_setting<'g>(&'g self, guide: &'g Guide) -> Setting<'g> {
        Setting {
            task: self.setting.task,
            guide,
            manner: Manner {
                explores: true,
                relates: false,
            },
        }
    }

    /// Adds the part that a row lacks, with all from which it follows. If a variable is asked for, only a part that
    /// says something of it is added.
    fn add_lacking(
        &self,
        alloc: Global,
        incoming: &IncomingSteps,
        table: &mut Guide,
        plain: &Worklist,
        number: u64,
        of: Option<Variable>,
        all: &mut Needs,
    ) -> Result<(), FlowFault> {
        let place = self.related_number(number);
        let (Some(row), Some(related)) = (plain.row(number), self.related.row(place)) else {
            return Ok(());
        };
        let mut rest = related.parts.copied();
        for _ in 0..MOST_PARTS {
            let Some(part) = lacking_part(self.setting, place, &rest, related, row) else {
                return Ok(());
            };
            rest = without(&rest, &part);
            if !is_asked(&of, &part) {
                continue;
            }
            let claim = Claim::Part(part);
            let closure = closure_of(alloc, self.followed(incoming), table, place, claim)?;
            if let Some(closure) = closure {
                all.merge(&closure)?;
                guide_by(table, &closure)?;
                return Ok(());
            }
        }
        Ok(())
    }

    /// Adds the flag parts that narrow the counters of loops at conditions in timed procedures, with all from which
    /// these follow.
    ///
    /// # Errors
    ///
    /// `NoMemory` where memory was refused.
    pub(crate) fn add_counting_parts(
        &self,
        alloc: Global,
        incoming: &IncomingSteps,
        table: &mut Guide,
        plain: &Worklist,
        all: &mut Needs,
    ) -> Result<(), FlowFault> {
        if self.setting.task.version() != Version::Three {
            return Ok(());
        }
        for (number, _) in plain.rows().iter() {
            if !self.related.is_timed(ContextPoint::of(*number).proc) {
                continue;
            }
            for note in self.setting.task.said().loops() {
                let counter = Some(note.counter);
                self.add_lacking(alloc, incoming, table, plain, *number, counter, all)?;
            }
        }
        Ok(())
    }
}

/// Whether a part says something of a variable, if one is asked for.
fn is_asked(of: &Option<Variable>, part: &FlagPart) -> bool {
    match of {
        Some(variable) => says_of(&part.linear, variable),
        None => true,
    }
}

/// The parts without one of them.
fn without(parts: &FlagParts, part: &FlagPart) -> FlagParts {
    let mut rest = FlagParts::empty();
    for other in parts.parts() {
        if other != part && !rest.is_full() {
            rest.push(*other);
        }
    }
    rest
}
