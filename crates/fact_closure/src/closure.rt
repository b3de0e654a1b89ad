// All facts and flag parts from which a wanted one follows.

use crate::needs::{Needs, add_fact, add_part};
use abs_state::AbsState;
use analysis::{FlowFault, MAIN, NMI, facts_at};
use board_fetch::fetch;
use cert_fields::Facts;
use cert_lines::Version;
use derived_parts::{PartGround, PartStep, fact_ground_of, ground_of, linear_before, negated};
use flag_letters::{FlagPart, FlagParts};
use inferred_rows::{ContextPoint, Guide};
use judged_rows::ArrivingKind;
use loop_bounds::Linear;
use row_worklist::{RowEdge, Setting, Worklist};
use std::alloc::Global;

/// The most facts of a row.
pub(crate) const FACTS: usize = 4;

/// The most facts or parts of rows through which one fact or part is followed.
pub(crate) const STEPS: u32 = 20_000;

/// The steps that come to each row.
#[derive(Drop)]
pub(crate) struct IncomingSteps {
    edges: Vec<RowEdge>,
}

impl IncomingSteps {
    /// Sorts steps by the rows to which they come.
    pub(crate) fn of(edges: Vec<RowEdge>) -> IncomingSteps {
        let mut edges = edges;
        edges.sort_unstable_by_key(|edge| (edge.to, edge.from));
        IncomingSteps { edges }
    }

    /// The steps that come to a row.
    pub(crate) fn to(&self, number: u64) -> &[RowEdge] {
        let first = self.edges.partition_point(|edge| edge.to < number);
        let behind = self.edges.partition_point(|edge| edge.to <= number);
        match self.edges.get(first..behind) {
            Some(edges) => edges,
            None => &[],
        }
    }
}

/// What is wanted of a row.
#[derive(Clone, Copy)]
pub(crate) enum Claim {
    Fact(Linear),
    Part(FlagPart),
}

/// A claim that is wanted of a row.
#[derive(Clone, Copy)]
struct Wanted {
    row: u64,
    claim: Claim,
}

/// Where claims are followed.
#[derive(Clone, Copy)]
pub(crate) struct Followed<'f, 'i> {
    pub setting: Setting<'f>,
    /// The rows of an analysis with relations.
    pub related: &'f Worklist,
    pub incoming: &'i IncomingSteps,
}

/// Whether a row is that of the entry of main or of the NMI routine, where nothing is known.
fn is_entry(number: u64) -> bool {
    let point = ContextPoint::of(number);
    (point.proc == MAIN && point.address == 0)
        || (point.proc == NMI && point.address == z80_moves::NMI_ADDRESS)
}

/// Whether a list has a fact or its negation.
pub(crate) fn has(facts: Option<&Facts>, fact: &Linear) -> bool {
    match facts {
        Some(facts) => {
            facts.as_slice().contains(fact)
                || negated(fact).is_some_and(|other| facts.as_slice().contains(&other))
        }
        None => false,
    }
}

/// Whether a list has a flag part.
fn has_part(parts: Option<&FlagParts>, part: &FlagPart) -> bool {
    match parts {
        Some(parts) => parts.parts().contains(part),
        None => false,
    }
}

fn count(facts: Option<&Facts>) -> usize {
    match facts {
        Some(facts) => facts.as_slice().len(),
        None => 0,
    }
}

fn count_of_parts(parts: Option<&FlagParts>) -> usize {
    match parts {
        Some(parts) => parts.parts().len(),
        None => 0,
    }
}

/// A claim of a row with all claims from which it follows, without those that `table` has; None if it cannot be had. A
/// claim follows where each step that comes to its row makes it of a claim of the row before, or of nothing.
///
/// # Errors
///
/// `NoMemory` where memory was refused.
pub(crate) fn closure_of(
    alloc: Global,
    of: Followed,
    table: &Guide,
    row: u64,
    claim: Claim,
) -> Result<Option<Needs>, FlowFault> {
    let mut needs = Needs::none(alloc);
    let mut todo = Vec::new(alloc);
    todo.push(Wanted { row, claim })?;
    for _ in 0..STEPS {
        let Some(wanted) = todo.pop() else {
            return Ok(Some(needs));
        };
        if is_had(table, &needs, &wanted) {
            continue;
        }
        if is_entry(wanted.row) || !has_room(of.setting, table, &needs, &wanted) {
            return Ok(None);
        }
        match &wanted.claim {
            Claim::Fact(fact) => add_fact(&mut needs.facts, wanted.row, *fact)?,
            Claim::Part(part) => add_part(&mut needs.parts, wanted.row, *part)?,
        }
        for edge in of.incoming.to(wanted.row) {
            let Some(ground) = ground_before(alloc, of, edge, &wanted)? else {
                return Ok(None);
            };
            want(&mut todo, edge.from, &ground)?;
        }
    }
    Ok(None)
}

/// What a wanted claim after a step asks of the row before the step. None if this is not known.
fn ground_before(
    alloc: Global,
    of: Followed,
    edge: &RowEdge,
    wanted: &Wanted,
) -> Result<Option<PartGround>, FlowFault> {
    match &wanted.claim {
        Claim::Fact(fact) => fact_before(alloc, of, edge, fact),
        Claim::Part(part) => part_before(alloc, of, edge, part),
    }
}

/// Adds what a ground takes of a row.
fn want(todo: &mut Vec<Wanted>, row: u64, ground: &PartGround) -> Result<(), FlowFault> {
    if let Some(fact) = ground.fact {
        let claim = Claim::Fact(fact);
        todo.push(Wanted { row, claim })?;
    }
    if let Some(part) = ground.part {
        let claim = Claim::Part(part);
        todo.push(Wanted { row, claim })?;
    }
    Ok(())
}

/// Whether a wanted claim is there already.
fn is_had(table: &Guide, needs: &Needs, wanted: &Wanted) -> bool {
    let row = &wanted.row;
    match &wanted.claim {
        Claim::Fact(fact) => has(table.facts.get(row), fact) || has(needs.facts.get(row), fact),
        Claim::Part(part) => {
            has_part(table.parts.get(row), part) || has_part(needs.parts.get(row), part)
        }
    }
}

/// Whether a row has room for a wanted claim.
fn has_room(setting: Setting, table: &Guide, needs: &Needs, wanted: &Wanted) -> bool {
    let row = &wanted.row;
    match &wanted.claim {
        Claim::Fact(_) => {
            let said = facts_at(setting.task.said().facts(), ContextPoint::of(*row).address);
            let taken = count(table.facts.get(row))
                .saturating_add(count(needs.facts.get(row)))
                .saturating_add(said.len());
            taken < FACTS
        }
        Claim::Part(_) => {
            let taken = count_of_parts(table.parts.get(row)).saturating_add(count_of_parts(
                needs.parts.get(row),
            ));
            taken < flag_letters::MOST_PARTS
        }
    }
}

/// No claim.
fn nothing() -> PartGround {
    PartGround {
        part: None,
        fact: None,
    }
}

/// What a fact after a step asks of the row before the step. None if this is not known.
fn fact_before(
    alloc: Global,
    of: Followed,
    edge: &RowEdge,
    fact: &Linear,
) -> Result<Option<PartGround>, FlowFault> {
    let Some(source) = of.related.row(edge.from) else {
        return Ok(None);
    };
    match linear_before(fact, &edge.effect, &source.state) {
        Some(before) if !before.terms().is_empty() => Ok(Some(PartGround {
            part: None,
            fact: Some(before),
        })),
        Some(before) if before.constant() == 0 => Ok(Some(nothing())),
        _ => ground_at(alloc, of, edge, &Claim::Fact(*fact)),
    }
}

/// The same for a flag part. Calls and returns tell nothing of the flags.
fn part_before(
    alloc: Global,
    of: Followed,
    edge: &RowEdge,
    part: &FlagPart,
) -> Result<Option<PartGround>, FlowFault> {
    if edge.kind != ArrivingKind::Jump {
        return Ok(None);
    }
    ground_at(alloc, of, edge, &Claim::Part(*part))
}

/// The least ground of a claim after a step of version 3.
fn ground_at(
    alloc: Global,
    of: Followed,
    edge: &RowEdge,
    claim: &Claim,
) -> Result<Option<PartGround>, FlowFault> {
    if of.setting.task.version() != Version::Three {
        return Ok(None);
    }
    let address = ContextPoint::of(edge.from).address;
    let (Some(source), Some(target)) = (of.related.row(edge.from), of.related.row(edge.to)) else {
        return Ok(None);
    };
    let Ok((instr, _)) = fetch(of.setting.task.rom(), address) else {
        return Ok(None);
    };
    let judged = of
        .related
        .judged_row_at(alloc, of.setting.task, edge.from, source)?;
    let after: &AbsState = &target.state;
    let step = PartStep {
        instr: &instr,
        operand: judged.as_ref().operand,
        before: &source.state,
        facts: source.relations.as_slice(),
        parts: &source.parts,
        settled: &edge.effect,
        moved: &edge.moved,
        after,
    };
    Ok(match claim {
        Claim::Fact(fact) => fact_ground_of(&step, fact),
        Claim::Part(part) => ground_of(&step, part),
    })
}
