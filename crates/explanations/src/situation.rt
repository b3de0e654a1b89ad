// A refused row with what it writes and where it leads.

use crate::explored::Explored;
use abs_state::AbsState;
use analysis::{FlowFault, JudgedRow, ProgramPoint, Task, judged_row};
use flag_letters::FlagParts;
use inferred_rows::ContextPoint;
use intervals::RegPair;
use loop_bounds::{Effect, Linear, becomes, vanishes};
use std::alloc::Global;

/// A refused row with what it writes and where it leads.
#[derive(Drop)]
pub struct Situation<'s> {
    pub task: &'s Task<'s>,
    pub place: ProgramPoint,
    pub timed: bool,
    pub state: AbsState,
    /// What is known of the flags there; nothing before version 3.
    pub parts: FlagParts,
    pub judged: JudgedRow,
}

impl<'s> Situation<'s> {
    /// A state with flag parts at a place. `timed` says whether the procedure is timed.
    pub fn of(
        alloc: Global,
        task: &'s Task<'s>,
        place: ProgramPoint,
        timed: bool,
        state: AbsState,
        parts: &FlagParts,
    ) -> Situation<'s> {
        let judged = judged_row(alloc, task, place, timed, &state, parts);
        Situation {
            task,
            place,
            timed,
            state,
            parts: parts.copied(),
            judged,
        }
    }

    /// A row of an exploring analysis; None if there is no such row.
    pub fn at(alloc: Global, explored: &Explored<'s>, number: u64) -> Option<Situation<'s>> {
        let point = ContextPoint::of(number);
        let row = explored.list.row(number)?;
        let timed = explored.list.is_timed(point.proc);
        Some(Situation::of(
            alloc,
            explored.task,
            point.plain(),
            timed,
            row.state.copied(),
            &row.parts,
        ))
    }
}

/// The addresses of the instructions of the NMI routine after which a pair is no longer what it was at the entry, four
/// at most.
///
/// # Errors
///
/// `NoMemory` where memory was refused.
pub fn lost_pairs(
    alloc: Global,
    explored: &Explored,
    pair: RegPair,
) -> Result<Vec<u16>, FlowFault> {
    let mut found: Vec<u16> = Vec::new(alloc);
    for edge in explored.edges() {
        let (from, to) = (ContextPoint::of(edge.from), ContextPoint::of(edge.to));
        if from.proc != analysis::NMI || to.proc != from.proc || found.len() >= 4 {
            continue;
        }
        let had = match explored.row(edge.from) {
            Some(row) => row.state.pairs.pair(pair).origin == Some(pair),
            None => false,
        };
        let has = match explored.row(edge.to) {
            Some(row) => row.state.pairs.pair(pair).origin == Some(pair),
            None => false,
        };
        if had && !has && !found.contains(&from.address) {
            found.push(from.address)?;
        }
    }
    found.sort_unstable();
    Ok(found)
}

/// Whether each of these facts follows from those before a step, as the checker sees it.
pub fn all_follow(facts: &[Linear], before: &AbsState, effect: &Effect, asked: &[Linear]) -> bool {
    asked
        .iter()
        .all(|fact| follows(facts, before, effect, fact))
}

fn follows(facts: &[Linear], before: &AbsState, effect: &Effect, fact: &Linear) -> bool {
    vanishes(fact, effect, before)
        || facts
            .iter()
            .any(|given| becomes(fact, effect, before, given))
}
