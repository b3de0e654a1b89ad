// Facts that are carried over loops.

use address_map::Rom;
use analysis::FlowFault;
use annotations::{AnnotationFault, FactNote, Given};
use explored_plans::{Base, ExploredPlan, Plan, SearchContext};
use fact_closure::{LoopFact, carried_facts};
use source_notes::{NoteKind, SourceNotes};
use std::alloc::Global;
use t_states::MAX_BUDGET;

/// The most visits of rows in the analysis that finds the rows of the loops.
const VISITS: u32 = 2_000_000;

/// The facts that notes carry over loops, at the other addresses of the loops, each with the line of its note.
/// `annotations` is what else is said. There are none where the annotations are bad, or the analysis takes too many
/// rows.
///
/// # Errors
///
/// `NoMemory` where memory was refused.
pub(crate) fn carried(
    alloc: Global,
    rom: &[u8],
    annotations: &[u8],
    notes: &SourceNotes,
) -> Result<Vec<(u32, FactNote)>, FlowFault> {
    let mut all = Vec::new(alloc);
    let loops = loop_facts(alloc, notes)?;
    let Some(rom) = Rom::of(rom) else {
        return Ok(all);
    };
    if loops.is_empty() {
        return Ok(all);
    }
    let given = match Given::read(alloc, annotations) {
        Ok(given) => given,
        Err(AnnotationFault::NoMemory) => return Err(FlowFault::NoMemory),
        Err(AnnotationFault::Text | AnnotationFault::Key(_)) => return Ok(all),
    };
    let mut base = Base::deduced(alloc, &rom, &given)?;
    if given.nmi.is_none() && base.budget.is_none() {
        // Loops of the routine count too, whether or not there is one.
        base.budget = Some(MAX_BUDGET as u16);
    }
    let map = base.board.map(rom.len());
    let context = SearchContext::of(&rom, &map, &base, VISITS);
    let Some(explored) = ExploredPlan::of(alloc, &context, Plan::empty(alloc))? else {
        return Ok(all);
    };
    for (line, wanted) in &loops {
        let edges = explored.edges(alloc, &context)?;
        for note in carried_facts(alloc, &explored.list, edges, wanted)? {
            all.push((*line, note))?;
        }
    }
    Ok(all)
}

/// The facts of notes that are to be carried over loops, each with its line.
fn loop_facts(alloc: Global, notes: &SourceNotes) -> Result<Vec<(u32, LoopFact)>, FlowFault> {
    let mut loops = Vec::new(alloc);
    for note in &notes.notes {
        if let NoteKind::Fact {
            fact,
            through: Some(last),
        } = &note.kind
        {
            let wanted = LoopFact {
                head: note.at,
                last: *last,
                fact: *fact,
            };
            loops.push((note.line, wanted))?;
        }
    }
    Ok(loops)
}
