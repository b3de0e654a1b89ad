// Annotations of which none is required, for a writer that infers the others (docs/INFERENCE.md, "What can be given").

use crate::annotations::{bad_key, judged};
use crate::fault::{AnnotationFault, Wrong};
use crate::given_lists::{contexts_given, facts_given, loops_given, ranges_given, turns_given};
use crate::lists::{cells, inlines, splits};
use crate::notes::{FactNote, LoopNote, RangeNote, SplitNote, TurnNote};
use crate::tables::{formed, number, unknown_key_for_infer, value_at};
use abs_state::KeptCell;
use cert_lines::BoardMap;
use std::alloc::Global;
use t_states::MAX_BUDGET;
use toml::Table;

/// What a programmer says about a ROM, as far as anything is said.
#[derive(Drop)]
pub struct Given {
    pub low: Option<u16>,
    pub top: Option<u16>,
    pub nmi: Option<bool>,
    /// At most 50,665 T-states.
    pub budget: Option<u16>,
    pub board: Option<BoardMap>,
    pub inlines: Vec<u16>,
    pub splits: Vec<SplitNote>,
    pub facts: Vec<FactNote>,
    pub loops: Vec<LoopNote>,
    pub cells: Vec<KeptCell>,
    pub ranges: Vec<RangeNote>,
    /// The addresses of calls whose states are distinguished in the callee.
    pub contexts: Vec<u16>,
    pub turns: Vec<TurnNote>,
}

impl Given {
    /// Nothing is said.
    pub fn nothing(alloc: Global) -> Given {
        Given {
            low: None,
            top: None,
            nmi: None,
            budget: None,
            board: None,
            inlines: Vec::new(alloc),
            splits: Vec::new(alloc),
            facts: Vec::new(alloc),
            loops: Vec::new(alloc),
            cells: Vec::new(alloc),
            ranges: Vec::new(alloc),
            contexts: Vec::new(alloc),
            turns: Vec::new(alloc),
        }
    }

    /// Reads annotations from a TOML text, none of whose keys is required (docs/INFERENCE.md, "What can be given").
    ///
    /// # Errors
    ///
    /// As `Annotations::read`.
    pub fn read(alloc: Global, text: &[u8]) -> Result<Given, AnnotationFault> {
        let table = match toml::table_from_slice(alloc, text) {
            Ok(table) => table,
            Err(error) if error.is_memory() => return Err(AnnotationFault::NoMemory),
            Err(_) => return Err(AnnotationFault::Text),
        };
        let nmi = judged(alloc, "nmi", nmi_of(&table))?;
        let board = judged(alloc, "map", board_of(&table))?;
        let given = Given {
            low: judged(alloc, "low", number_of(&table, "low"))?,
            top: judged(alloc, "top", number_of(&table, "top"))?,
            nmi,
            budget: judged(alloc, "budget", budget_of(&table, nmi))?,
            board,
            inlines: judged(alloc, "inline", inlines(alloc, &table))?,
            splits: judged(alloc, "split", splits(alloc, &table))?,
            facts: judged(alloc, "fact", facts_given(alloc, &table))?,
            loops: judged(alloc, "loop", loops_given(alloc, &table))?,
            cells: judged(alloc, "cell", cells_of(alloc, &table, board))?,
            ranges: judged(alloc, "range", ranges_given(alloc, &table))?,
            contexts: judged(alloc, "context", contexts_given(alloc, &table))?,
            turns: judged(alloc, "turns", turns_given(alloc, &table))?,
        };
        match unknown_key_for_infer(&table) {
            Some(key) => Err(bad_key(alloc, key.as_str())),
            None => Ok(given),
        }
    }
}

/// The number of a key, if it is there.
fn number_of(table: &Table, key: &str) -> Result<Option<u16>, Wrong> {
    match value_at(table, key) {
        Some(_) => Ok(Some(number(table, key)?)),
        None => Ok(None),
    }
}

fn nmi_of(table: &Table) -> Result<Option<bool>, Wrong> {
    match value_at(table, "nmi") {
        Some(value) => Ok(Some(formed(value.as_bool())?)),
        None => Ok(None),
    }
}

/// The budget, if it is there. It must not be there where there is no NMI routine.
fn budget_of(table: &Table, nmi: Option<bool>) -> Result<Option<u16>, Wrong> {
    let budget = number_of(table, "budget")?;
    match budget {
        Some(most) if u32::from(most) > MAX_BUDGET || nmi == Some(false) => Err(Wrong::Form),
        _ => Ok(budget),
    }
}

fn board_of(table: &Table) -> Result<Option<BoardMap>, Wrong> {
    match value_at(table, "map") {
        Some(value) => Ok(Some(formed(BoardMap::named(formed(value.as_str())?.as_bytes()))?)),
        None => Ok(None),
    }
}

/// The kept cells; where no map is given, they have to be in the work RAM of one of the boards.
fn cells_of(alloc: Global, table: &Table, board: Option<BoardMap>) -> Result<Vec<KeptCell>, Wrong> {
    match board {
        Some(board) => cells(alloc, table, board),
        None => cells_of_any(alloc, table),
    }
}

/// The kept cells, in the work RAM of the first board that has all of them there.
fn cells_of_any(alloc: Global, table: &Table) -> Result<Vec<KeptCell>, Wrong> {
    for board in BoardMap::ALL {
        match cells(alloc, table, board) {
            Err(Wrong::Form) => {}
            found => return found,
        }
    }
    Err(Wrong::Form)
}
