// The annotations of a ROM.

ghost use Rattle.std.specs.Prelude.{◌≡◌, Contains, IsUtf8, IfOk, IfErr, IfSome, Err, None, Some, Ok, codes};
ghost use Rattle.annotations.specs.Said.{NamesKeyIn, NamesKeyOf, NamesOnly, Says, SaysBoard, SaysBudget, known_keys, nmi_said};
ghost use Rattle.toml.specs.Data.{Members, get_member};
ghost use Rattle.toml.specs.Parse.{parse_document};
ghost use Rattle.toml.specs.View.{table_view};

use crate::fault::{AnnotationFault, Wrong};
use crate::lists::{cells, facts, inlines, loops, splits};
use crate::notes::{FactNote, LoopNote, Notes, SplitNote};
use crate::tables::{formed, number, unknown_key, value_at};
use abs_state::KeptCell;
use address_map::Region;
use cert_lines::BoardMap;
use std::alloc::Global;
use std::marker::Model;
use t_states::MAX_BUDGET;
use toml::Table;

/// What a programmer says about a ROM (docs/ANNOTATIONS.md).
#[derive(Drop)]
pub struct Annotations {
    region: Region,
    budget: Option<u16>,
    board: BoardMap,
    inlines: Vec<u16>,
    splits: Vec<SplitNote>,
    facts: Vec<FactNote>,
    loops: Vec<LoopNote>,
    cells: Vec<KeptCell>,
}

impl Model for Annotations {
    ghost use Rattle.annotations.specs.Said.{AnnotationsView};

    ghost Value = { AnnotationsView };

    ghost view = { λ a. record { region = a.region; budget = a.budget; board = a.board; cells = a.cells.items } };
}

impl Annotations {
    /// Reads annotations from a TOML text (docs/ANNOTATIONS.md). Memory is taken for the text's values and for the
    /// lists.
    ///
    /// # Errors
    ///
    /// `Text` if the bytes are not UTF-8 or no TOML. Else `Key` has the first key that is missing, whose value has a
    /// wrong form, or that annotations do not have (docs/ANNOTATIONS.md, "What is refused"): first the keys of
    /// annotations, in the order of their table, then unknown ones in the order of their bytes. `NoMemory` where memory
    /// was refused.
    pub fn read(alloc: Global, text: &[u8]) -> Result<Annotations, AnnotationFault>
        // The region, the budget, the board and the cells are those of the document.
        ensures found { IfOk result (λ said. (members : Members)
            × (parse_document text.now ≡ Some members) × Says members said) }
        // A text is refused as no TOML only if it is none.
        ensures text { result ≡ Err AnnotationFault.Text → IsUtf8 text.now
            → parse_document text.now ≡ None }
        // A refused key is one that annotations have, or one of the document.
        ensures key { IfErr result (NamesKeyIn text.now) }
    {
        let table = match toml::table_from_slice(alloc, text) {
            Ok(table) => table,
            Err(error) if error.is_memory() => return Err(AnnotationFault::NoMemory),
            Err(_) => return Err(AnnotationFault::Text),
        };
        let annotations = of_table(alloc, &table)?;
        match unknown_key(&table) {
            Some(key) => Err(bad_key(alloc, key.as_str())),
            None => Ok(annotations),
        }
    }

    /// Annotations that a program makes. Each list has to be sorted by address, as the calls below say; where one is
    /// not, some of its notes are overlooked.
    pub fn of(region: Region, budget: Option<u16>, board: BoardMap, notes: Notes) -> Annotations
        ensures { result ≡ record { region = region; budget = budget; board = board; cells = notes.cells.items } }
    {
        Annotations {
            region,
            budget,
            board,
            inlines: notes.inlines,
            splits: notes.splits,
            facts: notes.facts,
            loops: notes.loops,
            cells: notes.cells,
        }
    }

    /// The addresses that the stack may use.
    pub fn region(&self) -> Region
        ensures { result ≡ self.now.region }
    {
        self.region
    }

    /// The T-states that the NMI routine may take, 0 to 50,665; None if there is no routine.
    pub fn budget(&self) -> Option<u16>
        ensures { result ≡ self.now.budget }
    {
        self.budget
    }

    /// The board whose map the ROM uses.
    pub fn board(&self) -> BoardMap
        ensures { result ≡ self.now.board }
    {
        self.board
    }

    /// The addresses of inline calls, rising and each once.
    pub fn inlines(&self) -> &[u16] {
        self.inlines.as_slice()
    }

    /// The splits, by rising address; no two at one address.
    pub fn splits(&self) -> &[SplitNote] {
        self.splits.as_slice()
    }

    /// The facts, by address; those of one address in the order of the text.
    pub fn facts(&self) -> &[FactNote] {
        self.facts.as_slice()
    }

    /// The loops, by rising address; no two at one address.
    pub fn loops(&self) -> &[LoopNote] {
        self.loops.as_slice()
    }

    /// The kept cells, by rising address; no two at one address.
    pub fn cells(&self) -> &[KeptCell]
        ensures { result.now ≡ self.now.cells }
    {
        self.cells.as_slice()
    }
}

/// The annotations in a table. Unknown keys are ignored here.
#[tactic(auto, using(crate::proofs::KeyLemmas::nmi_known, crate::proofs::KeyLemmas::budget_known, crate::proofs::KeyLemmas::inline_known, crate::proofs::KeyLemmas::split_known, crate::proofs::KeyLemmas::fact_known, crate::proofs::KeyLemmas::loop_known, crate::proofs::KeyLemmas::cell_known, crate::proofs::KeyLemmas::map_known))]
fn of_table(alloc: Global, table: &Table) -> Result<Annotations, AnnotationFault>
    ensures found { IfOk result (Says (table_view table.now)) }
    ensures text { result ≡ Err AnnotationFault.Text → ⊥ }
    ensures key { IfErr result (NamesKeyOf (table_view table.now)) }
{
    let low = judged(alloc, "low", number(table, "low"))?;
    let top = judged(alloc, "top", number(table, "top"))?;
    let nmi = judged(alloc, "nmi", has_nmi(table))?;
    let budget = judged(alloc, "budget", budget(table, nmi))?;
    let board = board(table);
    Ok(Annotations {
        region: Region { low, top },
        budget,
        inlines: judged(alloc, "inline", inlines(alloc, table))?,
        splits: judged(alloc, "split", splits(alloc, table))?,
        facts: judged(alloc, "fact", facts(alloc, table))?,
        loops: judged(alloc, "loop", loops(alloc, table))?,
        cells: judged(
            alloc,
            "cell",
            cells(alloc, table, board.unwrap_or(BoardMap::Galaxian)),
        )?,
        board: judged(alloc, "map", formed(board))?,
    })
}

/// The value of a key, or its fault.
pub(crate) fn judged<T>(
    alloc: Global,
    key: &str,
    read: Result<T, Wrong>,
) -> Result<T, AnnotationFault>
    ensures found { IfOk result (λ value. read ≡ Ok value) }
    ensures text { result ≡ Err AnnotationFault.Text → ⊥ }
    ensures key { IfErr result (NamesOnly key.now) }
{
    match read {
        Ok(value) => Ok(value),
        Err(Wrong::Form) => Err(bad_key(alloc, key)),
        Err(Wrong::NoMemory) => Err(AnnotationFault::NoMemory),
    }
}

/// The fault of a key.
pub(crate) fn bad_key(alloc: Global, key: &str) -> AnnotationFault
    ensures text { result ≡ AnnotationFault.Text → ⊥ }
    ensures key { NamesOnly key.now result }
{
    match String::from_str(alloc, key) {
        Ok(name) => AnnotationFault::Key(name),
        Err(_) => AnnotationFault::NoMemory,
    }
}

/// Whether there is an NMI routine; there is none if the key is missing.
fn has_nmi(table: &Table) -> Result<bool, Wrong>
    ensures { IfOk result (λ nmi. nmi_said (get_member (codes "nmi") (table_view table.now))
        ≡ Some nmi) }
{
    match value_at(table, "nmi") {
        Some(value) => formed(value.as_bool()),
        None => Ok(false),
    }
}

/// The budget of the NMI routine. It has to be there exactly if the routine is.
fn budget(table: &Table, nmi: bool) -> Result<Option<u16>, Wrong>
    requires { nmi_said (get_member (codes "nmi") (table_view table.now)) ≡ Some nmi }
    ensures { IfOk result (SaysBudget (table_view table.now)) }
{
    if nmi {
        let budget = number(table, "budget")?;
        if u32::from(budget) > MAX_BUDGET {
            return Err(Wrong::Form);
        }
        return Ok(Some(budget));
    }
    match value_at(table, "budget") {
        Some(_) => Err(Wrong::Form),
        None => Ok(None),
    }
}

/// The board with the map that is named, the Galaxian one without a name; None if no map has the name.
fn board(table: &Table) -> Option<BoardMap>
    ensures { IfSome result (SaysBoard (table_view table.now)) }
{
    match value_at(table, "map") {
        Some(value) => BoardMap::named(value.as_str()?.as_bytes()),
        None => Some(BoardMap::Galaxian),
    }
}
