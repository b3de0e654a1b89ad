// The items of a way.

use crate::folding::Segment;
use call_graph::ProcId;
use certificate::RowId;
use dearest_way::LoopTurns;

/// What an item of a way is.
#[derive(Clone, Copy)]
pub enum ItemKind {
    /// The NMI is accepted.
    Accepted,
    /// Instructions one after another, up to the last address; so many.
    Run(u16, u32),
    /// A call, with the T-states of the instruction and the callee's time.
    Call(ProcId, u32, u32),
    /// A loop, by its number among the loops of the way.
    Loop(usize),
    /// The whole procedure with what it calls, as one loop: its way takes too many comparisons.
    Whole(usize),
}

/// An item of a way: rows that follow one another, a call, or a loop.
#[derive(Clone, Copy)]
pub struct Item {
    pub kind: ItemKind,
    /// The first address.
    pub address: u16,
    /// T-states.
    pub cost: u32,
}

impl Item {
    /// Whether another item has the same addresses and the same callee.
    pub(crate) fn is_like(&self, other: &Item) -> bool {
        let is_same = match (self.kind, other.kind) {
            (ItemKind::Accepted, ItemKind::Accepted) => true,
            (ItemKind::Run(last, count), ItemKind::Run(other_last, other_count)) => {
                last == other_last && count == other_count
            }
            (ItemKind::Call(callee, _, _), ItemKind::Call(other_callee, _, _)) => {
                callee == other_callee
            }
            (ItemKind::Loop(_), ItemKind::Loop(_)) | (ItemKind::Whole(_), ItemKind::Whole(_)) => {
                true
            }
            (
                ItemKind::Accepted
                | ItemKind::Run(_, _)
                | ItemKind::Call(_, _, _)
                | ItemKind::Loop(_)
                | ItemKind::Whole(_),
                _,
            ) => false,
        };
        is_same && self.address == other.address
    }
}

/// A loop of a way, or a whole procedure.
#[derive(Drop)]
pub struct LoopItem {
    /// The row at which the way enters it.
    pub row: RowId,
    /// The addresses of its rows, rising, each once.
    pub addresses: Vec<u16>,
    pub turns: Option<LoopTurns>,
    /// The procedures that it calls, rising.
    pub callees: Vec<ProcId>,
}

/// The dearest way of a procedure.
#[derive(Drop)]
pub struct ProcWalk {
    pub proc: ProcId,
    /// The T-states of all items: the procedure's time, or less where no way accounts for all of it.
    pub sum: u32,
    /// Each row and each loop for itself.
    pub steps: Vec<Item>,
    /// The steps, in which rows that follow one another are one item.
    pub items: Vec<Item>,
    pub loops: Vec<LoopItem>,
    /// The items, folded.
    pub segments: Vec<Segment>,
}
