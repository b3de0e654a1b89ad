// What annotations say about one address.

use abs_state::KeptCell;
use intervals::{ByteRange, WordRange};
use loop_bounds::{Linear, Variable};
use z80_decode::Register8;

/// A split: from this address on, states are distinguished by the part that a register's value is in.
#[derive(Drop)]
pub struct SplitNote {
    pub at: u16,
    pub register: Register8,
    pub parts: Vec<ByteRange>,
    /// The address from which on they are one state again.
    pub until: u16,
}

/// A linear that is 0 at the rows of an address.
#[derive(Clone, Copy)]
pub struct FactNote {
    pub at: u16,
    pub fact: Linear,
    /// The part of a split, counted from 1, whose rows it speaks of; None for all rows.
    pub part: Option<u16>,
}

/// The address of a loop, and the variable that counts its turns.
#[derive(Clone, Copy)]
pub struct LoopNote {
    pub at: u16,
    pub counter: Variable,
    /// Whether the counter goes up from turn to turn.
    pub rises: bool,
}

/// A range of a variable at the rows of an address. No widening goes beyond it.
#[derive(Clone, Copy)]
pub struct RangeNote {
    pub at: u16,
    pub variable: Variable,
    /// Of a variable of eight bits, its values are at most 255.
    pub range: WordRange,
}

/// The turns of a loop that are distinguished: from the address of its head on, states have the context of the turn;
/// from `until` on they are one again. Turns from the last on share a context.
#[derive(Clone, Copy)]
pub struct TurnNote {
    pub head: u16,
    pub until: u16,
    /// How many turns are distinguished, 1 to 255.
    pub turns: u16,
}

/// The notes of annotations, by kind.
#[derive(Drop)]
pub struct Notes {
    /// The addresses of inline calls.
    pub inlines: Vec<u16>,
    pub splits: Vec<SplitNote>,
    pub facts: Vec<FactNote>,
    pub loops: Vec<LoopNote>,
    pub cells: Vec<KeptCell>,
}
