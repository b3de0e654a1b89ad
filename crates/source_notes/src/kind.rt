// What a note says of the bytes that it holds for.

use intervals::ByteRange;
use loop_bounds::{Linear, Variable};
use z80_decode::Register8;

/// What a note says of the bytes at its address (docs/NOTES.md, "Kinds of notes").
#[derive(Drop)]
pub enum NoteKind {
    /// A CALL whose callee takes the return address from the stack.
    Inline,
    /// The variable that counts the turns of the loop here.
    Loop(Variable),
    /// A linear that is 0 here. With `through` it is carried over a loop, up to the instruction at that address.
    Fact {
        fact: Linear,
        through: Option<u16>,
    },
    /// From here on, states are distinguished by the part that a register's value is in, up to the address `until`.
    Split {
        register: Register8,
        parts: Vec<ByteRange>,
        until: u16,
    },
    /// A byte of work RAM that always keeps a range.
    Cell(ByteRange),
}
