// The lines of a certificate.

use crate::proc::Proc;
use crate::row::Row;
use crate::split::Split;
use crate::version::{BoardMap, Version};
use abs_state::KeptCell;
use address_map::Region;

/// One line of a certificate's text, as a value (docs/CERTIFICATE.md).
#[derive(Drop)]
pub enum Line {
    /// The version of the text.
    Header(Version),
    /// The ROM's length in bytes.
    Rom(u16),
    /// The board's map, from version 2 on.
    Board(BoardMap),
    /// The stack region.
    Stack(Region),
    /// The most T-states that the NMI routine may take; None if there is no routine.
    Budget(Option<u16>),
    Proc(Proc),
    Split(Split),
    /// The address of a call whose callee takes its return address from the stack.
    Inline(u16),
    /// A kept cell, from version 2 on.
    Cell(KeptCell),
    Row(Row),
    End,
}
