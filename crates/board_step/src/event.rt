// Events of the machine.

/// The kind of an event (docs/BOARD.md, "Step").
#[derive(Clone, Copy, PartialEq, Eq)]
pub enum Kind {
    /// The machine accepts a latched NMI.
    Accept,
    /// The halted machine waits.
    Idle,
    /// The machine executes one instruction, or one turn of a repeating block instruction.
    Instr,
}

/// One event of the machine.
#[derive(Clone, Copy, PartialEq, Eq)]
pub struct Event {
    pub kind: Kind,
    /// The program counter before the event.
    pub at: u16,
    /// T-states that the event takes, 4 to 23.
    pub t: u8,
}
