// The habit of docs/HABITS.md for each reason.

use abs_step::Reason;

/// What a refused row does, as far as the habit depends on it.
#[derive(Clone, Copy)]
pub(crate) struct Doing {
    /// It lies in a loop.
    pub(crate) in_loop: bool,
    /// It is a computed jump, or is reached by one.
    pub(crate) jumps: bool,
    /// It jumps to a word that is read from RAM.
    pub(crate) reads_ram: bool,
    /// It takes a return address.
    pub(crate) pops: bool,
    /// It sends a state to a split that has no part for it.
    pub(crate) lacks: bool,
    /// It returns from a procedure whose calls are inline, to one of several.
    pub(crate) is_inline: bool,
}

const BOUND: (u8, &str) = (5, "Bound an index where it is used");

const TABLE: (u8, &str) = (6, "Add the index to the table in one step");

const NUMBER: (u8, &str) = (7, "Choose by a number");

const RETURN: (u8, &str) = (8, "Return to the caller");

/// The number and the title of the habit whose rewriting helps where no remedy is known; None where there is none.
pub(crate) fn habit_of(reason: Reason, doing: Doing) -> Option<(u8, &'static str)> {
    match reason {
        Reason::StackUnset | Reason::NmiBeforeStack | Reason::CellUnarmed => {
            Some((1, "Begin in this order"))
        }
        Reason::SavedRegister(_) | Reason::HaltInNmi | Reason::NmiMissing => {
            Some((2, "Give back every register in the NMI routine"))
        }
        Reason::Decode(_) if doing.jumps => Some(TABLE),
        Reason::Decode(_) | Reason::IoSpace => Some((3, "Keep code and data apart")),
        Reason::WriteRom | Reason::WriteUnmapped | Reason::StackOverwrite => {
            Some(if doing.in_loop {
                (4, "Count with LDIR or DJNZ")
            } else {
                BOUND
            })
        }
        Reason::NotCovered if doing.reads_ram => Some(NUMBER),
        Reason::NotCovered if doing.jumps => Some(TABLE),
        Reason::NotCovered => Some(if doing.lacks { BOUND } else { NUMBER }),
        Reason::StackShape if doing.is_inline => Some(BOUND),
        Reason::StackShape => Some(if doing.pops { RETURN } else { NUMBER }),
        Reason::SpWrite | Reason::Rank => Some(RETURN),
        Reason::Time | Reason::Budget => Some((9, "Count down in the NMI routine")),
        Reason::CellRange => Some((10, "Change a kept byte in a register")),
        Reason::Rom | Reason::Region | Reason::Entry | Reason::StackDepth => None,
    }
}
