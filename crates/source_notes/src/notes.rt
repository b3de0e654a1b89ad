// The notes of a listing.

use crate::kind::NoteKind;
use address_map::Region;
use cert_lines::BoardMap;
use std::alloc::Global;

/// A note, and what it holds for.
#[derive(Drop)]
pub struct SourceNote {
    /// The address that it holds for.
    pub at: u16,
    /// The line of the listing that has it, from 1.
    pub line: u32,
    pub kind: NoteKind,
}

/// There is an NMI routine.
#[derive(Clone, Copy, PartialEq, Eq)]
pub struct NmiNote {
    /// The T-states that it may take, at most 50,665, if the note says so.
    pub budget: Option<u16>,
}

/// What may be said once, and the line of the listing that says it, from 1.
#[derive(Clone, Copy)]
pub struct SaidOnce<T> {
    pub line: u32,
    pub value: T,
}

/// What the notes of a listing say.
#[derive(Drop)]
pub struct SourceNotes {
    /// The addresses that the stack may use.
    pub stack: Option<SaidOnce<Region>>,
    pub nmi: Option<SaidOnce<NmiNote>>,
    pub map: Option<SaidOnce<BoardMap>>,
    /// The other notes, in the order in which they take effect. Several may hold for one address.
    pub notes: Vec<SourceNote>,
    /// The lines of notes that hold for no bytes, from 1 and rising.
    pub passed_over: Vec<u32>,
}

impl SourceNotes {
    /// No notes.
    pub(crate) fn none(alloc: Global) -> SourceNotes {
        SourceNotes {
            stack: None,
            nmi: None,
            map: None,
            notes: Vec::new(alloc),
            passed_over: Vec::new(alloc),
        }
    }
}
