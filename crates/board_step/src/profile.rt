// Profiles and traps.

use address_map::{Map, Region, Starts};
use thiserror::Error;

/// What a step is tested against, apart from the ROM: the map, where instructions may start, and the stack region.
#[derive(Clone, Copy)]
pub struct Profile<'a> {
    pub map: &'a Map,
    pub starts: &'a Starts,
    pub region: Region,
}

/// Why a step is forbidden. Where several apply, the first in this order is reported (docs/BOARD.md, "Traps").
#[derive(Clone, Copy, Debug, Error, PartialEq, Eq)]
pub enum Trap {
    /// The program counter is no start, or the instruction there extends past the end of the ROM.
    #[error("fetch outside an accepted instruction")]
    FetchOutside,
    /// The bytes at the program counter spell no documented instruction.
    #[error("undocumented instruction")]
    Undocumented,
    /// A data write to the ROM.
    #[error("write to the ROM")]
    WriteRom,
    /// A data write to an unmapped address.
    #[error("write to an unmapped address")]
    WriteUnmapped,
    /// A stack access outside the region.
    #[error("stack outside its region")]
    StackOutside,
    /// An instruction of the I/O group.
    #[error("I/O instruction")]
    IoSpace,
}
