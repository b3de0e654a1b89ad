// Reasons to refuse a certificate.

ghost use Rattle.std.specs.Prelude.{◌≡◌, ◌≤◌};
ghost use Rattle.abs_step.specs.Reason.{number_of, reason_name, saved_name_of};

use intervals::RegPair;
use thiserror::Error;
use z80_decode::DecodeFault;

/// What an NMI routine has to restore: a register pair, or I.
#[derive(Clone, Copy, Debug, PartialEq, Eq)]
pub enum Saved {
    Pair(RegPair),
    I,
}

impl Saved {
    /// The name of the register or pair in the manual's spelling.
    pub fn name(self) -> &'static [u8]
        ensures { result.now ≡ saved_name_of self }
    {
        match self {
            Saved::Pair(pair) => pair.name(),
            Saved::I => b"I",
        }
    }
}

/// Why a certificate is refused (docs/CHECKER.md, "The table of reasons").
#[derive(Clone, Copy, Debug, Error, PartialEq, Eq)]
pub enum Reason {
    #[error("the ROM's length is 0, above 16,384, or not the certificate's")]
    Rom,
    #[error("the stack's region does not lie in work RAM")]
    Region,
    #[error("no row covers the entry state")]
    Entry,
    #[error("no instruction stands here: {0}")]
    Decode(DecodeFault),
    #[error("an I/O instruction")]
    IoSpace,
    #[error("a data write to the ROM")]
    WriteRom,
    #[error("a data write to an unmapped address")]
    WriteUnmapped,
    #[error("a data write to the stack's region")]
    StackOverwrite,
    #[error("a stack access before SP is set")]
    StackUnset,
    #[error("a stack access that does not fit the shape")]
    StackShape,
    #[error("more stack bytes than the depth says")]
    StackDepth,
    #[error("a state that no row covers")]
    NotCovered,
    #[error("a callee whose rank is not below the caller's")]
    Rank,
    #[error("a register that the NMI routine does not give back")]
    SavedRegister(Saved),
    #[error("an NMI may come before SP is set")]
    NmiBeforeStack,
    #[error("NMIs are enabled and there is no NMI routine")]
    NmiMissing,
    #[error("more T-states than the potential says")]
    Time,
    #[error("the NMI routine takes longer than the budget")]
    Budget,
    #[error("HALT in a timed procedure")]
    HaltInNmi,
    #[error("a write of SP other than the region's top")]
    SpWrite,
    #[error("a byte outside the range of an armed cell")]
    CellRange,
    #[error("NMIs are enabled before each cell is armed")]
    CellUnarmed,
}

impl Reason {
    /// The number of the reason in the table, 1 to 22.
    pub fn number(self) -> u8
        ensures value { result ≡ number_of self }
        ensures in_range { (1 ≤ result) × (result ≤ 22) }
    {
        match self {
            Reason::Rom => 1,
            Reason::Region => 2,
            Reason::Entry => 3,
            Reason::Decode(_) => 4,
            Reason::IoSpace => 5,
            Reason::WriteRom => 6,
            Reason::WriteUnmapped => 7,
            Reason::StackOverwrite => 8,
            Reason::StackUnset => 9,
            Reason::StackShape => 10,
            Reason::StackDepth => 11,
            Reason::NotCovered => 12,
            Reason::Rank => 13,
            Reason::SavedRegister(_) => 14,
            Reason::NmiBeforeStack => 15,
            Reason::NmiMissing => 16,
            Reason::Time => 17,
            Reason::Budget => 18,
            Reason::HaltInNmi => 19,
            Reason::SpWrite => 20,
            Reason::CellRange => 21,
            Reason::CellUnarmed => 22,
        }
    }

    /// The name of the reason in the table.
    pub fn name(self) -> &'static [u8]
        ensures { result.now ≡ reason_name self }
    {
        match self {
            Reason::Rom => b"Rom",
            Reason::Region => b"Region",
            Reason::Entry => b"Entry",
            Reason::Decode(_) => b"Decode",
            Reason::IoSpace => b"IoSpace",
            Reason::WriteRom => b"WriteRom",
            Reason::WriteUnmapped => b"WriteUnmapped",
            Reason::StackOverwrite => b"StackOverwrite",
            Reason::StackUnset => b"StackUnset",
            Reason::StackShape => b"StackShape",
            Reason::StackDepth => b"StackDepth",
            Reason::NotCovered => b"NotCovered",
            Reason::Rank => b"Rank",
            Reason::SavedRegister(_) => b"SavedRegister",
            Reason::NmiBeforeStack => b"NmiBeforeStack",
            Reason::NmiMissing => b"NmiMissing",
            Reason::Time => b"Time",
            Reason::Budget => b"Budget",
            Reason::HaltInNmi => b"HaltInNmi",
            Reason::SpWrite => b"SpWrite",
            Reason::CellRange => b"CellRange",
            Reason::CellUnarmed => b"CellUnarmed",
        }
    }
}
