// The RAMs of a board and their cells.
ghost use Rattle.std.specs.Prelude.{◌≡◌, ℕ, ◌<◌};
ghost use Rattle.address_map.specs.RamKind.{size_of};
ghost use Rattle.address_map.specs.ZoneUse.{same_kind};

use std::marker::Model;

/// One of the three RAMs of the board (docs/BOARD.md, "Addresses").
#[derive(Clone, Copy, PartialEq, Eq)]
pub enum RamKind {
    /// 1,024 bytes for the stack and the variables.
    Work,
    /// 1,024 bytes of picture.
    Video,
    /// 256 bytes of sprites and column attributes.
    Object,
}

impl RamKind {
    /// The size of the RAM in bytes, 1,024 or 256.
    pub fn size(self) -> u16
        ensures { result ≡ size_of self }
    {
        match self {
            RamKind::Work | RamKind::Video => 0x400,
            RamKind::Object => 0x100,
        }
    }

    /// Whether both are the same RAM.
    pub(crate) fn is(self, other: RamKind) -> bool
        ensures { result ≡ same_kind self other }
    {
        matches!(
            (self, other),
            (RamKind::Work, RamKind::Work)
                | (RamKind::Video, RamKind::Video)
                | (RamKind::Object, RamKind::Object)
        )
    }
}

/// A cell: one byte of a RAM. Its index counts from 0.
#[derive(Drop)]
pub struct Cell {
    ram: RamKind,
    index: u16,
}

impl Model for Cell {
    ghost use Rattle.std.specs.Prelude.{ℕ, ◌<◌, ◌≡◌};
    ghost use Rattle.address_map.specs.declared.cell.RamKind.{RamKind};

    ghost Value = { RamKind × ℕ };

    ghost use Rattle.address_map.specs.RamKind.{size_of};

    ghost view = { λ c. (c.ram, c.index) };

    ghost invariant = { λ c. c.index < size_of c.ram };
}

impl Cell {
    /// The cell of a RAM at an index, which must be below the RAM's size.
    pub fn new(ram: RamKind, index: u16) -> Cell
        requires { index < size_of ram }
        ensures { result ≡ (ram, index) }
    {
        Cell { ram, index }
    }

    /// The cell's RAM.
    pub fn ram(&self) -> RamKind
        ensures { result ≡ self.now.0 }
    {
        self.ram
    }

    /// The index of the cell in its RAM, from 0.
    pub fn index(&self) -> u16
        ensures value { result ≡ self.now.1 }
        ensures in_range { result < size_of self.now.0 }
    {
        self.index
    }
}
