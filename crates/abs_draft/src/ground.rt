// The ground: what is the same for all rows, and what data reads and writes do there.
ghost use Rattle.std.specs.Prelude.{◌≡◌, ◌≤◌, ◌<◌, take, drop, length, Option, Some, None};
ghost use Rattle.address_map.specs.Class.{class_of};
ghost use Rattle.address_map.specs.Cell.{cell_of};
ghost use Rattle.abs_draft.specs.Ground.{ground_of, any_address, is_enable, some_odd, may_enable, mode_after, is_work_cell, cell_at, has_range, arms, armed_after, span, least_of, greatest_of, bytes_at, rom_range, read_one, read_range};

use crate::data_write::DataWrite;
use abs_state::{KeptCell, Mode};
use address_map::{Map, RamKind, Rom};
use intervals::{ByteRange, Domain, WordRange};
use std::marker::Model;

/// What is the same for all rows: the ROM, its map, and the kept cells, at most 256.
#[derive(Drop)]
pub struct Ground<'a> {
    rom: &'a Rom<'a>,
    map: &'a Map,
    cells: &'a [KeptCell],
}

impl<'a> Model for Ground<'a> {
    ghost use Rattle.abs_draft.specs.Ground.{GroundView};

    ghost Value = { GroundView };

    ghost view = { λ g. record { rom = g.rom.now; map = g.map.now; cells = g.cells.now } };
}

/// Whether some byte of the range is odd.
fn some_odd(range: ByteRange) -> bool
    ensures { result ≡ some_odd range }
{
    range.low() % 2 == 1 || range.low() < range.high()
}

/// Whether some address of the range is the NMI enable.
fn some_enable(map: &Map, range: WordRange) -> bool
    ensures { result ≡ any_address (λ address. is_enable (class_of map.now address).write) range }
{
    map.some_enable(range)
}

/// The range from the least to the greatest of these bytes.
fn span(bytes: &[u8]) -> ByteRange
    ensures { result ≡ span bytes.now }
{
    let Some((first, rest)) = bytes.split_first() else {
        return ByteRange::full();
    };
    hull_with(ByteRange::single(*first), rest)
}

/// The hull of a range and some bytes.
#[tactic(auto, unfolding(crate::specs::Ground::least_of, crate::specs::Ground::greatest_of))]
fn hull_with(range: ByteRange, bytes: &[u8]) -> ByteRange
    ensures { result ≡ record { low = least_of range.low bytes.now; high = greatest_of range.high bytes.now } }
{
    let mut wide = range;
    for byte in bytes {
        wide = wide.join(&ByteRange::single(*byte));
    }
    wide
}

/// Whether `address` folds to the cell of work RAM at `at`.
fn is_at_cell(map: &Map, address: u16, at: u16) -> bool
    ensures { result ≡ is_work_cell (cell_of map.now address) at }
{
    match map.cell(address) {
        Some(cell) => matches!(cell.ram(), RamKind::Work) && cell.index() == at % 0x400,
        None => false,
    }
}

/// The first of the cells to which the address folds.
fn cell_at(map: &Map, address: u16, cells: &[KeptCell]) -> Option<KeptCell>
    ensures { result ≡ cell_at map.now address cells.now }
{
    for cell in cells {
        if is_at_cell(map, address, cell.at) {
            return Some(*cell);
        }
    }
    None
}

impl DataWrite {
    /// Whether the write arms a cell.
    fn arms(&self, map: &Map, cell: Option<KeptCell>) -> bool
        ensures { result ≡ arms map.now self.now cell }
    {
        match cell {
            Some(cell) => {
                self.at.low() == self.at.high()
                    && is_at_cell(map, self.at.low(), cell.at)
                    && cell.range.covers(&self.byte)
            }
            None => false,
        }
    }
}

/// The mode after a write that may or may not enable the NMI.
pub(crate) fn mode_after(enables: bool, mode: Mode) -> Mode
    ensures { result ≡ mode_after enables mode }
{
    match mode {
        Mode::Set if enables => Mode::Nmi,
        mode => mode,
    }
}

impl<'a> Ground<'a> {
    /// A ground that borrows a ROM, its map, and the kept cells, at most 256.
    pub fn of(rom: &'a Rom<'a>, map: &'a Map, cells: &'a [KeptCell]) -> Ground<'a>
        ensures { result ≡ ground_of rom.now map.now cells.now }
    {
        Ground { rom, map, cells }
    }

    /// Whether a write may enable the NMI: some of its addresses is the NMI enable, and some of its bytes is odd.
    pub fn may_enable(&self, write: &DataWrite) -> bool
        ensures { result ≡ may_enable self.now.map write.now }
    {
        some_enable(self.map, write.at) && some_odd(write.byte)
    }

    /// The number of armed cells after a write, given the number before it.
    pub fn armed_after(&self, write: &DataWrite, armed: u16) -> u16
        requires { length self.now.cells ≤ 256 }
        ensures { result ≡ armed_after self.now write.now armed }
    {
        let next = self.cells.get(usize::from(armed)).copied();
        if write.arms(self.map, next) {
            armed + 1
        } else {
            armed
        }
    }

    fn rom_range(&self, at: WordRange) -> ByteRange
        ensures { result ≡ rom_range self.now.rom at }
    {
        if at.high() >= self.rom.len() {
            return ByteRange::full();
        }
        let bytes = self.rom.bytes_from(at.low());
        span(&bytes[..usize::from(at.high() - at.low()) + 1])
    }

    /// The first `armed` of the kept cells.
    pub fn armed(&self, armed: u16) -> &[KeptCell]
        ensures { result.now ≡ take armed self.now.cells }
    {
        let count = self.cells.len().min(usize::from(armed));
        &self.cells[..count]
    }

    /// The range of the byte that a data read finds, given the number of armed cells.
    pub(crate) fn read(&self, armed: u16, at: WordRange) -> ByteRange
        ensures { result ≡ read_range self.now armed at }
    {
        if at.low() == at.high() {
            match cell_at(self.map, at.low(), self.armed(armed)) {
                Some(cell) => cell.range,
                None => self.rom_range(at),
            }
        } else {
            self.rom_range(at)
        }
    }
}
