// Where the data writes of a row go, and what they do to the cells and the NMI.

ghost use Rattle.std.specs.Prelude.{◌≡◌, ◌↔◌, ◌≤◌, IsTrue, length};
ghost use Rattle.std.specs.List.{All};
ghost use Rattle.address_map.specs.Ranges.{SomeAtCell};
ghost use Rattle.address_map.specs.declared.map.WriteClass.TheVariants as classes;
ghost use Rattle.abs_laws.specs.Writes.{AllKeep, KeepsCells, MissesRegion, NeverEnables};
ghost use Rattle.check_writes.specs.Writes.{FindsArmed, MissesClass};
ghost use Rattle.intervals.specs.Range.{Covers};

use abs_draft::{DataWrite, Ground};
use abs_state::KeptCell;
use address_map::{Map, Region};
use intervals::Domain;

/// Whether no data write may go to the ROM.
pub fn all_miss_rom(map: &Map, writes: &[DataWrite]) -> bool
    ensures { IsTrue result ↔ All (MissesClass map.now classes.Rom) writes.now }
{
    for write in writes {
        if !misses_rom_zone(map, write) {
            return false;
        }
    }
    true
}

/// Whether no address of a data write is in the ROM.
fn misses_rom_zone(map: &Map, write: &DataWrite) -> bool
    ensures { IsTrue result ↔ MissesClass map.now classes.Rom write.now }
{
    !map.some_rom(write.at)
}

/// Whether no data write may go to where nothing listens.
pub fn all_miss_unmapped(map: &Map, writes: &[DataWrite]) -> bool
    ensures { IsTrue result ↔ All (MissesClass map.now classes.Unmapped) writes.now }
{
    for write in writes {
        if !misses_open_zone(map, write) {
            return false;
        }
    }
    true
}

/// Whether no address of a data write is unmapped.
fn misses_open_zone(map: &Map, write: &DataWrite) -> bool
    ensures { IsTrue result ↔ MissesClass map.now classes.Unmapped write.now }
{
    !map.some_unmapped(write.at)
}

/// Whether no data write may go to a cell of the stack region, mirrors included.
pub fn all_miss_region(map: &Map, region: Region, writes: &[DataWrite]) -> bool
    ensures { IsTrue result ↔ All (MissesRegion map.now region) writes.now }
{
    for write in writes {
        if !misses_region(map, region, write) {
            return false;
        }
    }
    true
}

/// Whether no address of a data write is a cell of the stack region, mirrors included.
fn misses_region(map: &Map, region: Region, write: &DataWrite) -> bool
    ensures { IsTrue result ↔ MissesRegion map.now region write.now }
{
    !map.some_in_region(write.at, region)
}

/// Whether no data write may enable the NMI.
pub fn none_enables(ground: &Ground, writes: &[DataWrite]) -> bool
    ensures { IsTrue result ↔ All (NeverEnables ground.now.map) writes.now }
{
    writes.iter().all(|write| !ground.may_enable(write))
}

/// Whether each data write keeps the ranges of the cells that are armed before it. `armed` is their number before the
/// first write.
pub fn all_keep(ground: &Ground, map: &Map, armed: u16, writes: &[DataWrite]) -> bool
    requires map { map.now ≡ ground.now.map }
    requires cells { length ground.now.cells ≤ 256 }
    ensures { IsTrue result ↔ AllKeep ground.now armed writes.now }
{
    let mut armed = armed;
    for write in writes {
        if !keeps_cells(map, ground.armed(armed), write) {
            return false;
        }
        armed = ground.armed_after(write, armed);
    }
    true
}

/// Whether a data write that may go to one of these cells writes a byte of its range.
fn keeps_cells(map: &Map, cells: &[KeptCell], write: &DataWrite) -> bool
    ensures { IsTrue result ↔ KeepsCells map.now cells.now write.now }
{
    cells.iter().all(|cell| keeps_cell(map, cell, write))
}

/// Whether a data write misses a cell, or writes a byte of its range.
fn keeps_cell(map: &Map, cell: &KeptCell, write: &DataWrite) -> bool
    ensures { IsTrue result
        ↔ (SomeAtCell map.now write.now.at cell.now.at → Covers cell.now.range write.now.byte) }
{
    !map.some_at_cell(write.at, cell.at) || cell.range.covers(&write.byte)
}

/// Whether all `count` cells are armed before each data write that may enable the NMI. `armed` is the number of armed
/// cells before the first write.
pub fn find_armed(ground: &Ground, count: usize, armed: u16, writes: &[DataWrite]) -> bool
    requires count { count ≡ length ground.now.cells }
    requires cells { length ground.now.cells ≤ 256 }
    ensures { IsTrue result ↔ FindsArmed ground.now armed writes.now }
{
    let mut armed = armed;
    for write in writes {
        if usize::from(armed) < count && ground.may_enable(write) {
            return false;
        }
        armed = ground.armed_after(write, armed);
    }
    true
}
