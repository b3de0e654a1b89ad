// Questions about the addresses of a range. The time depends on the number of zones, not of addresses.
ghost use Rattle.std.specs.Prelude.{◌≡◌, ◌↔◌, ◌≤◌, ◌<◌, IsTrue, min, max};
ghost use Rattle.std.specs.List.{list_any};
ghost use Rattle.address_map.specs.Ranges.{AllData, SomeWrite, SomeAtCell, SomeInRegion};
ghost use Rattle.address_map.specs.Shared.{share_cell, rom_in, unmapped_in, enable_in, cell_in};

use crate::cell::RamKind;
use crate::map::{Map, WriteClass};
use crate::region::Region;
use crate::zone::{WriteUse, Zone};
use intervals::WordRange;

/// Whether an address from `low` to `high` is congruent, modulo 400h, to one from `from` to `end - 1`.
fn share_cell(low: u16, high: u16, from: u32, end: u32) -> bool
    requires from { from < 0x10000 }
    requires end { end ≤ 0x10000 }
    ensures { result ≡ share_cell low high from end }
{
    if low > high || from >= end {
        return false;
    }
    // The differences of two such addresses are all numbers from low - end + 1 to high - from. With 10000h added to
    // both ends, the test looks for a multiple of 400h among them.
    let most = u32::from(high) + 0x10000 - from;
    u32::from(low) + 0x10001 <= most - most % 0x400 + end
}

impl Zone {
    /// The lower end of what the zone and a range share.
    fn low(&self, range: WordRange) -> u16
        ensures { result ≡ max self.now.first range.low }
    {
        self.first.max(range.low())
    }

    /// The upper end of what the zone and a range share. They share nothing if it is below the lower end.
    fn high(&self, range: WordRange) -> u16
        ensures { result ≡ min self.now.last range.high }
    {
        self.last.min(range.high())
    }

    /// Whether some address of the range lies in this zone and is ROM for writing.
    fn has_rom(&self, range: WordRange) -> bool
        ensures { result ≡ rom_in range self.now }
    {
        matches!(self.write, WriteUse::Rom) && self.low(range) <= self.high(range)
    }

    /// Whether some address of the range lies in this zone and is unmapped.
    fn has_unmapped(&self, range: WordRange) -> bool
        ensures { result ≡ unmapped_in range self.now }
    {
        matches!(self.write, WriteUse::Open) && self.low(range) <= self.high(range)
    }

    /// Whether some address of the range lies in this zone and is the NMI enable.
    fn has_enable(&self, range: WordRange) -> bool
        ensures { result ≡ enable_in range self.now }
    {
        let high = u32::from(self.high(range));
        matches!(self.write, WriteUse::LatchWithEnable)
            && u32::from(self.low(range)) + (high + 7) % 8 <= high
    }

    /// Whether some address of the range lies in this zone and folds to the cell of an address from `from` to `end -
    /// 1`.
    fn has_cell(&self, range: WordRange, from: u32, end: u32) -> bool
        requires from { from < 0x10000 }
        requires end { end ≤ 0x10000 }
        ensures { result ≡ cell_in from end range self.now }
    {
        matches!(self.write, WriteUse::Ram(RamKind::Work))
            && share_cell(self.low(range), self.high(range), from, end)
    }
}

impl Map {
    /// Whether each address of the range takes data: none is ROM or unmapped, and none folds to a cell of the region.
    pub fn all_data(&self, range: WordRange, region: Region) -> bool
        ensures { IsTrue result ↔ AllData self.now range region }
    {
        !self.some_rom(range) && !self.some_unmapped(range) && !self.some_in_region(range, region)
    }

    /// Whether some address of the range is ROM for writing.
    pub fn some_rom(&self, range: WordRange) -> bool
        ensures { IsTrue result ↔ SomeWrite self.now range WriteClass.Rom }
    {
        self.is_map();
        any_rom(self.zones(), range)
    }

    /// Whether some address of the range is unmapped for writing.
    pub fn some_unmapped(&self, range: WordRange) -> bool
        ensures { IsTrue result ↔ SomeWrite self.now range WriteClass.Unmapped }
    {
        self.is_map();
        any_unmapped(self.zones(), range)
    }

    /// Whether some address of the range is the NMI enable.
    pub fn some_enable(&self, range: WordRange) -> bool
        ensures { IsTrue result ↔ SomeWrite self.now range WriteClass.NmiEnable }
    {
        self.is_map();
        any_enable(self.zones(), range)
    }

    /// Whether some address of the range folds to the cell of work RAM with the number `index` modulo 400h.
    pub fn some_at_cell(&self, range: WordRange, index: u16) -> bool
        ensures { IsTrue result ↔ SomeAtCell self.now range index }
    {
        self.is_map();
        any_cell(self.zones(), range, u32::from(index), u32::from(index) + 1)
    }

    /// Whether some address of the range folds to the same cell of work RAM as an address of the region.
    pub fn some_in_region(&self, range: WordRange, region: Region) -> bool
        ensures { IsTrue result ↔ SomeInRegion self.now range region }
    {
        self.is_map();
        any_cell(
            self.zones(),
            range,
            u32::from(region.low),
            u32::from(region.top),
        )
    }
}

fn any_rom(zones: &[Zone], range: WordRange) -> bool
    ensures { result ≡ list_any (rom_in range) zones.now }
{
    zones.iter().any(|zone| zone.has_rom(range))
}

fn any_unmapped(zones: &[Zone], range: WordRange) -> bool
    ensures { result ≡ list_any (unmapped_in range) zones.now }
{
    zones.iter().any(|zone| zone.has_unmapped(range))
}

fn any_enable(zones: &[Zone], range: WordRange) -> bool
    ensures { result ≡ list_any (enable_in range) zones.now }
{
    zones.iter().any(|zone| zone.has_enable(range))
}

fn any_cell(zones: &[Zone], range: WordRange, from: u32, end: u32) -> bool
    requires from { from < 0x10000 }
    requires end { end ≤ 0x10000 }
    ensures { result ≡ list_any (cell_in from end range) zones.now }
{
    zones.iter().any(|zone| zone.has_cell(range, from, end))
}
