// The address maps of the Galaxian and of the raised board.
ghost use Rattle.std.specs.Prelude.{◌≡◌, ◌≤◌, length};
ghost use Rattle.address_map.specs.Boards.{galaxian, raised, galaxian_zones, raised_zones, with_rom};

use crate::cell::RamKind;
use crate::map::{Input, Map, ReadClass};
use crate::rom::ROM_LIMIT;
use crate::zone::{WriteUse, Zone};
use arrayvec::ArrayVec;

fn zone(first: u16, last: u16, read: ReadClass, write: WriteUse) -> Zone
    ensures { result ≡ record { first = first; last = last; read = read; write = write } }
{
    Zone {
        first,
        last,
        read,
        write,
    }
}

/// An open zone.
fn open(first: u16, last: u16) -> Zone
    ensures { result ≡ record {
      first = first;
      last = last;
      read = ReadClass.Open;
      write =
          WriteUse.Open;
    } }
{
    zone(first, last, ReadClass::Open, WriteUse::Open)
}

/// A zone of one RAM, for reading and writing.
fn ram(first: u16, last: u16, kind: RamKind) -> Zone
    ensures { result ≡ record {
      first = first;
      last = last;
      read = ReadClass.Ram kind;
      write =
          WriteUse.Ram kind;
    } }
{
    zone(first, last, ReadClass::Ram(kind), WriteUse::Ram(kind))
}

/// A zone that reads an input.
fn input(first: u16, last: u16, input: Input, write: WriteUse) -> Zone
    ensures { result ≡ record {
      first = first;
      last = last;
      read = ReadClass.Input input;
      write =
          write;
    } }
{
    zone(first, last, ReadClass::Input(input), write)
}

/// The zones of the Galaxian board from 4000 to FFFF.
fn galaxian_zones() -> [Zone; 9]
    ensures { result ≡ galaxian_zones }
{
    [
        ram(0x4000, 0x47FF, RamKind::Work),
        open(0x4800, 0x4FFF),
        ram(0x5000, 0x57FF, RamKind::Video),
        ram(0x5800, 0x5FFF, RamKind::Object),
        input(0x6000, 0x67FF, Input::In0, WriteUse::Latch),
        input(0x6800, 0x6FFF, Input::In1, WriteUse::Latch),
        input(0x7000, 0x77FF, Input::In2, WriteUse::LatchWithEnable),
        zone(0x7800, 0x7FFF, ReadClass::Open, WriteUse::Pitch),
        open(0x8000, 0xFFFF),
    ]
}

/// The zones of the raised board from 4000 to FFFF.
fn raised_zones() -> [Zone; 10]
    ensures { result ≡ raised_zones }
{
    [
        open(0x4000, 0x7FFF),
        ram(0x8000, 0x87FF, RamKind::Work),
        open(0x8800, 0x8FFF),
        ram(0x9000, 0x97FF, RamKind::Video),
        ram(0x9800, 0x9FFF, RamKind::Object),
        input(0xA000, 0xA7FF, Input::In0, WriteUse::Latch),
        input(0xA800, 0xAFFF, Input::In1, WriteUse::Latch),
        input(0xB000, 0xB7FF, Input::In2, WriteUse::LatchWithEnable),
        zone(0xB800, 0xBFFF, ReadClass::Open, WriteUse::Pitch),
        open(0xC000, 0xFFFF),
    ]
}

/// The ROM from 0000, an open zone from its end to 3FFF, and the zones after that.
fn with_rom(rom_len: u16, behind: &[Zone]) -> ArrayVec<Zone, 16>
    requires some { 1 ≤ rom_len }
    requires fits { length behind.now ≤ 14 }
    ensures { result.items ≡ with_rom rom_len behind.now }
{
    let mut zones = ArrayVec::new();
    zones.push(zone(0, rom_len - 1, ReadClass::Rom, WriteUse::Rom));
    if rom_len < ROM_LIMIT {
        zones.push(open(rom_len, ROM_LIMIT - 1));
    }
    for zone in behind {
        zones.push(*zone);
    }
    zones
}

impl Map {
    /// The map of the Galaxian board for a ROM of 1 to 16,384 bytes (docs/BOARD.md, "Addresses").
    pub fn galaxian(rom_len: u16) -> Map
        requires some { 1 ≤ rom_len }
        requires fits { rom_len ≤ 0x4000 }
        ensures value { result ≡ galaxian rom_len }
        ensures length { result.rom_len ≡ rom_len }
    {
        Map::made(with_rom(rom_len, &galaxian_zones()), rom_len)
    }

    /// The map of the raised board for a ROM of 1 to 16,384 bytes. The board is this project's own: what the Galaxian
    /// board has from 4000 to 7FFF is 4000h higher (docs/BOARD.md, "Addresses").
    pub fn raised(rom_len: u16) -> Map
        requires some { 1 ≤ rom_len }
        requires fits { rom_len ≤ 0x4000 }
        ensures value { result ≡ raised rom_len }
        ensures length { result.rom_len ≡ rom_len }
    {
        Map::made(with_rom(rom_len, &raised_zones()), rom_len)
    }
}
