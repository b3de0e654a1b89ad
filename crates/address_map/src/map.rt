// The address map of a board: zones that contain each address exactly once.
ghost use Rattle.std.specs.Prelude.{◌≡◌, ◌≢◌, IfOk, IfErr, true, false};
ghost use Rattle.address_map.specs.AddressMap.{map_of};
ghost use Rattle.address_map.specs.MapLaw.{IsMap, IsFirstFault};
ghost use Rattle.address_map.specs.Class.{class_of};
ghost use Rattle.address_map.specs.Cell.{cell_of};
ghost use Rattle.address_map.specs.WorkRam.{work_class, work_start};
ghost use Rattle.address_map.specs.declared.cell.RamKind.TheVariants as rams;
ghost use Rattle.address_map.specs.declared.map.WriteClass.TheVariants as writes;

use crate::cell::{Cell, RamKind};
use crate::fault::MapFault;
use crate::list;
use crate::zone::Zone;
use arrayvec::ArrayVec;
use std::marker::Model;

/// The address map of a board: at most 16 zones, and each address from 0000 to FFFF lies in exactly one. One zone is
/// the ROM and one is work RAM.
#[derive(Drop)]
pub struct Map {
    work_start: u16,
    work_last: u16,
    rom_len: u16,
    zones: ArrayVec<Zone, 16>,
    pages: [Zone; 256],
}

impl Model for Map {
    ghost use Rattle.address_map.specs.AddressMap.{MapView, map_of};
    ghost use Rattle.address_map.specs.MapLaw.{IsMap};
    ghost use Rattle.address_map.specs.Pages.{ArePages};
    ghost use Rattle.address_map.specs.WorkRam.{IsWork};

    ghost Value = { MapView };

    ghost view = { λ m. map_of m.zones.items m.rom_len };

    ghost invariant = { λ m. IsMap (map_of m.zones.items m.rom_len) × ArePages m.zones.items m.pages × IsWork (map_of m.zones.items m.rom_len) m.work_start m.work_last };
}

/// One of the board's three inputs.
#[derive(Clone, Copy, PartialEq, Eq)]
pub enum Input {
    In0,
    In1,
    In2,
}

/// What a read of an address finds.
#[derive(Clone, Copy, PartialEq, Eq)]
pub enum ReadClass {
    Rom,
    Ram(RamKind),
    Input(Input),
    /// Nothing drives the bus; the environment gives the byte.
    Open,
}

/// What a write to an address does.
#[derive(Clone, Copy, PartialEq, Eq)]
pub enum WriteClass {
    /// The ROM: a data write here is a trap.
    Rom,
    Ram(RamKind),
    /// A latch without state in this model, by its number, 0 to 7.
    Latch(u8),
    /// The latch with the NMI enable, in bit 0.
    NmiEnable,
    /// The pitch of the sound, without state in this model.
    Pitch,
    /// Unmapped: a data write here is a trap.
    Unmapped,
}

/// What an address is for reading and for writing (docs/BOARD.md, "Addresses").
#[derive(Clone, Copy, PartialEq, Eq)]
pub struct Class {
    pub read: ReadClass,
    pub write: WriteClass,
}

impl Map {
    /// The map made of these zones, for a ROM of `rom_len` bytes.
    ///
    /// # Errors
    ///
    /// The first fault, in the order of `MapFault`.
    pub fn of(zones: ArrayVec<Zone, 16>, rom_len: u16) -> Result<Map, MapFault>
        ensures ok { IfOk result (λ m. m ≡ map_of zones.items rom_len) }
        ensures law { IfOk result IsMap }
        ensures err { IfErr result (λ fault. IsFirstFault (map_of zones.items rom_len) fault) }
    {
        let fault = list::first_fault(zones.as_slice());
        if fault <= 0xFFFF {
            let address = fault as u16;
            if list::zones_at(zones.as_slice(), address) == 0 {
                Err(MapFault::Gap(address))
            } else {
                Err(MapFault::Overlap(address))
            }
        } else if !list::has_work(zones.as_slice()) {
            Err(MapFault::Work)
        } else if !list::has_rom(zones.as_slice(), rom_len) {
            Err(MapFault::Rom)
        } else {
            Ok(Map::made(zones, rom_len))
        }
    }

    /// The map made of zones that obey the rules.
    #[tactic(auto, unfolding(crate::specs::WorkRam::work_start, crate::specs::WorkRam::work_last))]
    pub(crate) fn made(zones: ArrayVec<Zone, 16>, rom_len: u16) -> Map
        requires { IsMap (map_of zones.items rom_len) }
        ensures { result ≡ map_of zones.items rom_len }
    {
        let work = list::first_work(zones.as_slice());
        let pages = list::pages_of(zones.as_slice());
        Map {
            work_start: work.first,
            work_last: work.last,
            rom_len,
            zones,
            pages,
        }
    }

    /// A law: a map obeys its rules. Each address from 0000 to FFFF lies in exactly one zone, one zone is work RAM and
    /// one is the ROM.
    pub fn is_map(&self)
        ensures { IsMap self.now }
    {
        let _ = &self.rom_len;
    }

    /// The zones, in the order in which they were given.
    pub fn zones(&self) -> &[Zone]
        ensures { result.now ≡ self.now.zones }
    {
        self.zones.as_slice()
    }

    /// The length of the ROM in bytes, 1 to 65,535.
    pub fn rom_len(&self) -> u16
        ensures { result ≡ self.now.rom_len }
    {
        self.rom_len
    }

    /// The first address of work RAM, a multiple of 400h.
    pub fn work_start(&self) -> u16
        ensures { result ≡ work_start self.now }
    {
        self.work_start
    }

    /// Whether an address belongs to work RAM, for reading and writing. Faster than `class`.
    #[inline(always)]
    pub fn is_work(&self, address: u16) -> bool
        ensures work { result ≡ true → class_of self.now address ≡ work_class }
        ensures other { result ≡ false → (class_of self.now address).write ≢ writes.Ram rams.Work }
    {
        self.work_start <= address && address <= self.work_last
    }

    /// The class of an address.
    #[inline]
    #[tactic(auto, unfolding(crate::specs::Class::class_of))]
    pub fn class(&self, address: u16) -> Class
        ensures { result ≡ class_of self.now address }
    {
        list::class_by(self.zones.as_slice(), &self.pages, address)
    }

    /// The cell of RAM that an address reads and writes, or None where there is no RAM.
    #[inline]
    pub fn cell(&self, address: u16) -> Option<Cell>
        ensures { result ≡ cell_of self.now address }
    {
        match self.class(address).write {
            WriteClass::Ram(ram) => Some(Cell::new(ram, address % ram.size())),
            _ => None,
        }
    }
}
