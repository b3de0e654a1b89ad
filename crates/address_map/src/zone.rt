// Zones of an address map.
ghost use Rattle.std.specs.Prelude.{◌≡◌, ◌<◌};
ghost use Rattle.address_map.specs.Zone.{in_zone, class_in, write_class, upper_latch, no_zone};
ghost use Rattle.address_map.specs.ZoneUse.{reaches, names_work, fits_ram, names_rom, fits_rom};

use crate::cell::RamKind;
use crate::map::{Class, ReadClass, WriteClass};

/// What a zone is for writing.
#[derive(Clone, Copy, PartialEq, Eq)]
pub enum WriteUse {
    /// The ROM: a data write here is a trap.
    Rom,
    Ram(RamKind),
    /// Latches without state in this model, numbered by the address modulo 8.
    Latch,
    /// The same, but latch number 1 is the NMI enable.
    LatchWithEnable,
    /// The pitch of the sound, without state in this model.
    Pitch,
    /// Unmapped: a data write here is a trap.
    Open,
}

/// The addresses from `first` to `last`, both included, with one use for reading and one for writing. If `first` is
/// above `last`, the zone is empty.
#[derive(Clone, Copy, PartialEq, Eq)]
pub struct Zone {
    pub first: u16,
    pub last: u16,
    pub read: ReadClass,
    pub write: WriteUse,
}

impl Default for Zone {
    ghost is_default = { λ z. z ≡ no_zone };

    /// An empty, open zone.
    fn default() -> Zone {
        Zone {
            first: 1,
            last: 0,
            read: ReadClass::Open,
            write: WriteUse::Open,
        }
    }
}

impl Zone {
    /// Whether an address lies in the zone.
    #[inline]
    pub fn holds(&self, address: u16) -> bool
        ensures { result ≡ in_zone address self.now }
    {
        self.first <= address && address <= self.last
    }

    /// The class of an address of the zone.
    #[inline]
    pub fn class(&self, address: u16) -> Class
        ensures { result ≡ class_in self.now address }
    {
        let number = (address % 8) as u8;
        let write = match self.write {
            WriteUse::Rom => WriteClass::Rom,
            WriteUse::Ram(ram) => WriteClass::Ram(ram),
            WriteUse::Latch => WriteClass::Latch(number),
            WriteUse::LatchWithEnable if number == 1 => WriteClass::NmiEnable,
            WriteUse::LatchWithEnable => WriteClass::Latch(number),
            WriteUse::Pitch => WriteClass::Pitch,
            WriteUse::Open => WriteClass::Unmapped,
        };
        Class {
            read: self.read,
            write,
        }
    }

    /// Whether the zone may contain an address with these eight high bits.
    pub(crate) fn reaches(&self, page: u16) -> bool
        ensures { result ≡ reaches page self.now }
    {
        self.first / 0x100 <= page && page <= self.last / 0x100
    }

    /// Whether the zone names work RAM for reading or for writing.
    pub(crate) fn names_work(&self) -> bool
        ensures { result ≡ names_work self.now }
    {
        matches!(self.read, ReadClass::Ram(RamKind::Work))
            || matches!(self.write, WriteUse::Ram(RamKind::Work))
    }

    /// Whether the RAM of the zone obeys the rules of a map.
    pub(crate) fn fits_ram(&self) -> bool
        ensures { result ≡ fits_ram self.now }
    {
        let is_one_ram = match (self.read, self.write) {
            (ReadClass::Ram(read), WriteUse::Ram(written)) => read.is(written),
            (ReadClass::Ram(_), _) | (_, WriteUse::Ram(_)) => false,
            _ => true,
        };
        is_one_ram
            && (!self.names_work()
                || (self.first % 0x400 == 0
                    && u32::from(self.first) + 0x400 <= u32::from(self.last) + 1))
    }

    /// Whether the zone names the ROM for reading or for writing.
    pub(crate) fn names_rom(&self) -> bool
        ensures { result ≡ names_rom self.now }
    {
        matches!(self.read, ReadClass::Rom) || matches!(self.write, WriteUse::Rom)
    }

    /// Whether the zone, if it names the ROM, is right for a ROM of this length.
    pub(crate) fn fits_rom(&self, rom_len: u16) -> bool
        ensures { result ≡ fits_rom rom_len self.now }
    {
        !self.names_rom()
            || (matches!(self.read, ReadClass::Rom)
                && matches!(self.write, WriteUse::Rom)
                && self.first == 0
                && u32::from(self.last) + 1 == u32::from(rom_len))
    }
}
