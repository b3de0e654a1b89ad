// Searches and counts in lists of zones.
ghost use Rattle.std.specs.Prelude.{◌≡◌, ◌≢◌, ◌≤◌, ◌<◌, ◌/◌, nat_lt, true, get_or};
ghost use Rattle.std.specs.List.{count_by, list_all};
ghost use Rattle.address_map.specs.MapLaw.{OneZoneBelow, zones_at, has_work, has_rom};
ghost use Rattle.address_map.specs.Pages.{ArePages};
ghost use Rattle.address_map.specs.Zone.{first_zone, in_zone, class_in, no_zone};
ghost use Rattle.address_map.specs.ZoneUse.{names_work, names_rom, fits_ram, fits_rom, reaches};

use crate::map::Class;
use crate::zone::Zone;

/// The number of zones that contain an address.
#[tactic(auto, unfolding(crate::specs::MapLaw::zones_at))]
pub(crate) fn zones_at(zones: &[Zone], address: u16) -> usize
    ensures { result ≡ zones_at zones.now address }
{
    zones.iter().filter(|zone| zone.holds(address)).count()
}

/// `address` if it is below `least` and not in exactly one zone, else `least`. 10000h means none.
fn earlier_fault(zones: &[Zone], least: u32, address: u32) -> u32
    requires least { least ≤ 0x10000 }
    ensures least { result ≤ least }
    ensures here { address < result → zones_at zones.now address ≡ 1 }
    ensures kept { (least < 0x10000 → zones_at zones.now least ≢ 1) → result < 0x10000
        → zones_at zones.now result ≢ 1 }
{
    if address < least && zones_at(zones, address as u16) != 1 {
        address
    } else {
        least
    }
}

/// The lowest address that is not in exactly one zone, or 10000h. The number of zones changes only where a zone begins
/// or just after one ends, so only these addresses are tested.
pub(crate) fn first_fault(zones: &[Zone]) -> u32
    ensures within { result ≤ 0x10000 }
    ensures below { OneZoneBelow zones.now result }
    ensures at { result < 0x10000 → zones_at zones.now result ≢ 1 }
    ensures ends { list_all (λ z. nat_lt z.last 0x10000) zones.now ≡ true }
{
    let mut least = earlier_fault(zones, 0x10000, 0);
    for zone in zones {
        least = earlier_fault(zones, least, u32::from(zone.first));
        least = earlier_fault(zones, least, u32::from(zone.last) + 1);
    }
    least
}

/// The number of zones that name work RAM.
fn count_work(zones: &[Zone]) -> usize
    ensures { result ≡ count_by names_work zones.now }
{
    zones.iter().filter(|zone| zone.names_work()).count()
}

/// Whether the RAM of each zone obeys the rules of a map.
fn all_fit_ram(zones: &[Zone]) -> bool
    ensures { result ≡ list_all fits_ram zones.now }
{
    zones.iter().all(|zone| zone.fits_ram())
}

/// Whether work RAM obeys the rules of a map.
#[tactic(auto, unfolding(crate::specs::MapLaw::has_work))]
pub(crate) fn has_work(zones: &[Zone]) -> bool
    ensures { result ≡ has_work zones.now }
{
    count_work(zones) == 1 && all_fit_ram(zones)
}

/// The number of zones that name the ROM.
fn count_rom(zones: &[Zone]) -> usize
    ensures { result ≡ count_by names_rom zones.now }
{
    zones.iter().filter(|zone| zone.names_rom()).count()
}

/// Whether each zone that names the ROM is right for this length.
fn all_fit_rom(zones: &[Zone], rom_len: u16) -> bool
    ensures { result ≡ list_all (fits_rom rom_len) zones.now }
{
    zones.iter().all(|zone| zone.fits_rom(rom_len))
}

/// Whether the ROM obeys the rules of a map.
#[tactic(auto, unfolding(crate::specs::MapLaw::has_rom))]
pub(crate) fn has_rom(zones: &[Zone], rom_len: u16) -> bool
    ensures { result ≡ has_rom rom_len zones.now }
{
    count_rom(zones) == 1 && all_fit_rom(zones, rom_len)
}

/// The first zone that names work RAM, or an empty zone.
pub(crate) fn first_work(zones: &[Zone]) -> Zone
    ensures { result ≡ first_zone names_work zones.now }
{
    for zone in zones {
        if zone.names_work() {
            return *zone;
        }
    }
    Zone::default()
}

/// The class of an address in the first zone that contains it; open without one.
fn class_among(zones: &[Zone], address: u16) -> Class
    ensures { result ≡ class_in (first_zone (in_zone address) zones.now) address }
{
    for zone in zones {
        if zone.holds(address) {
            return zone.class(address);
        }
    }
    Zone::default().class(address)
}

/// The page table's zone for an address.
#[inline]
fn zone_by(pages: &[Zone; 256], address: u16) -> &Zone
    ensures { result.now ≡ get_or pages.now (address / 0x100) no_zone }
{
    &pages[usize::from(address / 0x100)]
}

/// The class of an address in the first zone that contains it; open without one. The page table mostly has that zone.
#[inline]
#[tactic(auto, using(crate::proofs::PageLemmas::table_says, crate::proofs::PageLemmas::first_of_page))]
pub(crate) fn class_by(zones: &[Zone], pages: &[Zone; 256], address: u16) -> Class
    requires { ArePages zones.now pages.now }
    ensures { result ≡ class_in (first_zone (in_zone address) zones.now) address }
{
    let zone = zone_by(pages, address);
    if zone.holds(address) {
        zone.class(address)
    } else {
        class_among(zones, address)
    }
}

/// The first zone that may contain an address with these eight high bits, or an empty zone.
fn first_reaching(zones: &[Zone], page: u16) -> Zone
    ensures { result ≡ first_zone (reaches page) zones.now }
{
    for zone in zones {
        if zone.reaches(page) {
            return *zone;
        }
    }
    Zone::default()
}

/// The page table: for each eight high bits of an address, the first zone that may contain it.
pub(crate) fn pages_of(zones: &[Zone]) -> [Zone; 256]
    ensures { ArePages zones.now result }
{
    let mut pages = [Zone::default(); 256];
    for page in 0..256u16 {
        pages[usize::from(page)] = first_reaching(zones, page);
    }
    pages
}
