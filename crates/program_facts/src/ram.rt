// Which instructions store and read each byte of RAM.

use crate::accesses::{Access, Accesses, SWEEP, WIDE};
use crate::covered::RangeEnds;
use address_map::{Map, RamKind, WriteUse};
use intervals::WordRange;
use listing::View;
use std::alloc::{AllocError, Global};

/// The three RAMs, in the order in which they are shown.
pub const RAMS: [RamKind; 3] = [RamKind::Work, RamKind::Video, RamKind::Object];

/// The place of a RAM among them.
fn place_of(ram: RamKind) -> usize {
    match ram {
        RamKind::Work => 0,
        RamKind::Video => 1,
        RamKind::Object => 2,
    }
}

/// Who uses the bytes of one RAM.
#[derive(Drop)]
pub struct RamUse {
    pub ram: RamKind,
    /// The first address of the RAM.
    pub base: u16,
    /// For each byte, the instructions that store there, without sweeps, rising.
    pub writers: Vec<Vec<u16>>,
    /// For each byte, the instructions that read there, without those of 64 addresses or more, rising.
    pub readers: Vec<Vec<u16>>,
    /// Whether a sweep stores there.
    pub swept: Vec<bool>,
    /// Whether some instruction may read there.
    pub read: Vec<bool>,
}

impl RamUse {
    fn new(alloc: Global, map: &Map, ram: RamKind) -> Result<RamUse, AllocError> {
        let size = usize::from(ram.size());
        let mut found = RamUse {
            ram,
            base: base_of(map, ram),
            writers: Vec::new(alloc),
            readers: Vec::new(alloc),
            swept: vec![in alloc; false; size]?,
            read: vec![in alloc; false; size]?,
        };
        for _ in 0..size {
            found.writers.push(Vec::new(alloc))?;
            found.readers.push(Vec::new(alloc))?;
        }
        Ok(found)
    }

    /// The three RAMs of a program.
    pub fn all(alloc: Global, view: &View, accesses: &Accesses) -> Result<Vec<RamUse>, AllocError> {
        let map = view.accepted().map();
        let mut rams = Vec::new(alloc);
        for ram in RAMS {
            rams.push(RamUse::new(alloc, map, ram)?)?;
        }
        let mut swept = RangeEnds::new(alloc)?;
        for store in &accesses.stores {
            if store.is_sweep() {
                add_ranges(&mut swept, store, 0x1_0000);
            } else {
                add_users(&mut rams, map, store, true)?;
            }
        }
        let mut read = RangeEnds::new(alloc)?;
        for load in &accesses.loads {
            add_ranges(&mut read, load, WIDE);
            if !is_far(load) {
                add_users(&mut rams, map, load, false)?;
            }
        }
        mark(&mut rams, map, &swept.flags(alloc)?, true);
        mark(&mut rams, map, &read.flags(alloc)?, false);
        Ok(rams)
    }
}

/// The first address of a RAM.
fn base_of(map: &Map, ram: RamKind) -> u16 {
    for zone in map.zones() {
        if let WriteUse::Ram(of) = zone.write {
            if of == ram && zone.first <= zone.last {
                return zone.first;
            }
        }
    }
    0
}

/// Whether the first and the last address of a read are 63 or more apart.
fn is_far(load: &Access) -> bool {
    match load.hull() {
        Some(hull) => u32::from(hull.high()).saturating_sub(u32::from(hull.low())) >= SWEEP - 1,
        None => true,
    }
}

/// Adds the ranges of an access that have fewer addresses than this.
fn add_ranges(covered: &mut RangeEnds, access: &Access, limit: u32) {
    for range in &access.ranges {
        let size = u32::from(range.high()).saturating_sub(u32::from(range.low()));
        if size < limit {
            covered.add(*range);
        }
    }
}

/// Adds an instruction to the users of each byte of RAM that it may reach.
fn add_users(
    rams: &mut Vec<RamUse>,
    map: &Map,
    access: &Access,
    is_store: bool,
) -> Result<(), AllocError> {
    for range in &access.ranges {
        add_user(rams, map, access.address, *range, is_store)?;
    }
    Ok(())
}

fn add_user(
    rams: &mut Vec<RamUse>,
    map: &Map,
    user: u16,
    range: WordRange,
    is_store: bool,
) -> Result<(), AllocError> {
    for address in range.low()..=range.high() {
        let Some(cell) = map.cell(address) else {
            continue;
        };
        if let Some(ram) = rams.get_mut(place_of(cell.ram())) {
            if is_store {
                add_at(&mut ram.writers, usize::from(cell.index()), user)?;
            } else {
                add_at(&mut ram.readers, usize::from(cell.index()), user)?;
            }
        }
    }
    Ok(())
}

/// Adds an instruction to the users of one byte.
fn add_at(bytes: &mut Vec<Vec<u16>>, index: usize, user: u16) -> Result<(), AllocError> {
    if let Some(users) = bytes.get_mut(index) {
        if users.last() != Some(&user) {
            users.push(user)?;
        }
    }
    Ok(())
}

/// Marks the bytes of RAM at these addresses as swept, or as read.
fn mark(rams: &mut Vec<RamUse>, map: &Map, flags: &[bool], is_swept: bool) {
    for address in 0..=0xFFFFu16 {
        if flags.get(usize::from(address)).copied() != Some(true) {
            continue;
        }
        let Some(cell) = map.cell(address) else {
            continue;
        };
        if let Some(ram) = rams.get_mut(place_of(cell.ram())) {
            if is_swept {
                mark_at(&mut ram.swept, usize::from(cell.index()));
            } else {
                mark_at(&mut ram.read, usize::from(cell.index()));
            }
        }
    }
}

fn mark_at(marks: &mut Vec<bool>, index: usize) {
    if let Some(mark) = marks.get_mut(index) {
        *mark = true;
    }
}
