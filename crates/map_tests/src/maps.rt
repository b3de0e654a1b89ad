// Tests of address maps: the boards' tables at the edges of their zones, faults of lists of zones, and ranges.

use address_map::{Input, Map, MapFault, RamKind, ReadClass, Region, WriteClass, WriteUse, Zone};
use arrayvec::ArrayVec;
use intervals::WordRange;

/// What is at an address: for RAM the number of its cell, for an input also the class for writing.
#[derive(Clone, Copy)]
enum At {
    Rom,
    Ram(RamKind, u16),
    Input(Input, WriteClass),
    Pitch,
    Open,
}

fn has_class(map: &Map, address: u16, read: ReadClass, write: WriteClass) -> bool {
    let class = map.class(address);
    class.read == read && class.write == write
}

fn has_cell(map: &Map, address: u16, kind: RamKind, index: u16) -> bool {
    match map.cell(address) {
        Some(cell) => cell.ram() == kind && cell.index() == index,
        None => false,
    }
}

/// Whether the address of a map is this.
fn stands(map: &Map, address: u16, at: At) -> bool {
    let (read, write) = match at {
        At::Rom => (ReadClass::Rom, WriteClass::Rom),
        At::Ram(kind, _) => (ReadClass::Ram(kind), WriteClass::Ram(kind)),
        At::Input(input, write) => (ReadClass::Input(input), write),
        At::Pitch => (ReadClass::Open, WriteClass::Pitch),
        At::Open => (ReadClass::Open, WriteClass::Unmapped),
    };
    let cell = match at {
        At::Ram(kind, index) => has_cell(map, address, kind, index),
        _ => map.cell(address).is_none(),
    };
    cell && has_class(map, address, read, write)
}

/// The Galaxian board's addresses from 4000 on.
const GALAXIAN_FROM_4000: &[(u16, At)] = &[
    (0x4000, At::Ram(RamKind::Work, 0)),
    (0x4780, At::Ram(RamKind::Work, 0x380)),
    (0x47FF, At::Ram(RamKind::Work, 0x3FF)),
    (0x4800, At::Open),
    (0x4FFF, At::Open),
    (0x5000, At::Ram(RamKind::Video, 0)),
    (0x57FF, At::Ram(RamKind::Video, 0x3FF)),
    (0x5800, At::Ram(RamKind::Object, 0)),
    (0x5FFF, At::Ram(RamKind::Object, 0xFF)),
    (0x6000, At::Input(Input::In0, WriteClass::Latch(0))),
    (0x67FF, At::Input(Input::In0, WriteClass::Latch(7))),
    (0x6800, At::Input(Input::In1, WriteClass::Latch(0))),
    (0x6801, At::Input(Input::In1, WriteClass::Latch(1))),
    (0x6FFF, At::Input(Input::In1, WriteClass::Latch(7))),
    (0x7000, At::Input(Input::In2, WriteClass::Latch(0))),
    (0x7001, At::Input(Input::In2, WriteClass::NmiEnable)),
    (0x7009, At::Input(Input::In2, WriteClass::NmiEnable)),
    (0x77F9, At::Input(Input::In2, WriteClass::NmiEnable)),
    (0x77FF, At::Input(Input::In2, WriteClass::Latch(7))),
    (0x7800, At::Pitch),
    (0x7FFF, At::Pitch),
    (0x8000, At::Open),
    (0xB009, At::Open),
    (0xFFFF, At::Open),
];

/// The raised board's addresses from 4000 on.
const RAISED_FROM_4000: &[(u16, At)] = &[
    (0x4000, At::Open),
    (0x7009, At::Open),
    (0x7FFF, At::Open),
    (0x8000, At::Ram(RamKind::Work, 0)),
    (0x8780, At::Ram(RamKind::Work, 0x380)),
    (0x87FF, At::Ram(RamKind::Work, 0x3FF)),
    (0x8800, At::Open),
    (0x8FFF, At::Open),
    (0x9000, At::Ram(RamKind::Video, 0)),
    (0x97FF, At::Ram(RamKind::Video, 0x3FF)),
    (0x9800, At::Ram(RamKind::Object, 0)),
    (0x9FFF, At::Ram(RamKind::Object, 0xFF)),
    (0xA000, At::Input(Input::In0, WriteClass::Latch(0))),
    (0xA7FF, At::Input(Input::In0, WriteClass::Latch(7))),
    (0xA800, At::Input(Input::In1, WriteClass::Latch(0))),
    (0xAFFF, At::Input(Input::In1, WriteClass::Latch(7))),
    (0xB000, At::Input(Input::In2, WriteClass::Latch(0))),
    (0xB009, At::Input(Input::In2, WriteClass::NmiEnable)),
    (0xB7FF, At::Input(Input::In2, WriteClass::Latch(7))),
    (0xB800, At::Pitch),
    (0xBFFF, At::Pitch),
    (0xC000, At::Open),
    (0xFFFF, At::Open),
];

/// Whether a map has a ROM of this length, open addresses from there to 3FFF, and work RAM at `work_start`.
fn begins(map: &Map, length: u16, work_start: u16) -> bool {
    let behind = length == 0x4000
        || (stands(map, length, At::Open) && stands(map, 0x3FFF, At::Open));
    map.rom_len() == length
        && map.work_start() == work_start
        && stands(map, 0, At::Rom)
        && stands(map, length.wrapping_sub(1), At::Rom)
        && behind
}

#[test]
fn galaxian_tables(rt: HostRuntime) {
    for length in [1, 6, 0x3FFF, 0x4000] {
        let map = Map::galaxian(length);
        assert!(rt; begins(&map, length, 0x4000));
        for &(address, at) in GALAXIAN_FROM_4000 {
            assert!(rt; stands(&map, address, at), "at {address:04X}");
        }
    }
}

#[test]
fn raised_tables(rt: HostRuntime) {
    for length in [1, 6, 0x3FFF, 0x4000] {
        let map = Map::raised(length);
        assert!(rt; begins(&map, length, 0x8000));
        for &(address, at) in RAISED_FROM_4000 {
            assert!(rt; stands(&map, address, at), "at {address:04X}");
        }
    }
}

macro_rules! zone {
    ($first:expr, $last:expr, $read:expr, $write:expr) => {
        Zone {
            first: $first,
            last: $last,
            read: $read,
            write: $write,
        }
    };
}

macro_rules! free {
    ($first:expr, $last:expr) => {
        zone!($first, $last, ReadClass::Open, WriteUse::Open)
    };
}

macro_rules! work {
    ($first:expr, $last:expr) => {
        zone!($first, $last, READS_WORK, WRITES_WORK)
    };
}

macro_rules! program {
    ($first:expr, $last:expr) => {
        zone!($first, $last, ReadClass::Rom, WriteUse::Rom)
    };
}

const READS_WORK: ReadClass = ReadClass::Ram(RamKind::Work);

const WRITES_WORK: WriteUse = WriteUse::Ram(RamKind::Work);

const READS_VIDEO: ReadClass = ReadClass::Ram(RamKind::Video);

const ROM: Zone = program!(0, 0x0FFF);

const LOW: Zone = free!(0x1000, 0x3FFF);

const WORK: Zone = work!(0x4000, 0x47FF);

const HIGH: Zone = free!(0x4800, 0xFFFF);

fn fault(zones: &[Zone], rom_len: u16) -> Option<MapFault> {
    let mut list = ArrayVec::new();
    for zone in zones {
        if !list.is_full() {
            list.push(*zone);
        }
    }
    Map::of(list, rom_len).err()
}

/// Zones that make a map, with a ROM of 1000h bytes.
const MAPS: &[&[Zone]] = &[
    // In any order, and with empty zones.
    &[ROM, LOW, WORK, HIGH],
    &[HIGH, WORK, LOW, ROM],
    &[ROM, free!(9, 8), LOW, WORK, HIGH],
    // Work RAM of 400h bytes.
    &[ROM, LOW, work!(0x4000, 0x43FF), free!(0x4400, 0xFFFF)],
    // Another RAM.
    &[ROM, LOW, WORK, VIDEO],
];

const VIDEO: Zone = zone!(0x4800, 0xFFFF, READS_VIDEO, WriteUse::Ram(RamKind::Video));

/// Zones, and their lowest gap or overlap.
const FAULTS: &[(&[Zone], MapFault)] = &[
    (&[], MapFault::Gap(0)),
    (&[ROM, WORK, HIGH], MapFault::Gap(0x1000)),
    (
        &[ROM, LOW, WORK, free!(0x4800, 0xFFFE)],
        MapFault::Gap(0xFFFF),
    ),
    (&[ROM, LOW, WORK, HIGH, HIGH], MapFault::Overlap(0x4800)),
    (
        &[ROM, free!(0x0FFF, 0x3FFF), WORK, HIGH],
        MapFault::Overlap(0x0FFF),
    ),
    (
        &[ROM, LOW, WORK, HIGH, free!(0xFFFF, 0xFFFF)],
        MapFault::Overlap(0xFFFF),
    ),
    (&[ROM, ROM, WORK, HIGH], MapFault::Overlap(0)),
    (
        &[ROM, free!(0x1001, 0x3FFF), WORK, WORK, HIGH],
        MapFault::Gap(0x1000),
    ),
];

const READ_ONLY: Zone = zone!(0x4000, 0x47FF, READS_WORK, WriteUse::Open);

const WRITE_ONLY: Zone = zone!(0x4000, 0x47FF, ReadClass::Open, WRITES_WORK);

const MIXED: Zone = zone!(0x4800, 0xFFFF, READS_VIDEO, WriteUse::Ram(RamKind::Object));

const HALF: Zone = zone!(0x4800, 0xFFFF, READS_VIDEO, WriteUse::Pitch);

/// Zones without valid work RAM, or with another invalid RAM.
const WORK_FAULTS: &[&[Zone]] = &[
    &[ROM, LOW, free!(0x4000, 0x47FF), HIGH],
    &[ROM, LOW, WORK, work!(0x4800, 0xFFFF)],
    // A second zone that names it counts, even without addresses.
    &[ROM, LOW, WORK, HIGH, work!(0x400, 0)],
    &[ROM, LOW, READ_ONLY, HIGH],
    &[ROM, LOW, WRITE_ONLY, HIGH],
    // Not at a multiple of 400h; and 3FFh addresses.
    &[ROM, free!(0x1000, 0x40FF), work!(0x4100, 0x47FF), HIGH],
    &[ROM, LOW, work!(0x4000, 0x43FE), free!(0x43FF, 0xFFFF)],
    // Another zone's RAM must be the same for reading and writing.
    &[ROM, LOW, WORK, MIXED],
    &[ROM, LOW, WORK, HALF],
];

const UNREAD: Zone = zone!(0, 0x0FFF, ReadClass::Open, WriteUse::Rom);

const WRITTEN: Zone = zone!(0, 0x0FFF, ReadClass::Rom, WriteUse::Open);

/// Zones without a valid ROM.
const ROM_FAULTS: &[&[Zone]] = &[
    &[free!(0, 0x3FFF), WORK, HIGH],
    &[ROM, LOW, WORK, program!(0x4800, 0xFFFF)],
    &[ROM, LOW, WORK, HIGH, program!(1, 0)],
    &[free!(0, 0), program!(1, 0x0FFF), LOW, WORK, HIGH],
    &[UNREAD, LOW, WORK, HIGH],
    &[WRITTEN, LOW, WORK, HIGH],
];

#[test]
fn faults_of_zones(rt: HostRuntime) {
    for (place, zones) in MAPS.iter().enumerate() {
        assert!(rt; fault(zones, 0x1000).is_none(), "map {place}");
    }
    for (place, &(zones, wanted)) in FAULTS.iter().enumerate() {
        assert!(rt; fault(zones, 0x1000) == Some(wanted), "list {place}");
    }
    // A gap or an overlap is reported before the faults of RAM and ROM.
    assert!(rt; fault(&[free!(0, 0xFFFE)], 0) == Some(MapFault::Gap(0xFFFF)));
}

#[test]
fn faults_of_work_ram(rt: HostRuntime) {
    for (place, zones) in WORK_FAULTS.iter().enumerate() {
        assert!(rt;
            fault(zones, 0x1000) == Some(MapFault::Work),
            "list {place}"
        );
    }
    // Work is reported before Rom.
    assert!(rt; fault(&[free!(0, 0xFFFF)], 0) == Some(MapFault::Work));
}

#[test]
fn faults_of_rom(rt: HostRuntime) {
    for (place, zones) in ROM_FAULTS.iter().enumerate() {
        assert!(rt; fault(zones, 0x1000) == Some(MapFault::Rom), "list {place}");
    }
    for length in [0x0FFF, 0x1001, 0] {
        assert!(rt; fault(&[ROM, LOW, WORK, HIGH], length) == Some(MapFault::Rom));
    }
}

#[derive(Clone, Copy)]
enum Question {
    /// Whether each address takes data.
    AllData,
    SomeInRegion,
    SomeRom,
    SomeUnmapped,
    SomeEnable,
    /// Whether some address folds to this cell of work RAM.
    SomeAtCell(u16),
}

/// The answer for the addresses from `first` to `last`, with this stack region.
fn answer(map: &Map, region: Region, question: Question, first: u16, last: u16) -> bool {
    let words = WordRange::new(first, last).unwrap_or(WordRange::full());
    match question {
        Question::AllData => map.all_data(words, region),
        Question::SomeInRegion => map.some_in_region(words, region),
        Question::SomeRom => map.some_rom(words),
        Question::SomeUnmapped => map.some_unmapped(words),
        Question::SomeEnable => map.some_enable(words),
        Question::SomeAtCell(cell) => map.some_at_cell(words, cell),
    }
}

const OF_GALAXIAN: &[(Question, u16, u16, bool)] = &[
    // Work RAM outside the region, and its mirror; 4380 to 43FF and 4780 to 47FF fold to the region's cells.
    (Question::AllData, 0x4000, 0x437F, true),
    (Question::AllData, 0x4400, 0x477F, true),
    (Question::AllData, 0x4000, 0x4380, false),
    (Question::AllData, 0x43FF, 0x43FF, false),
    (Question::AllData, 0x4780, 0x4780, false),
    (Question::AllData, 0x4400, 0x4780, false),
    (Question::SomeInRegion, 0x4780, 0x4780, true),
    (Question::SomeInRegion, 0x477F, 0x477F, false),
    (Question::SomeInRegion, 0, 0xFFFF, true),
    (Question::SomeInRegion, 0x4800, 0xFFFF, false),
    // From video RAM to the pitch all addresses take data; the open ones on either side do not.
    (Question::AllData, 0x5000, 0x7FFF, true),
    (Question::AllData, 0x4FFF, 0x7FFF, false),
    (Question::AllData, 0x5000, 0x8000, false),
    (Question::AllData, 0, 5, false),
    // ROM and unmapped.
    (Question::SomeRom, 5, 0x4000, true),
    (Question::SomeRom, 6, 0xFFFF, false),
    (Question::SomeUnmapped, 0, 6, true),
    (Question::SomeUnmapped, 0, 5, false),
    (Question::SomeUnmapped, 0x4000, 0x47FF, false),
    (Question::SomeUnmapped, 0x4000, 0x4800, true),
    // The enable is at 7001, 7009 and so on to 77F9.
    (Question::SomeEnable, 0, 0x7000, false),
    (Question::SomeEnable, 0, 0x7001, true),
    (Question::SomeEnable, 0x7002, 0x7008, false),
    (Question::SomeEnable, 0x7002, 0x7009, true),
    (Question::SomeEnable, 0x77F9, 0xFFFF, true),
    (Question::SomeEnable, 0x77FA, 0xFFFF, false),
    // Cells of work RAM, by an address or by their number.
    (Question::SomeAtCell(0x4380), 0x4780, 0x4780, true),
    (Question::SomeAtCell(0x380), 0x4780, 0x4780, true),
    (Question::SomeAtCell(0x381), 0x4780, 0x4780, false),
    (Question::SomeAtCell(0x3FF), 0x4000, 0x43FF, true),
    (Question::SomeAtCell(0x3FF), 0x4000, 0x43FE, false),
    (Question::SomeAtCell(0), 0x5000, 0x5FFF, false),
];

#[test]
fn ranges_of_galaxian(rt: HostRuntime) {
    let map = Map::galaxian(6);
    let region = Region {
        low: 0x4380,
        top: 0x4400,
    };
    for &(question, first, last, wanted) in OF_GALAXIAN {
        assert!(rt;
            answer(&map, region, question, first, last) == wanted,
            "{first:04X} to {last:04X}"
        );
    }
}

const OF_RAISED: &[(Question, u16, u16, bool)] = &[
    (Question::AllData, 0x8000, 0x837F, true),
    (Question::AllData, 0x8780, 0x8780, false),
    (Question::SomeEnable, 0xB002, 0xB009, true),
    (Question::SomeEnable, 0x7000, 0x77FF, false),
    (Question::SomeUnmapped, 0x7001, 0x7001, true),
    (Question::SomeAtCell(0x8380), 0x8780, 0x8780, true),
    (Question::SomeRom, 0x3FFF, 0x4000, true),
    (Question::SomeRom, 0x4000, 0xFFFF, false),
];

#[test]
fn ranges_of_raised(rt: HostRuntime) {
    let map = Map::raised(0x4000);
    let region = Region {
        low: 0x8380,
        top: 0x8400,
    };
    for &(question, first, last, wanted) in OF_RAISED {
        assert!(rt;
            answer(&map, region, question, first, last) == wanted,
            "{first:04X} to {last:04X}"
        );
    }
}
