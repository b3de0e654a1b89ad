// The context of an analysis.

ghost use Rattle.std.specs.Prelude.{◌≡◌, ◌≤◌, length};

use abs_draft::Ground;
use abs_state::{AbsState, KeptCell};
use address_map::{Map, Rom};
use annotations::{Annotations, SplitNote};
use cert_form::CELL_LIMIT;
use cert_lines::Version;
use std::marker::Model;

/// A ROM, its map and its annotations.
#[derive(Drop)]
pub struct Task<'a> {
    rom: &'a Rom<'a>,
    map: &'a Map,
    said: &'a Annotations,
    cells: &'a [KeptCell],
    version: Version,
}

impl<'a> Model for Task<'a> {
    ghost use Rattle.std.specs.Prelude.{◌≡◌, ◌≤◌, length};
    ghost use Rattle.abs_draft.specs.Ground.{GroundView};

    ghost Value = { GroundView };

    ghost view = { λ t. record { rom = t.rom.now; map = t.map.now; cells = t.cells.now } };

    ghost invariant = { λ t. (t.map.now.rom_len ≡ length t.rom.now) × (length t.cells.now ≤ 256) };
}

impl<'a> Task<'a> {
    /// The task for a ROM, a map for a ROM of this length, and annotations, by the rules of version 2; None if the
    /// annotations have more than 256 cells.
    pub fn of(rom: &'a Rom<'a>, map: &'a Map, said: &'a Annotations) -> Option<Task<'a>>
        requires { map.now.rom_len ≡ length rom.now }
    {
        let cells = said.cells();
        if cells.len() > CELL_LIMIT {
            return None;
        }
        Some(Task {
            rom,
            map,
            said,
            cells,
            version: Version::Two,
        })
    }

    /// The same task by the rules of another version.
    pub fn with_version(self, version: Version) -> Task<'a>
        ensures { result ≡ self.entry }
    {
        Task { version, ..self }
    }

    /// The version whose rules judge the rows. Versions 1 and 2 have the same rules.
    pub fn version(&self) -> Version {
        self.version
    }

    /// The ROM.
    pub fn rom(&self) -> &'a Rom<'a>
        ensures { result.now ≡ self.now.rom }
    {
        self.rom
    }

    /// The map of the ROM's board.
    pub fn map(&self) -> &'a Map
        ensures value { result.now ≡ self.now.map }
        ensures len { result.now.rom_len ≡ length self.now.rom }
    {
        self.map
    }

    /// What the annotations say.
    pub fn said(&self) -> &'a Annotations {
        self.said
    }

    /// The kept cells, at most 256.
    pub fn cells(&self) -> &'a [KeptCell]
        ensures value { result.now ≡ self.now.cells }
        ensures few { length result.now ≤ 256 }
    {
        self.cells
    }

    /// The ground: the ROM, its map and the kept cells.
    pub fn ground(&self) -> Ground<'a>
        ensures value { result ≡ self.now }
        ensures cells { length result.cells ≤ 256 }
    {
        Ground::of(self.rom, self.map, self.cells)
    }

    /// The split at an address, if there is one.
    pub fn split_at(&self, address: u16) -> Option<&'a SplitNote> {
        let splits = self.said.splits();
        let place = splits.partition_point(|split| split.at < address);
        let split = splits.get(place)?;
        if split.at == address {
            Some(split)
        } else {
            None
        }
    }

    /// Whether a split ends at an address: from there on its states are one again.
    pub fn is_until(&self, address: u16) -> bool {
        self.said
            .splits()
            .iter()
            .any(|split| split.until == address)
    }

    /// Whether the call at an address is marked inline.
    pub fn is_inline(&self, address: u16) -> bool {
        let inlines = self.said.inlines();
        let place = inlines.partition_point(|at| *at < address);
        match inlines.get(place) {
            Some(at) => *at == address,
            None => false,
        }
    }

    /// Whether the annotations say that there is an NMI routine.
    pub fn has_routine(&self) -> bool {
        self.said.budget().is_some()
    }

    /// The state at the entry of the NMI routine.
    pub fn routine_state(&self) -> AbsState {
        AbsState::of_nmi(self.cells.len() as u16)
    }
}
