// What a search works on.

ghost use Rattle.std.specs.Prelude.{◌≡◌, length};

use address_map::{Map, Rom};
use analysis::Task;
use annotations::Annotations;
use plans::Base;
use std::marker::Model;

/// What a search works on: a ROM, its map, and what is given.
#[derive(Drop)]
pub struct SearchContext<'s> {
    rom: &'s Rom<'s>,
    map: &'s Map,
    base: &'s Base<'s>,
    visits: u32,
}

impl<'s> Model for SearchContext<'s> {
    ghost use Rattle.std.specs.Prelude.{◌≡◌, List, ℕ, length};

    ghost Value = { List ℕ };

    ghost view = { λ c. c.rom.now };

    ghost invariant = { λ c. c.map.now.rom_len ≡ length c.rom.now };
}

impl<'s> SearchContext<'s> {
    /// The context for a ROM, a map for a ROM of this length, and what is given.
    pub fn of(rom: &'s Rom<'s>, map: &'s Map, base: &'s Base<'s>, visits: u32) -> SearchContext<'s>
        requires { map.now.rom_len ≡ length rom.now }
    {
        SearchContext {
            rom,
            map,
            base,
            visits,
        }
    }

    /// The ROM.
    pub fn rom(&self) -> &'s Rom<'s> {
        self.rom
    }

    /// What is given to the search.
    pub fn base(&self) -> &'s Base<'s> {
        self.base
    }

    /// The most visits of rows in an analysis.
    pub fn visits(&self) -> u32 {
        self.visits
    }

    /// The task for these annotations; None if they have more than 256 cells.
    pub fn task<'a>(&'a self, said: &'a Annotations) -> Option<Task<'a>> {
        let task = Task::of(self.rom, self.map, said)?;
        Some(task.with_version(self.base.version))
    }
}
