// The T-states of the dearest ways from each row, from the exits up.

ghost use Rattle.std.specs.Prelude.{◌≡◌, length};
ghost use Rattle.cert_form.specs.Contents.{map_of_board};

use crate::links::{KnownLoops, Link, Links, rows_after_each};
use address_map::{Map, Rom};
use call_graph::ProcId;
use cert_contents::Certificate;
use check_walks::cost_of_leaving;
use std::alloc::{AllocError, Global};
use write_requests::{Placed, RowRuns, placed_rows, rows_on_cycles};

/// The dearest way from a row outside of loops: its T-states, and the next row (None: the row's exit).
#[derive(Clone, Copy)]
pub(crate) struct Ahead {
    pub(crate) sum: i64,
    pub(crate) next: Option<u32>,
}

/// Where a loop is left: the row from which a link leads out of it, the row to which it leads, and the T-states from
/// there.
#[derive(Clone, Copy)]
pub(crate) struct Leaving {
    pub(crate) from: u32,
    pub(crate) to: u32,
    value: i64,
}

/// The dearest ways of a procedure. Rows are counted from its first row.
#[derive(Drop)]
pub(crate) struct Values {
    /// The rows by group, each group in the order of the rows.
    placed: Vec<Placed>,
    /// The group of each row.
    groups: Vec<u16>,
    /// Which rows are in loops.
    loops: Vec<bool>,
    ahead: Vec<Option<Ahead>>,
    /// Where the loop of a group is left, by the groups' numbers.
    leavings: Vec<Option<Leaving>>,
}

impl Values {
    /// The dearest ways of a procedure.
    pub(crate) fn of(
        alloc: Global,
        rom: &Rom,
        certificate: &Certificate,
        proc: ProcId,
    ) -> Result<Values, AllocError>
        requires { certificate.now.rom_len ≡ length rom.now }
    {
        let map = certificate.board().map(rom.len());
        let mut links = Links::new(alloc, certificate, proc)?;
        let runs = rows_after_each(alloc, rom, &map, certificate, proc, &mut links)?;
        let mut values = Values::grouped(alloc, &runs)?;
        for place in 0..values.placed.len() {
            values.take_place(alloc, rom, &map, certificate, place, &mut links)?;
        }
        Ok(values)
    }

    /// The groups and loops of rows, by the rows that may come next after each. No way is known yet.
    fn grouped(alloc: Global, runs: &[RowRuns]) -> Result<Values, AllocError> {
        let placed = placed_rows(alloc, runs, &[])?;
        let loops = rows_on_cycles(alloc, runs, &placed)?;
        let mut groups = Vec::new(alloc);
        for row in &placed {
            groups.push(row.group)?;
        }
        let mut values = Values {
            placed,
            groups,
            loops,
            ahead: vec![in alloc; None; runs.len()]?,
            leavings: vec![in alloc; None; runs.len()]?,
        };
        values
            .placed
            .sort_by_key(|placed| (placed.group, placed.row))?;
        Ok(values)
    }

    /// Takes the row at a place of the groups. Those of the groups to which it leads have to be taken before.
    fn take_place(
        &mut self,
        alloc: Global,
        rom: &Rom,
        map: &Map,
        certificate: &Certificate,
        place: usize,
        links: &mut Links,
    ) -> Result<(), AllocError>
        requires map { map.now ≡ map_of_board certificate.now }
        requires len { map.now.rom_len ≡ length rom.now }
    {
        let Some(placed) = self.placed.get(place).copied() else {
            return Ok(());
        };
        let row = u32::from(placed.row);
        links.take(alloc, rom, map, certificate, row, &self.known_at(placed))?;
        if self.is_in_loop(row) {
            self.leave_loop(placed, links.as_slice());
        } else {
            let id = links.first().saturating_add(row);
            let exit = cost_of_leaving(alloc, rom, map, certificate, id);
            let ahead = self.dearest_from(exit, links.as_slice());
            if let Some(entry) = self.ahead.get_mut(usize::from(placed.row)) {
                *entry = ahead;
            }
        }
        Ok(())
    }

    /// What is known of loops for the links from a row.
    fn known_at(&self, placed: Placed) -> KnownLoops<'_> {
        KnownLoops {
            loops: self.loops.as_slice(),
            groups: self.groups.as_slice(),
            own: if self.is_in_loop(u32::from(placed.row)) {
                Some(placed.group)
            } else {
                None
            },
        }
    }

    /// Compares the links out of the loop of a row with those of the rows before it.
    fn leave_loop(&mut self, placed: Placed, links: &[Link]) {
        let place = usize::from(placed.group);
        let before = self.leavings.get(place).copied().unwrap_or(None);
        let best = self.dearest_out(u32::from(placed.row), links, before);
        if let Some(entry) = self.leavings.get_mut(place) {
            *entry = best;
        }
    }

    /// Whether a row is in a loop.
    pub(crate) fn is_in_loop(&self, row: u32) -> bool {
        self.loops.get(row as usize).copied() == Some(true)
    }

    /// The T-states from where a link arrives.
    fn value_of(&self, link: &Link) -> Option<i64> {
        if self.is_in_loop(link.to) {
            Some(link.worth)
        } else {
            Some(self.ahead(link.to)?.sum)
        }
    }

    /// The dearest way from a row outside of loops.
    pub(crate) fn ahead(&self, row: u32) -> Option<Ahead> {
        self.ahead.get(row as usize).copied()?
    }

    /// The dearest of the exit and the links of a row outside of loops: the exit if it costs as much, else the first.
    fn dearest_from(&self, exit: Option<u32>, links: &[Link]) -> Option<Ahead> {
        let mut best = match exit {
            Some(cost) => Some(Ahead {
                sum: i64::from(cost),
                next: None,
            }),
            None => None,
        };
        for link in links {
            if let Some(value) = self.value_of(link) {
                let sum = value.saturating_add(i64::from(link.cost));
                if is_dearer(sum, best) {
                    best = Some(Ahead {
                        sum,
                        next: Some(link.to),
                    });
                }
            }
        }
        best
    }

    /// The dearest link out of a loop, among those before and those of one more row.
    fn dearest_out(&self, row: u32, links: &[Link], before: Option<Leaving>) -> Option<Leaving> {
        let mut best = before;
        for link in links {
            if let Some(value) = self.value_of(link) {
                let is_better = match best {
                    Some(leaving) => value > leaving.value,
                    None => true,
                };
                if is_better {
                    best = Some(Leaving {
                        from: row,
                        to: link.to,
                        value,
                    });
                }
            }
        }
        best
    }

    /// The group of a row.
    fn group_of(&self, row: u32) -> Option<u16> {
        self.groups.get(row as usize).copied()
    }

    /// Where the loop of a row is left; None if no link leads out of it.
    pub(crate) fn leaving(&self, row: u32) -> Option<Leaving> {
        let group = self.group_of(row)?;
        self.leavings.get(usize::from(group)).copied()?
    }

    /// The rows of the loop of a row.
    pub(crate) fn loop_of(&self, row: u32) -> &[Placed] {
        let Some(group) = self.group_of(row) else {
            return &[];
        };
        let placed = self.placed.as_slice();
        let start = placed.partition_point(|one| one.group < group);
        let behind = &placed[start..];
        let count = behind.partition_point(|one| one.group <= group);
        &behind[..count]
    }
}

/// Whether a way is dearer than another one.
fn is_dearer(sum: i64, best: Option<Ahead>) -> bool {
    match best {
        Some(ahead) => sum > ahead.sum,
        None => true,
    }
}
