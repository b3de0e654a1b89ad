// Tables of a certificate for a ROM.

ghost use Rattle.std.specs.Prelude.{◌≡◌, IfSome};
ghost use Rattle.std.specs.List.{All};
ghost use Rattle.check_tables.specs.Tables.{AreExits, IsTop};

use crate::gathering::ProcExits;
use crate::tops::Top;
use address_map::Rom;
use call_graph::ProcId;
use cert_contents::{Certificate, RowId};
use check_cover::many_from;
use std::alloc::Global;
use std::marker::Model;

/// From how many rows at one address on their greatest potential is kept.
const SOME: RowId = 4;

/// Tables of a certificate for a ROM, as far as memory was given: what the exits of its procedures leave, and the
/// greatest potentials at addresses.
#[derive(Drop)]
pub struct Tables<'a> {
    rom: &'a Rom<'a>,
    certificate: &'a Certificate,
    exits: Vec<ProcExits>,
    tops: Vec<Top>,
}

impl<'a> Model for Tables<'a> {
    ghost use Rattle.check_tables.specs.Tables.{AreTables, TablesView};

    ghost Value = { TablesView };

    ghost view = { λ t. record { rom = t.rom.now; cert = t.certificate.now; exits = t.exits.items; tops = t.tops.items } };

    ghost invariant = { λ t. AreTables (record { rom = t.rom.now; cert = t.certificate.now; exits = t.exits.items; tops = t.tops.items }) };
}

impl<'a> Tables<'a> {
    /// Makes the tables. Where memory is refused, they have only what was made before.
    pub fn of(alloc: Global, rom: &'a Rom<'a>, certificate: &'a Certificate) -> Tables<'a>
        ensures { (result.rom ≡ rom.now) × (result.cert ≡ certificate.now) }
    {
        Tables {
            rom,
            certificate,
            exits: exits_of(alloc, rom, certificate),
            tops: tops_of(alloc, certificate),
        }
    }

    /// What the exits of a procedure leave; None if the table does not have it.
    pub fn exits(&self, proc: ProcId) -> Option<&ProcExits>
        ensures { IfSome result (λ e. (e.now.proc ≡ proc)
            × AreExits self.now.rom self.now.cert e.now) }
    {
        let exits = self.exits.get(usize::from(proc))?;
        if exits.proc == proc {
            Some(exits)
        } else {
            None
        }
    }

    /// The greatest potential, at least 0, of the rows from `start` to below `end`. None if one of them has a variable,
    /// or if the table does not have it.
    pub fn top(&self, start: RowId, end: RowId) -> Option<i32>
        ensures { IfSome result
            (λ n. IsTop self.now.cert (record { start = start; end = end; potential = n })) }
    {
        if end.saturating_sub(start) < SOME {
            return Some(Top::of(self.certificate, start, end)?.potential);
        }
        let place = self
            .tops
            .as_slice()
            .partition_point(|top| top.start < start);
        let top = self.tops.get(place)?;
        if top.start == start && top.end == end {
            Some(top.potential)
        } else {
            None
        }
    }
}

/// What the exits of each procedure leave, up to where memory was refused.
fn exits_of(alloc: Global, rom: &Rom, certificate: &Certificate) -> Vec<ProcExits>
    ensures { All (AreExits rom.now certificate.now) result.items }
{
    let mut exits = Vec::new(alloc);
    let Ok(count) = u16::try_from(certificate.procs().len()) else {
        return exits;
    };
    for proc in 0..count {
        let Ok(gathered) = ProcExits::of(alloc, rom, certificate, proc) else {
            return exits;
        };
        if exits.push(gathered).is_err() {
            return exits;
        }
    }
    exits
}

/// The greatest potential at each address with `SOME` rows or more, up to where memory was refused.
fn tops_of(alloc: Global, certificate: &Certificate) -> Vec<Top>
    ensures { All (IsTop certificate.now) result.items }
{
    let mut tops = Vec::new(alloc);
    for id in 0..certificate.row_count() {
        if let Some(top) = top_from(certificate, id)
            && tops.push(top).is_err()
        {
            return tops;
        }
    }
    tops
}

/// The greatest potential at the address of a row, if it is the first of `SOME` or more there and none has a variable.
fn top_from(certificate: &Certificate, id: RowId) -> Option<Top>
    ensures { IfSome result (IsTop certificate.now) }
{
    let rows = many_from(certificate, id, SOME)?;
    Top::of(certificate, rows.start, rows.end)
}
