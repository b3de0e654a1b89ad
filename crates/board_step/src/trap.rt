// The first trap of a draft.

ghost use Rattle.std.specs.Prelude.{◌≡◌, if◌then◌else◌, Some, None};
ghost use Rattle.board_step.specs.Trap.{is_rom, is_unmapped, some_write, some_outside, trap_of_draft};

use crate::profile::Trap;
use address_map::{Map, Region, WriteClass};
use z80_draft::{Draft, StackAccess, Write};

/// The first trap of a draft, if any: a data write to the ROM or to nothing, or a stack access outside the region.
#[inline]
#[tactic(auto, unfolding(crate::specs::Trap::trap_of_draft))]
pub fn trap_of(draft: &Draft, map: &Map, region: Region) -> Option<Trap>
    ensures { result ≡ trap_of_draft map.now region draft.now }
{
    match trap_of_writes(map, draft.writes()) {
        Some(trap) => Some(trap),
        None if leaves(region, draft.stack()) => Some(Trap::StackOutside),
        None => None,
    }
}

/// The first trap of the data writes.
#[inline]
fn trap_of_writes(map: &Map, writes: &[Write]) -> Option<Trap>
    ensures { result ≡ (if some_write map.now is_rom writes.now then Some Trap.WriteRom else if
        some_write map.now is_unmapped writes.now then Some Trap.WriteUnmapped else None) }
{
    let mut unmapped = false;
    for write in writes {
        match map.class(write.at).write {
            WriteClass::Rom => return Some(Trap::WriteRom),
            WriteClass::Unmapped => unmapped = true,
            _ => {}
        }
    }
    unmapped.then_some(Trap::WriteUnmapped)
}

#[inline]
fn leaves(region: Region, accesses: &[StackAccess]) -> bool
    ensures { result ≡ some_outside region accesses.now }
{
    accesses
        .iter()
        .any(|access| access.at < region.low || region.top <= access.at)
}
