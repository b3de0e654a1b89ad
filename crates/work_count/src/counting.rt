// The count of comparisons, row by row.

ghost use Rattle.std.specs.Prelude.{◌≡◌, length};
ghost use Rattle.cert_form.specs.Contents.{map_of_board};

use crate::plain::PlainWork;
use crate::ways::{Search, of_row};
use address_map::{Map, Rom};
use cert_contents::Certificate;
use check_cover::Coverer;
use check_tables::Tables;
use check_ways::Subject;
use std::alloc::Global;

/// The most comparisons that a command makes without being asked to: those of about a minute.
pub const DEFAULT_WORK: u64 = 7_500_000_000;

/// An upper bound of the comparisons that judging a certificate for a ROM takes, and where most of them come from.
#[derive(Clone, Copy)]
pub struct Comparisons {
    /// How many they are at most; 2^64 - 1 stands for more too.
    pub count: u64,
    /// The address whose rows take most of them.
    pub address: u16,
}

/// An upper bound of the comparisons that judging a certificate for a ROM takes (docs/CHECKER.md, "The count of
/// comparisons"). First each row at an address counts where a state arrives. Only where these are more than `enough`
/// the index is made, and those are counted that it leaves. It takes about as long as judging a certificate of as many
/// rows in which each address has one row. Where memory is refused, more may be counted. A ROM for which the
/// certificate is refused before its rows are judged counts as 0.
pub fn count_comparisons(
    alloc: Global,
    rom: &[u8],
    certificate: &Certificate,
    enough: u64,
) -> Comparisons {
    let none = Comparisons {
        count: 0,
        address: 0,
    };
    let Some(rom) = Rom::of(rom) else {
        return none;
    };
    if rom.len() != certificate.rom_len() {
        return none;
    }
    let map = certificate.board().map(rom.len());
    let tables = Tables::of(alloc, &rom, certificate);
    if let Ok(plain) = PlainWork::of(alloc, certificate) {
        let mut search = Search::Plain(plain);
        let counted = of_rows(alloc, &rom, &map, certificate, &tables, &mut search);
        if counted.count <= enough {
            return counted;
        }
    }
    let mut search = Search::Indexed(Coverer::new(alloc, certificate));
    of_rows(alloc, &rom, &map, certificate, &tables, &mut search)
}

/// The comparisons for all rows.
fn of_rows<'x>(
    alloc: Global,
    rom: &'x Rom<'x>,
    map: &'x Map,
    certificate: &'x Certificate,
    tables: &'x Tables<'x>,
    search: &mut Search,
) -> Comparisons
    requires map { map.now ≡ map_of_board certificate.now }
    requires len { map.now.rom_len ≡ length rom.now }
    requires tables { (tables.now.rom ≡ rom.now) × (tables.now.cert ≡ certificate.now) }
{
    let mut most = Comparisons {
        count: 0,
        address: 0,
    };
    let mut here = most;
    let mut greatest = 0;
    for id in 0..certificate.row_count() {
        let Some(subject) = Subject::of(rom, map, certificate, id) else {
            return most;
        };
        let subject = subject.with_tables(tables);
        let count = of_row(alloc, &subject, tables, search);
        if subject.row.address != here.address {
            here.count = 0;
        }
        here.address = subject.row.address;
        here.count = here.count.saturating_add(count);
        if here.count > greatest {
            greatest = here.count;
            most.address = here.address;
        }
        most.count = most.count.saturating_add(count);
    }
    most
}
