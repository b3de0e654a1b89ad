// The verdict on a certificate.

ghost use Rattle.std.specs.Prelude.{◌≡◌, ◌↔◌, ◌+◌, IsOk, IfErr, OnOk, None, length};
ghost use Rattle.cert_form.specs.Contents.{map_of_board};
ghost use Rattle.cert_form.specs.Migrated.{migrated};
ghost use Rattle.check_rules.specs.Acceptance.{Accepts, AreConsistent, Begins, IsRefused, depth_address};

use crate::refused::Refused;
use crate::repeated::is_repeated;
use crate::rows::check_row;
use crate::whole::{has_budget, has_depth, region_fits, rom_for, uncovered_entry};
use abs_step::Reason;
use address_map::{Map, Rom};
use cert_contents::{Certificate, RowId};
use check_cover::Coverer;
use check_tables::Tables;
use check_ways::Subject;
use std::alloc::Global;
use z80_moves::NMI_ADDRESS;

/// Judges a certificate for a ROM, which may be any bytes, by the table of reasons. It takes memory for tables of the
/// certificate; where memory is refused, the answer is the same and may take longer.
///
/// # Errors
///
/// The first reason that applies, in the order of the rules: 1, 2 and 3 of the whole; then those of the rows in order,
/// each with its lowest number; then 11 and 18 of the whole (docs/CHECKER.md, "The table of reasons").
pub fn examine(alloc: Global, rom: &[u8], certificate: &Certificate) -> Result<(), Refused>
    ensures exact { IsOk result ↔ Accepts rom.now certificate.now }
    ensures refused { IfErr result (λ r. IsRefused rom.now certificate.now r.row r.address r.reason) }
{
    let Some(rom) = rom_for(rom, certificate) else {
        return Err(of_whole(0, Reason::Rom));
    };
    let map = certificate.board().map(certificate.rom_len());
    if !region_fits(&map, certificate.region(), certificate.cells()) {
        return Err(of_whole(0, Reason::Region));
    }
    let mut coverer = Coverer::new(alloc, certificate);
    if let Some(address) = uncovered_entry(certificate, &mut coverer) {
        return Err(of_whole(address, Reason::Entry));
    }
    let tables = Tables::of(alloc, &rom, certificate);
    check_rows(alloc, &rom, &map, certificate, &tables, &mut coverer)?;
    if !has_depth(certificate) {
        return Err(of_whole(depth_address(certificate), Reason::StackDepth));
    }
    if !has_budget(certificate) {
        return Err(of_whole(NMI_ADDRESS, Reason::Budget));
    }
    Ok(())
}

fn of_whole(address: u16, reason: Reason) -> Refused
    ensures { result ≡ record { row = None; address = address; reason = reason } }
{
    Refused {
        row: None,
        address,
        reason,
    }
}

/// The address at which reason 11 of the whole is reported.
fn depth_address(certificate: &Certificate) -> u16
    ensures { result ≡ depth_address certificate.now.budget }
{
    match certificate.budget() {
        Some(_) => NMI_ADDRESS,
        None => 0,
    }
}

/// Judges the rows in order.
fn check_rows(
    alloc: Global,
    rom: &Rom,
    map: &Map,
    certificate: &Certificate,
    tables: &Tables,
    coverer: &mut Coverer,
) -> Result<(), Refused>
    requires map { map.now ≡ map_of_board certificate.now }
    requires len { map.now.rom_len ≡ length rom.now }
    requires tables { (tables.now.rom ≡ rom.now) × (tables.now.cert ≡ certificate.now) }
    requires coverer { coverer.old ≡ certificate.now }
    requires begins { Begins rom.now certificate.now }
    ensures ok { OnOk result (AreConsistent rom.now certificate.now (length certificate.now.rows)) }
    ensures err { IfErr result (λ r. IsRefused rom.now certificate.now r.row r.address r.reason) }
{
    for id in 0..certificate.row_count() {
        check_numbered(alloc, rom, map, certificate, id, tables, coverer)?;
    }
    Ok(())
}

/// Judges the row with this number, if there is one. A row that is equal to the one before it is not judged again.
fn check_numbered(
    alloc: Global,
    rom: &Rom,
    map: &Map,
    certificate: &Certificate,
    id: RowId,
    tables: &Tables,
    coverer: &mut Coverer,
) -> Result<(), Refused>
    requires map { map.now ≡ map_of_board certificate.now }
    requires len { map.now.rom_len ≡ length rom.now }
    requires tables { (tables.now.rom ≡ rom.now) × (tables.now.cert ≡ certificate.now) }
    requires coverer { coverer.old ≡ certificate.now }
    requires begins { Begins rom.now certificate.now }
    requires before { AreConsistent rom.now certificate.now id }
    ensures ok { OnOk result (AreConsistent rom.now certificate.now (id + 1)) }
    ensures err { IfErr result (λ r. IsRefused rom.now certificate.now r.row r.address r.reason) }
    ensures same { coverer.new ≡ coverer.old }
{
    if is_repeated(certificate, id) {
        return Ok(());
    }
    let Some(subject) = Subject::of(rom, map, certificate, id) else {
        return Ok(());
    };
    subject.is_subject();
    let subject = subject.with_tables(tables);
    match check_row(alloc, &subject, coverer) {
        Ok(()) => Ok(()),
        Err(reason) => Err(Refused {
            row: Some(id),
            address: subject.row.address,
            reason,
        }),
    }
}

/// The verdict on a certificate; the same certificate migrated to version 2 gets the same one.
///
/// # Errors
///
/// The first reason, as in `examine`; it applies to both.
pub fn same_verdict(
    alloc: Global,
    rom: &[u8],
    first: &Certificate,
    second: &Certificate,
) -> Result<(), Refused>
    requires { second.now ≡ migrated first.now }
    ensures exact { IsOk result ↔ (Accepts rom.now first.now × Accepts rom.now second.now) }
    ensures refused { IfErr result (λ r. IsRefused rom.now first.now r.row r.address r.reason
        × IsRefused rom.now second.now r.row r.address r.reason) }
{
    first.is_in_form();
    examine(alloc, rom, second)
}
