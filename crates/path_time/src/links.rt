// Which row may come next after which on a walk, and the T-states between them.

ghost use Rattle.std.specs.Prelude.{◌≡◌, ◌<◌, ◌≤◌, ℕ, IfOk, Ok, OnOk, length, map};
ghost use Rattle.std.specs.List.Sorted.{IsNonDecreasingBy};
ghost use Rattle.cert_form.specs.Contents.{map_of_board};
ghost use Rattle.check_ways.specs.Pays.{IsGreatest, LieBetween};
ghost use Rattle.check_ways.specs.Ways.{IsNumbered, step_of};
ghost use Rattle.path_time.specs.Links.{Added, AreLinks, IsAny, IsArrival, IsArrivalOfSome, IsWithin, arrival_of, edge_of_link};
ghost use Rattle.path_time.specs.Table.{AreLinksFrom};

use abs_step::{Next, NextKind};
use address_map::{Map, Rom};
use call_graph::{Edge, ProcId};
use cert_contents::{Certificate, RowId};
use check_walks::cost_between;
use check_ways::Subject;
use std::alloc::{AllocError, Global};
use std::ops::Range;

/// Two rows, by their numbers: the second may come next after the first on a walk, at this cost in T-states. A
/// certificate has at most 65,535 rows.
#[derive(Clone, Copy)]
pub(crate) struct Link {
    pub(crate) from: u16,
    pub(crate) to: u16,
    pub(crate) cost: u32,
}

/// The links from the rows of a procedure, sorted by the rows from which they lead, and then by those to which they
/// lead.
pub(crate) fn links_of(
    alloc: Global,
    rom: &Rom,
    map: &Map,
    certificate: &Certificate,
    proc: ProcId,
) -> Result<Vec<Link>, AllocError>
    requires map { map.now ≡ map_of_board certificate.now }
    requires len { map.now.rom_len ≡ length rom.now }
    ensures links { IfOk result (λ links. AreLinks rom.now certificate.now proc links.items) }
    ensures rising { IfOk result (λ links. IsNonDecreasingBy (λ link. link.from) links.items) }
{
    let mut links = gathered(alloc, rom, map, certificate, proc)?;
    links.sort_by_key(|link| link.to)?;
    links.sort_by_key(|link| link.from)?;
    Ok(links)
}

fn gathered(
    alloc: Global,
    rom: &Rom,
    map: &Map,
    certificate: &Certificate,
    proc: ProcId,
) -> Result<Vec<Link>, AllocError>
    requires map { map.now ≡ map_of_board certificate.now }
    requires len { map.now.rom_len ≡ length rom.now }
    ensures { IfOk result (λ links. AreLinks rom.now certificate.now proc links.items) }
{
    let mut links = Vec::new(alloc);
    let rows = certificate.rows_of(proc);
    for from in rows.start..rows.end {
        add_links(alloc, rom, map, certificate, from, &mut links)?;
    }
    Ok(links)
}

fn add_links(
    alloc: Global,
    rom: &Rom,
    map: &Map,
    certificate: &Certificate,
    from: RowId,
    links: &mut Vec<Link>,
) -> Result<(), AllocError>
    requires map { map.now ≡ map_of_board certificate.now }
    requires len { map.now.rom_len ≡ length rom.now }
    requires within { from < length certificate.now.rows }
    ensures { OnOk result (Added rom.now certificate.now from IsAny links.old.items links.new.items) }
{
    let Some(subject) = Subject::of(rom, map, certificate, from) else {
        return Ok(());
    };
    subject.is_subject();
    let Ok(nexts) = subject.step(alloc) else {
        return Ok(());
    };
    add_links_by_each(&subject, from, nexts.as_slice(), links)
}

/// Adds the links from the subject, which is the row with this number, by all its successors.
fn add_links_by_each(
    subject: &Subject,
    from: RowId,
    nexts: &[Next],
    links: &mut Vec<Link>,
) -> Result<(), AllocError>
    requires subject { IsNumbered subject.now.rom subject.now.cert from subject.now }
    requires within { from < length subject.now.cert.rows }
    requires step { step_of subject.now ≡ Ok nexts.now }
    ensures { OnOk result (Added subject.now.rom subject.now.cert from
        (IsArrivalOfSome subject.now nexts.now) links.old.items links.new.items) }
{
    for next in nexts {
        add_links_by(subject, from, nexts, next, links)?;
    }
    Ok(())
}

/// Adds the links from the subject by one of its successors.
fn add_links_by(
    subject: &Subject,
    from: RowId,
    nexts: &[Next],
    next: &Next,
    links: &mut Vec<Link>,
) -> Result<(), AllocError>
    requires subject { IsNumbered subject.now.rom subject.now.cert from subject.now }
    requires within { from < length subject.now.cert.rows }
    requires step { step_of subject.now ≡ Ok nexts.now }
    ensures { OnOk result (Added subject.now.rom subject.now.cert from
        (IsArrival subject.now next.now) links.old.items links.new.items) }
{
    match arrival_of(subject, next) {
        Some(address) => {
            let rows = subject.certificate.rows_at(subject.row.proc, address);
            add_links_to(subject, from, nexts, rows, links)
        }
        None => Ok(()),
    }
}

/// The address to which a successor leads within its procedure, for a call the address after it; None for an exit.
fn arrival_of(subject: &Subject, next: &Next) -> Option<u16>
    ensures { result ≡ arrival_of subject.now next.now }
{
    match next.kind {
        NextKind::Jump => Some(next.address),
        NextKind::Call => Some(subject.behind),
        NextKind::Exit => None,
    }
}

/// Adds the links from the subject to those of these rows that may come next.
fn add_links_to(
    subject: &Subject,
    from: RowId,
    nexts: &[Next],
    rows: Range<RowId>,
    links: &mut Vec<Link>,
) -> Result<(), AllocError>
    requires subject { IsNumbered subject.now.rom subject.now.cert from subject.now }
    requires within { from < length subject.now.cert.rows }
    requires step { step_of subject.now ≡ Ok nexts.now }
    requires rows { rows.end ≤ length subject.now.cert.rows }
    ensures { OnOk result (Added subject.now.rom subject.now.cert from
        (IsWithin rows.start rows.end) links.old.items links.new.items) }
{
    // By the form, there are at most 65,535 rows.
    subject.certificate.is_in_form();
    for to in rows.start..rows.end {
        if let Some(cost) = cost_to(subject, nexts, to) {
            links.push(Link {
                from: from as u16,
                to: to as u16,
                cost,
            })?;
        }
    }
    Ok(())
}

/// The T-states between the subject, with these successors, and the row with this number.
fn cost_to(subject: &Subject, nexts: &[Next], to: RowId) -> Option<u32>
    requires step { step_of subject.now ≡ Ok nexts.now }
    ensures { (from : ℕ) → IsNumbered subject.now.rom subject.now.cert from subject.now
        → IsGreatest (LieBetween subject.now.rom subject.now.cert from to) result }
{
    let target = subject.certificate.row(to)?;
    cost_between(subject, nexts, &target)
}

/// The links without their costs.
pub(crate) fn edges_of(alloc: Global, links: &[Link]) -> Result<Vec<Edge>, AllocError>
    ensures { IfOk result (λ edges. edges.items ≡ map edge_of_link links.now) }
{
    let mut edges = Vec::new(alloc);
    for link in links {
        edges.push(Edge {
            caller: link.from,
            callee: link.to,
        })?;
    }
    Ok(edges)
}

/// The links from a row, out of links that are sorted by the rows from which they lead.
pub(crate) fn links_from(links: &[Link], row: u16) -> &[Link]
    requires { IsNonDecreasingBy (λ link. link.from) links.now }
    ensures { AreLinksFrom links.now row result.now }
{
    let start = links.partition_point(|link| link.from < row);
    let behind = &links[start..];
    let count = behind.partition_point(|link| link.from <= row);
    &behind[..count]
}
