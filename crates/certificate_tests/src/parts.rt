// Certificates made of parts.

use crate::both_ways::is_written_as;
use crate::samples::{EVERY_FORM, EVERY_PART, JUMP};
use abs_state::KeptCell;
use address_map::Region;
use certificate::BoardMap::{self, Galaxian, Raised};
use certificate::CertFault::{self, Limit, Line};
use certificate::Version::{self, One, Two};
use certificate::{Certificate, Parts, Proc, ProcKind, Row, RowRef, read};
use intervals::ByteRange;
use std::alloc::{AllocError, Global};

/// A copy of a row.
fn row_again(row: &RowRef) -> Row {
    Row {
        proc: row.proc,
        address: row.address,
        state: row.state(),
        parts: row.parts.copied(),
        facts: row.facts.copied(),
        potential: row.potential,
    }
}

fn rows_again(alloc: Global, certificate: &Certificate) -> Result<Vec<Row>, AllocError> {
    let mut rows = Vec::new(alloc);
    for id in 0..certificate.row_count() {
        if let Some(row) = certificate.row(id) {
            rows.push(row_again(&row))?;
        }
    }
    Ok(rows)
}

/// The numbers before a certificate's lists.
type Head = (Version, BoardMap, u16, Region, Option<u16>);

/// Parts without lists.
fn head_with(alloc: Global, head: Head) -> Parts {
    let (version, board, rom_len, region, budget) = head;
    Parts {
        version,
        rom_len,
        board,
        region,
        budget,
        procs: Vec::new(alloc),
        splits: Vec::new(alloc),
        inlines: Vec::new(alloc),
        cells: Vec::new(alloc),
        rows: Vec::new(alloc),
    }
}

fn head_of(certificate: &Certificate) -> Head {
    (
        certificate.version(),
        certificate.board(),
        certificate.rom_len(),
        certificate.region(),
        certificate.budget(),
    )
}

/// Copies the lists of a certificate.
fn add_lists(certificate: &Certificate, parts: &mut Parts) -> Result<(), AllocError> {
    parts.procs.extend_from_slice(certificate.procs())?;
    parts.splits.extend_from_slice(certificate.splits())?;
    parts.inlines.extend_from_slice(certificate.inlines())?;
    parts.cells.extend_from_slice(certificate.cells())
}

/// The certificate made of the parts of this one.
pub fn made_again(alloc: Global, certificate: &Certificate) -> Result<Certificate, CertFault> {
    let mut parts = head_with(alloc, head_of(certificate));
    let Ok(rows) = rows_again(alloc, certificate) else {
        return Err(CertFault::NoMemory);
    };
    parts.rows = rows;
    match add_lists(certificate, &mut parts) {
        Ok(()) => Certificate::of(alloc, parts),
        Err(_) => Err(CertFault::NoMemory),
    }
}

/// Whether this certificate is made again of its parts. Its text is this one.
fn is_made_again(alloc: Global, certificate: &Certificate, text: &str) -> bool {
    match made_again(alloc, certificate) {
        Ok(made) => is_written_as(alloc, &made, text),
        Err(_) => false,
    }
}

fn is_made(alloc: Global, text: &str) -> bool {
    match read(alloc, text.as_bytes()) {
        Ok(certificate) => is_made_again(alloc, &certificate, text),
        Err(_) => false,
    }
}

#[test]
fn in_form(rt: HostRuntime) {
    for &text in &[JUMP, EVERY_FORM, EVERY_PART] {
        assert!(rt; is_made(rt.alloc(), text));
    }
}

/// Parts without splits and rows: the version, the board, how many procedures at 0000, inline calls from 0000 on and
/// cells at 4000 there are; then the fault, if there is one.
type Case = (Version, BoardMap, u16, u16, u16, Option<CertFault>);

const PARTS: &[Case] = &[
    (One, Galaxian, 1, 0, 0, None),
    // An old version
    (One, Raised, 1, 0, 0, Some(Line(3))),
    (One, Galaxian, 1, 0, 1, Some(Line(6))),
    (Two, Raised, 1, 0, 0, None),
    // Out of order
    (One, Galaxian, 0, 0, 0, Some(Line(5))),
    (One, Galaxian, 2, 0, 0, Some(Line(6))),
    // The limit of inline calls
    (Two, Galaxian, 1, 1_024, 0, None),
    (Two, Galaxian, 1, 1_025, 0, Some(Limit)),
];

const REGION: Region = Region {
    low: 0x4380,
    top: 0x4400,
};

const MAIN: Proc = Proc {
    kind: ProcKind::Main,
    entry: 0,
    rank: 0,
    depth: 2,
    time: None,
};

/// Adds this many procedures, inline calls and cells.
fn add_many(parts: &mut Parts, procs: u16, inlines: u16, cells: u16) -> Result<(), AllocError> {
    for _ in 0..procs {
        parts.procs.push(MAIN)?;
    }
    for address in 0..inlines {
        parts.inlines.push(address)?;
    }
    for _ in 0..cells {
        parts.cells.push(KeptCell {
            at: 0x4000,
            range: ByteRange::full(),
        })?;
    }
    Ok(())
}

/// Whether the parts of a case have its fault, or none.
fn is_judged(alloc: Global, case: &Case) -> bool {
    let &(version, board, procs, inlines, cells, fault) = case;
    let mut parts = head_with(alloc, (version, board, 6, REGION, None));
    add_many(&mut parts, procs, inlines, cells).is_ok()
        && Certificate::of(alloc, parts).err() == fault
}

#[test]
fn in_and_out_of_form(rt: HostRuntime) {
    for (place, case) in PARTS.iter().enumerate() {
        assert!(rt; is_judged(rt.alloc(), case), "case {place}, from 0");
    }
}
