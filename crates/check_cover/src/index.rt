// Where to look first among many rows at one address.

use crate::alike::Alike;
use crate::by_value::ByValue;
use crate::claims::have_same_claims;
use abs_state::{covers_fact, keeps_slots};
use cert_contents::{Certificate, RowId};
use cert_lines::RowRef;
use std::alloc::{AllocError, Global};
use std::ops::Range;

/// From how many rows at one address on there is an index.
const MANY: RowId = 8;

/// How many kinds of rows are told apart at one address. Rows of further kinds are searched one by one.
const MOST_KINDS: usize = 16;

/// Rows at one address that have the same claims, mode, cells, flag fact and origins, and as many slots.
#[derive(Drop)]
pub(crate) struct Kind {
    /// The number of one of the rows.
    pub like: RowId,
    /// How many of the rows a search tests at most.
    pub tests: usize,
    pub order: Order,
}

/// How the rows of a kind are found.
#[derive(Drop)]
pub(crate) enum Order {
    /// One by one, where they are few.
    Few(Vec<RowId>),
    /// By the values of a byte.
    ByValue(ByValue),
    /// By hulls, where no byte tells them apart.
    Alike(Alike),
}

/// The rows at an address, by kind.
#[derive(Drop)]
pub(crate) struct Place {
    /// The number of the first row at the address.
    start: RowId,
    pub kinds: Vec<Kind>,
    /// How many rows are of no kind.
    pub others: usize,
}

/// The addresses with many rows.
#[derive(Drop)]
pub(crate) struct AddressIndex {
    places: Vec<Place>,
}

impl AddressIndex {
    fn none(alloc: Global) -> AddressIndex {
        AddressIndex {
            places: Vec::new(alloc),
        }
    }

    /// The index of a certificate, as far as memory is given.
    pub fn of(alloc: Global, certificate: &Certificate) -> AddressIndex {
        let mut index = AddressIndex::none(alloc);
        for id in 0..certificate.row_count() {
            if !index.adds(alloc, certificate, id) {
                return index;
            }
        }
        index
    }

    /// Adds the rows at the address of a row, if it is the first of many there. The answer is false if memory was
    /// refused.
    fn adds(&mut self, alloc: Global, certificate: &Certificate, id: RowId) -> bool {
        let Some(rows) = many_from(certificate, id, MANY) else {
            return true;
        };
        match Place::of(alloc, certificate, rows) {
            Ok(place) => self.places.push(place).is_ok(),
            Err(_) => false,
        }
    }

    /// The rows at an address by the number of the first row there, if they are many.
    pub fn at(&self, start: RowId) -> Option<&Place> {
        let place = self
            .places
            .as_slice()
            .partition_point(|place| place.start < start);
        let place = self.places.get(place)?;
        if place.start == start {
            Some(place)
        } else {
            None
        }
    }
}

impl Place {
    /// These rows by kind, which are those of one address.
    fn of(
        alloc: Global,
        certificate: &Certificate,
        rows: Range<RowId>,
    ) -> Result<Place, AllocError> {
        let start = rows.start;
        let mut kinds = Vec::new(alloc);
        let mut left = Vec::new(alloc);
        for id in rows.start..rows.end {
            left.push(id)?;
        }
        for _ in 0..MOST_KINDS {
            left = add_kind(alloc, certificate, &mut kinds, left.as_slice())?;
        }
        Ok(Place {
            start,
            kinds,
            others: left.len(),
        })
    }
}

impl Kind {
    fn of(
        alloc: Global,
        certificate: &Certificate,
        like: RowId,
        rows: &[RowId],
    ) -> Result<Kind, AllocError> {
        let few = rows.len() < MANY as usize;
        if few {
            return Ok(Kind {
                like,
                tests: rows.len(),
                order: Order::Few(Vec::from_slice(alloc, rows)?),
            });
        }
        match ByValue::of(alloc, certificate, rows)? {
            Some(by_value) => Ok(Kind {
                like,
                tests: by_value.depth(),
                order: Order::ByValue(by_value),
            }),
            None => Ok(Kind {
                like,
                tests: rows.len(),
                order: Order::Alike(Alike::of(alloc, certificate, rows)?),
            }),
        }
    }
}

/// Adds the rows of the kind of the first of these, and gives those that are left.
fn add_kind(
    alloc: Global,
    certificate: &Certificate,
    kinds: &mut Vec<Kind>,
    rows: &[RowId],
) -> Result<Vec<RowId>, AllocError> {
    let (mut same, mut left) = (Vec::new(alloc), Vec::new(alloc));
    if let Some(first) = rows.first() {
        for id in rows {
            if are_alike(certificate, *first, *id) {
                same.push(*id)?;
            } else {
                left.push(*id)?;
            }
        }
        kinds.push(Kind::of(alloc, certificate, *first, same.as_slice())?)?;
    }
    Ok(left)
}

/// Whether two rows are found to be of one kind.
fn are_alike(certificate: &Certificate, id: RowId, other: RowId) -> bool {
    match (certificate.row(id), certificate.row(other)) {
        (Some(row), Some(other)) => {
            row.mode == other.mode
                && row.armed == other.armed
                && row.shape.len() == other.shape.len()
                && keeps(&row, &other)
                && keeps(&other, &row)
                && have_same_claims(&row, &other)
        }
        _ => false,
    }
}

/// Whether a row has the flag fact and each origin of another one.
fn keeps(row: &RowRef, other: &RowRef) -> bool {
    covers_fact(row.flag, other.flag)
        && row.pairs.keeps(other.pairs)
        && keeps_slots(row.shape.slots(), other.shape.slots())
}

/// The numbers of the rows at the address of row `id`, if it is the first row there and they are at least `many`.
pub fn many_from(certificate: &Certificate, id: RowId, many: RowId) -> Option<Range<RowId>> {
    let behind = id.saturating_add(many.saturating_sub(1));
    if !is_beside(certificate, id, behind) || (id > 0 && is_beside(certificate, id, id - 1)) {
        return None;
    }
    let row = certificate.row(id)?;
    Some(certificate.rows_at(row.proc, row.address))
}

/// Whether two rows are at one address of one procedure.
fn is_beside(certificate: &Certificate, id: RowId, other: RowId) -> bool {
    match (certificate.row(id), certificate.row(other)) {
        (Some(row), Some(beside)) => row.proc == beside.proc && row.address == beside.address,
        _ => false,
    }
}
