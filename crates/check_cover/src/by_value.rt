// Rows at one address by the values of one byte: a row that covers a state has each value of the byte that the state has.

use abs_state::Pairs;
use cert_contents::{Certificate, RowId};
use intervals::{ByteRange, RegPair};
use std::alloc::{AllocError, Global};

/// The number of values of a byte.
const VALUES: usize = 256;

/// How many places the lists of all values may have together, for each row.
const PLACES_A_ROW: usize = 4;

/// The bytes by which rows may be told apart: the high and the low bytes of ten pairs.
const BYTES: [(RegPair, bool); 20] = [
    (RegPair::Af, true),
    (RegPair::Af, false),
    (RegPair::Bc, true),
    (RegPair::Bc, false),
    (RegPair::De, true),
    (RegPair::De, false),
    (RegPair::Hl, true),
    (RegPair::Hl, false),
    (RegPair::Ix, true),
    (RegPair::Ix, false),
    (RegPair::Iy, true),
    (RegPair::Iy, false),
    (RegPair::AlternateAf, true),
    (RegPair::AlternateAf, false),
    (RegPair::AlternateBc, true),
    (RegPair::AlternateBc, false),
    (RegPair::AlternateDe, true),
    (RegPair::AlternateDe, false),
    (RegPair::AlternateHl, true),
    (RegPair::AlternateHl, false),
];

/// A byte of a register pair, and which of some rows have each of its values.
#[derive(Drop)]
pub(crate) struct ByValue {
    pair: RegPair,
    is_high: bool,
    /// For each value, where its rows begin in `rows`. The last entry is the length of `rows`.
    starts: Vec<usize>,
    rows: Vec<RowId>,
}

/// How many of some rows have each value of a byte.
#[derive(Clone, Copy)]
struct Spread {
    /// The greatest number of rows that share a value.
    depth: usize,
    /// The sum of the numbers of rows over all values.
    places: usize,
}

impl ByValue {
    /// The rows by the values of the byte that tells them apart best. None if each byte has too many values in too many
    /// rows.
    pub fn of(
        alloc: Global,
        certificate: &Certificate,
        rows: &[RowId],
    ) -> Result<Option<ByValue>, AllocError> {
        let ends = ends_of(alloc, certificate, rows)?;
        let most = rows
            .len()
            .saturating_mul(PLACES_A_ROW)
            .saturating_add(VALUES);
        let mut best = None;
        let mut depth = usize::MAX;
        for byte in 0..BYTES.len() {
            let counts = counts_of(ends.as_slice(), byte);
            let spread = spread_of(&counts);
            if spread.places <= most && spread.depth < depth {
                depth = spread.depth;
                best = Some(byte);
            }
        }
        match best {
            Some(byte) => {
                let counts = counts_of(ends.as_slice(), byte);
                Ok(Some(by_byte(alloc, certificate, rows, byte, &counts)?))
            }
            None => Ok(None),
        }
    }

    /// The rows that have the lowest value that a state has in the byte.
    pub fn rows_for(&self, left: &Pairs) -> &[RowId] {
        self.rows_with(byte_of(left, self.pair, self.is_high).low())
    }

    /// The rows that have a value.
    fn rows_with(&self, value: u8) -> &[RowId] {
        let place = usize::from(value);
        let starts = self.starts.as_slice();
        let (Some(start), Some(end)) = (starts.get(place), starts.get(place + 1)) else {
            return &[];
        };
        self.rows.as_slice().get(*start..*end).unwrap_or(&[])
    }

    /// The greatest number of rows that share a value.
    pub fn depth(&self) -> usize {
        let mut depth = 0;
        for value in 0..=255u8 {
            depth = depth.max(self.rows_with(value).len());
        }
        depth
    }
}

/// The pair and which of its bytes has this number among `BYTES`; A for a greater number.
fn named(byte: usize) -> (RegPair, bool) {
    match BYTES.get(byte) {
        Some((pair, is_high)) => (*pair, *is_high),
        None => (RegPair::Af, true),
    }
}

fn byte_of(pairs: &Pairs, pair: RegPair, is_high: bool) -> ByteRange {
    let pair = pairs.pair(pair);
    if is_high { pair.high } else { pair.low }
}

fn spread_of(counts: &[usize; VALUES]) -> Spread {
    let (mut depth, mut places) = (0, 0usize);
    for count in counts.iter() {
        depth = (*count).max(depth);
        places = places.saturating_add(*count);
    }
    Spread { depth, places }
}

/// For each byte and each value, how many rows have it as their lowest value, and how many as their highest.
fn ends_of(
    alloc: Global,
    certificate: &Certificate,
    rows: &[RowId],
) -> Result<Vec<(usize, usize)>, AllocError> {
    let mut ends = Vec::new(alloc);
    for _ in 0..BYTES.len() * VALUES {
        ends.push((0, 0))?;
    }
    for id in rows {
        if let Some(row) = certificate.row(*id) {
            add_ends(&mut ends, row.pairs);
        }
    }
    Ok(ends)
}

fn add_ends(ends: &mut Vec<(usize, usize)>, pairs: &Pairs) {
    for byte in 0..BYTES.len() {
        let (pair, is_high) = BYTES[byte];
        let range = byte_of(pairs, pair, is_high);
        if let Some(end) = ends.get_mut(byte * VALUES + usize::from(range.low())) {
            end.0 = end.0.saturating_add(1);
        }
        if let Some(end) = ends.get_mut(byte * VALUES + usize::from(range.high())) {
            end.1 = end.1.saturating_add(1);
        }
    }
}

/// How many of the rows have each value of a byte.
fn counts_of(ends: &[(usize, usize)], byte: usize) -> [usize; VALUES] {
    let mut counts = [0usize; VALUES];
    let mut open = 0usize;
    for value in 0..VALUES {
        let place = byte.saturating_mul(VALUES).saturating_add(value);
        if let Some((begun, ended)) = ends.get(place) {
            open = open.saturating_add(*begun);
            counts[value] = open;
            open = open.saturating_sub(*ended);
        }
    }
    counts
}

fn by_byte(
    alloc: Global,
    certificate: &Certificate,
    rows: &[RowId],
    byte: usize,
    counts: &[usize; VALUES],
) -> Result<ByValue, AllocError> {
    let (pair, is_high) = named(byte);
    let mut starts = Vec::new(alloc);
    let mut next = [0usize; VALUES];
    let mut total = 0usize;
    for place in 0..VALUES {
        starts.push(total)?;
        next[place] = total;
        total = total.saturating_add(counts[place]);
    }
    starts.push(total)?;
    let mut listed = Vec::new(alloc);
    for _ in 0..total {
        listed.push(0)?;
    }
    for id in rows {
        if let Some(row) = certificate.row(*id) {
            put(
                &mut listed,
                &mut next,
                byte_of(row.pairs, pair, is_high),
                *id,
            );
        }
    }
    Ok(ByValue {
        pair,
        is_high,
        starts,
        rows: listed,
    })
}

/// Puts a row into the list of each value that it has, at the next place of that list.
fn put(listed: &mut Vec<RowId>, next: &mut [usize; VALUES], byte: ByteRange, id: RowId) {
    for value in byte.low()..=byte.high() {
        let place = usize::from(value);
        if let Some(entry) = listed.get_mut(next[place]) {
            *entry = id;
        }
        next[place] = next[place].saturating_add(1);
    }
}
