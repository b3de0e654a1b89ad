// Rows at one address, ordered so that similar rows are neighbours.

ghost use Rattle.std.specs.Prelude.{◌≤◌};

use abs_state::Pairs;
use cert_contents::{Certificate, RowId};
use intervals::{Domain, Pair};
use std::alloc::{AllocError, Global};

/// How many rows make a block, and how many blocks make a group.
pub(crate) const BLOCK: usize = 32;

/// How many numbers describe the ranges of ten pairs.
const NUMBERS: usize = 40;

/// The numbers of rows at one address, ordered so that similar rows are neighbours, with the hulls of each block of
/// rows and of each group of blocks. It only says where to look first; each row to which it leads is tested.
#[derive(Drop)]
pub(crate) struct Alike {
    order: Vec<RowId>,
    pub blocks: Vec<Pairs>,
    pub groups: Vec<Pairs>,
}

impl Alike {
    /// The order of these rows.
    pub fn of(
        alloc: Global,
        certificate: &Certificate,
        rows: &[RowId],
    ) -> Result<Alike, AllocError> {
        let order = ordered(alloc, certificate, rows)?;
        let blocks = hulls_of_rows(alloc, certificate, order.as_slice())?;
        let groups = hulls_of_blocks(alloc, blocks.as_slice())?;
        Ok(Alike {
            order,
            blocks,
            groups,
        })
    }

    /// The rows of a block.
    pub fn rows_of(&self, block: usize) -> &[RowId] {
        let start = block.saturating_mul(BLOCK);
        let end = self.order.len().min(start.saturating_add(BLOCK));
        self.order.as_slice().get(start..end).unwrap_or(&[])
    }
}

/// The numbers of these rows, by rising key.
fn ordered(
    alloc: Global,
    certificate: &Certificate,
    rows: &[RowId],
) -> Result<Vec<RowId>, AllocError> {
    let mut keyed = keyed(alloc, certificate, rows)?;
    keyed.sort_unstable();
    let mut order = Vec::new(alloc);
    for (_, id) in keyed.as_slice() {
        order.push(*id)?;
    }
    Ok(order)
}

/// The keys of these rows, each with the row's number.
fn keyed(
    alloc: Global,
    certificate: &Certificate,
    rows: &[RowId],
) -> Result<Vec<(u128, RowId)>, AllocError> {
    let varying = varying_bits(certificate, rows);
    let mut keyed = Vec::new(alloc);
    for id in rows {
        if let Some(row) = certificate.row(*id) {
            keyed.push((key_of(&numbers_of(row.pairs), &varying), *id))?;
        }
    }
    Ok(keyed)
}

/// The numbers that describe a pair's ranges: the ends of the word's, and those of the low byte's times 256.
fn ends_of(pair: &Pair) -> [u16; 4] {
    [
        pair.word.low(),
        pair.word.high(),
        u16::from(pair.low.low()) * 256,
        u16::from(pair.low.high()) * 256,
    ]
}

fn numbers_of(pairs: &Pairs) -> [u16; NUMBERS] {
    let [a, b, c, d] = ends_of(&pairs.af);
    let [e, f, g, h] = ends_of(&pairs.bc);
    let [i, j, k, l] = ends_of(&pairs.de);
    let [m, n, o, p] = ends_of(&pairs.hl);
    let [q, r, s, t] = ends_of(&pairs.ix);
    let [u, v, w, x] = ends_of(&pairs.iy);
    let [a1, b1, c1, d1] = ends_of(&pairs.alternate_af);
    let [e1, f1, g1, h1] = ends_of(&pairs.alternate_bc);
    let [i1, j1, k1, l1] = ends_of(&pairs.alternate_de);
    let [m1, n1, o1, p1] = ends_of(&pairs.alternate_hl);
    [
        a, b, c, d, e, f, g, h, i, j, k, l, m, n, o, p, q, r, s, t, u, v, w, x, a1, b1, c1, d1, e1,
        f1, g1, h1, i1, j1, k1, l1, m1, n1, o1, p1,
    ]
}

/// The bits in which the numbers of these rows differ.
fn varying_bits(certificate: &Certificate, rows: &[RowId]) -> [u16; NUMBERS] {
    let mut varying = [0; NUMBERS];
    let mut first = None;
    for id in rows {
        if let Some(row) = certificate.row(*id) {
            let numbers = numbers_of(row.pairs);
            match &first {
                Some(first) => add_varying(&mut varying, first, &numbers),
                None => first = Some(numbers),
            }
        }
    }
    varying
}

fn add_varying(varying: &mut [u16; NUMBERS], first: &[u16; NUMBERS], other: &[u16; NUMBERS]) {
    for at in 0..NUMBERS {
        varying[at] |= first[at] ^ other[at];
    }
}

/// The first 127 of the varying bits, after a leading 1: the highest bit of each number first, then the next one.
fn key_of(numbers: &[u16; NUMBERS], varying: &[u16; NUMBERS]) -> u128 {
    let mut key = 1;
    for place in 0..16u32 {
        key = with_bits(key, numbers, varying, 15 - place);
    }
    key
}

/// Appends the varying bits at one place to a key, as many as there is room for.
fn with_bits(key: u128, numbers: &[u16; NUMBERS], varying: &[u16; NUMBERS], place: u32) -> u128
    requires { place ≤ 15 }
{
    let mut key = key;
    for at in 0..NUMBERS {
        if (varying[at] >> place) & 1 == 1 && key >> 127 == 0 {
            key = key << 1 | u128::from((numbers[at] >> place) & 1);
        }
    }
    key
}

/// The hulls of the rows of each block.
fn hulls_of_rows(
    alloc: Global,
    certificate: &Certificate,
    order: &[RowId],
) -> Result<Vec<Pairs>, AllocError> {
    let mut hulls = Vec::new(alloc);
    for block in order.chunks(BLOCK) {
        hulls.push(hull_of_rows(certificate, block))?;
    }
    Ok(hulls)
}

/// The hulls of the blocks of each group.
fn hulls_of_blocks(alloc: Global, blocks: &[Pairs]) -> Result<Vec<Pairs>, AllocError> {
    let mut hulls = Vec::new(alloc);
    for group in blocks.chunks(BLOCK) {
        hulls.push(hull_of_blocks(group))?;
    }
    Ok(hulls)
}

fn hull_of_rows(certificate: &Certificate, block: &[RowId]) -> Pairs {
    let mut hull = None;
    for id in block {
        if let Some(row) = certificate.row(*id) {
            hull = Some(wider(hull, row.pairs));
        }
    }
    hull.unwrap_or(Pairs::full())
}

fn hull_of_blocks(group: &[Pairs]) -> Pairs {
    let mut hull = None;
    for pairs in group {
        hull = Some(wider(hull, pairs));
    }
    hull.unwrap_or(Pairs::full())
}

/// The joins of two lists of pairs, pair by pair; the second list if there is no first one.
fn wider(hull: Option<Pairs>, pairs: &Pairs) -> Pairs {
    let Some(hull) = hull else {
        return *pairs;
    };
    Pairs {
        af: hull.af.join(&pairs.af),
        bc: hull.bc.join(&pairs.bc),
        de: hull.de.join(&pairs.de),
        hl: hull.hl.join(&pairs.hl),
        ix: hull.ix.join(&pairs.ix),
        iy: hull.iy.join(&pairs.iy),
        alternate_af: hull.alternate_af.join(&pairs.alternate_af),
        alternate_bc: hull.alternate_bc.join(&pairs.alternate_bc),
        alternate_de: hull.alternate_de.join(&pairs.alternate_de),
        alternate_hl: hull.alternate_hl.join(&pairs.alternate_hl),
    }
}
