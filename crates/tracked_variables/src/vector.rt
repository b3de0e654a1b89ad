// Vectors over the tracked variables.
ghost use Rattle.std.specs.Prelude.{◌≡◌, ◌<◌, ◌≤◌, ◌^◌, ◌*ℤ◌, IfSome, unsigned_abs};

use crate::tracked::TRACKED;

/// A number for each tracked variable, by rank.
#[derive(Clone, Copy)]
pub struct Vector {
    pub entries: [i32; TRACKED],
}

/// The greatest common divisor; it is 0 only for two zeros.
pub fn common_divisor(one: u32, other: u32) -> u32 {
    let (mut one, mut other) = (one, other);
    while other != 0 {
        (one, other) = (other, one % other);
    }
    one
}

/// A factor of at most 1,000,000 in size times a value.
pub fn multiple(factor: i32, value: i32) -> i64
    requires { unsigned_abs factor ≤ 1000000 }
    ensures value { result ≡ factor *ℤ value }
    ensures size { unsigned_abs result ≤ 2 ^ 51 }
{
    i64::from(factor) * i64::from(value)
}

impl Vector {
    /// The entries at the ranks of the mask, and 0 elsewhere.
    pub fn restricted(&self, mask: u64) -> Vector {
        let mut entries = [0; TRACKED];
        for rank in 0..TRACKED {
            if (mask >> rank) & 1 == 1 {
                entries[rank] = self.entries[rank];
            }
        }
        Vector { entries }
    }

    /// How many entries are not 0.
    pub fn terms(&self) -> usize {
        self.entries.iter().filter(|entry| **entry != 0).count()
    }

    /// The rank of an entry that is least in size among those that are not 0. None if all are 0.
    pub fn least(&self) -> Option<usize>
        ensures { IfSome result (λ rank. rank < 48) }
    {
        let mut least = None;
        let mut size = u32::MAX;
        for rank in 0..TRACKED {
            let entry = self.entries[rank].unsigned_abs();
            if entry != 0 && entry < size {
                least = Some(rank);
                size = entry;
            }
        }
        least
    }

    /// The vector divided by the greatest common divisor of its entries.
    pub fn reduced(&self) -> Vector {
        let divisor = i64::from(self.divisor());
        let mut entries = self.entries;
        if divisor > 1 {
            for entry in entries.iter_mut() {
                *entry = i32::try_from(i64::from(*entry) / divisor).unwrap_or(0);
            }
        }
        Vector { entries }
    }

    /// The greatest common divisor of the entries.
    fn divisor(&self) -> u32 {
        let mut divisor = 0;
        for entry in &self.entries {
            if divisor == 1 {
                return 1;
            }
            divisor = common_divisor(entry.unsigned_abs(), divisor);
        }
        divisor
    }

    /// A multiple of this vector less a multiple of `row`, so that the entry at `pivot` is 0. None if an entry does not
    /// fit.
    pub fn without(&self, row: &Vector, pivot: usize) -> Option<Vector> {
        let (keep, take) = match (row.entries.get(pivot), self.entries.get(pivot)) {
            (Some(keep), Some(take)) => (*keep, *take),
            _ => return None,
        };
        if take == 0 {
            return Some(*self);
        }
        let divisor = i64::from(common_divisor(keep.unsigned_abs(), take.unsigned_abs()).max(1));
        let (keep, take) = (i64::from(keep) / divisor, i64::from(take) / divisor);
        let mut entries = [0; TRACKED];
        for rank in 0..TRACKED {
            let entry = keep
                .saturating_mul(i64::from(self.entries[rank]))
                .saturating_sub(take.saturating_mul(i64::from(row.entries[rank])));
            entries[rank] = i32::try_from(entry).ok()?;
        }
        Some(Vector { entries })
    }
}
