// The rows of a certificate by address.

use call_graph::ProcId;
use certificate::{Certificate, RowId};
use std::alloc::{AllocError, Global};

/// A row, by its number, with its address and its procedure.
#[derive(Clone, Copy)]
pub struct RowAt {
    pub address: u16,
    pub proc: ProcId,
    pub id: RowId,
}

/// The rows of a certificate, rising by address. The rows of one address rise by number, and so by procedure.
#[derive(Drop)]
pub struct RowsByAddress {
    rows: Vec<RowAt>,
}

impl RowsByAddress {
    /// The rows of a certificate.
    pub(crate) fn of(
        alloc: Global,
        certificate: &Certificate,
    ) -> Result<RowsByAddress, AllocError> {
        let mut rows = Vec::new(alloc);
        for id in 0..certificate.row_count() {
            if let Some(row) = certificate.row(id) {
                rows.push(RowAt {
                    address: row.address,
                    proc: row.proc,
                    id,
                })?;
            }
        }
        rows.sort_by_key(|row| row.address)?;
        Ok(RowsByAddress { rows })
    }

    /// The rows at an address.
    pub fn at(&self, address: u16) -> &[RowAt] {
        let rows = self.rows.as_slice();
        let start = rows.partition_point(|row| row.address < address);
        let behind = &rows[start..];
        let count = behind.partition_point(|row| row.address <= address);
        &behind[..count]
    }

    /// Whether a row is at an address.
    pub fn is_there(&self, address: u16) -> bool {
        !self.at(address).is_empty()
    }
}
