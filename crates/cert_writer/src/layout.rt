// The numbers of procedures in a certificate.

use crate::fault::WriterFault;
use analysis::{Flow, MAIN, NMI};
use call_graph::ProcId;
use certificate::{Proc, ProcKind};
use std::alloc::Global;
use z80_moves::NMI_ADDRESS;

/// The procedures of a certificate: main, the NMI routine if there is one, and the called ones by rising entry.
#[derive(Drop)]
pub(crate) struct Layout {
    routine: bool,
    entries: Vec<u16>,
}

impl Layout {
    pub(crate) fn of(alloc: Global, flow: &Flow, routine: bool) -> Result<Layout, WriterFault> {
        let mut entries = Vec::new(alloc);
        for entry in flow.entries().iter() {
            entries.push(*entry)?;
        }
        Ok(Layout { routine, entries })
    }

    /// How many procedures come before the called ones.
    fn before(&self) -> usize {
        if self.routine { 2 } else { 1 }
    }

    pub(crate) fn count(&self) -> usize {
        self.before().saturating_add(self.entries.len())
    }

    /// The number of a procedure in the certificate, by its number in the analysis.
    pub(crate) fn id_of(&self, proc: u32) -> ProcId {
        if proc == MAIN || proc == NMI {
            return proc as u16;
        }
        let place = self
            .entries
            .partition_point(|entry| u32::from(*entry) + 2 < proc);
        self.before().saturating_add(place).min(65_535) as u16
    }

    /// The number of a procedure in the analysis, by its number in the certificate.
    pub(crate) fn proc_at(&self, id: usize) -> u32 {
        match id.checked_sub(self.before()) {
            Some(place) => match self.entries.get(place) {
                Some(entry) => u32::from(*entry) + 2,
                None => MAIN,
            },
            None => if id == 1 { NMI } else { MAIN },
        }
    }

    /// The entry of a procedure, by its number in the certificate.
    pub(crate) fn entry_at(&self, id: usize) -> u16 {
        match id.checked_sub(self.before()) {
            Some(place) => self.entries.get(place).copied().unwrap_or(0),
            None => if id == 1 { NMI_ADDRESS } else { 0 },
        }
    }

    /// The kind of a procedure, by its number in the certificate.
    pub(crate) fn kind_at(&self, id: usize) -> ProcKind {
        if id == 0 {
            ProcKind::Main
        } else if id == 1 && self.routine {
            ProcKind::Nmi
        } else {
            ProcKind::Sub
        }
    }

    /// The procedure with this rank. It has no depth yet, and no time except that the NMI routine has to have one.
    pub(crate) fn proc(&self, id: usize, rank: u16) -> Proc {
        let kind = self.kind_at(id);
        Proc {
            kind,
            entry: self.entry_at(id),
            rank,
            depth: 0,
            time: if kind == ProcKind::Nmi { Some(0) } else { None },
        }
    }
}
