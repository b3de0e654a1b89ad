// The potentials of rows, and the times of procedures.

ghost use Rattle.std.specs.Prelude.{◌≡◌, length};

use crate::fault::WriterFault;
use crate::layout::Layout;
use address_map::Rom;
use analysis::{Flow, NMI};
use annotations::LoopNote;
use call_graph::ProcId;
use cert_lines::GREATEST_TIME;
use certificate::{Certificate, RowId};
use loop_bounds::Linear;
use std::alloc::Global;
use t_states::NMI_COST;
use write_payments::greatest_value;
use write_potentials::{Nesting, PotentialFault, potentials};

/// The potentials of rows and the times of procedures, by their numbers, and what was in the way of some.
#[derive(Drop)]
pub(crate) struct Timed {
    pub(crate) potentials: Vec<Option<Linear>>,
    pub(crate) times: Vec<u32>,
    unbounded: Option<u16>,
    limit: bool,
    nesting: Nesting,
}

impl Timed {
    /// The potentials and times of all timed procedures of a certificate. In the order each procedure comes after those
    /// that it calls. The ROM has as many bytes as the certificate says.
    pub(crate) fn of(
        alloc: Global,
        rom: &Rom,
        certificate: &Certificate,
        flow: &Flow,
        layout: &Layout,
        procs: &[ProcId],
        notes: &[LoopNote],
    ) -> Result<Timed, WriterFault>
        requires { certificate.now.rom_len ≡ length rom.now }
    {
        let mut timed = Timed {
            potentials: vec![in alloc; None; certificate.row_count() as usize]?,
            times: vec![in alloc; 0; layout.count()]?,
            unbounded: None,
            limit: false,
            nesting: if flow.is_inferred() {
                Nesting::Carried
            } else {
                Nesting::Apart
            },
        };
        for proc in procs {
            let number = layout.proc_at(usize::from(*proc));
            if flow.is_timed(number) {
                timed.add(alloc, rom, certificate, *proc, number, notes)?;
            }
        }
        timed.judged()
    }

    /// Adds those of one procedure.
    fn add(
        &mut self,
        alloc: Global,
        rom: &Rom,
        certificate: &Certificate,
        proc: ProcId,
        number: u32,
        notes: &[LoopNote],
    ) -> Result<(), WriterFault>
        requires { certificate.now.rom_len ≡ length rom.now }
    {
        match potentials(
            alloc,
            rom,
            certificate,
            proc,
            &self.times,
            notes,
            self.nesting,
        ) {
            Ok(list) => self.keep(certificate, proc, number, &list),
            Err(PotentialFault::NoMemory) => return Err(WriterFault::NoMemory),
            Err(PotentialFault::Limit) => self.limit = true,
            Err(PotentialFault::Unbounded(address)) => {
                let lowest = self.unbounded.unwrap_or(u16::MAX);
                self.unbounded = Some(lowest.min(address));
            }
        }
        Ok(())
    }

    /// Keeps the potentials of a procedure's rows. Its time is the greatest value of those at its entry, for the NMI
    /// routine with the acceptance.
    fn keep(&mut self, certificate: &Certificate, proc: ProcId, number: u32, list: &[Linear]) {
        let entry = certificate.entry(proc).unwrap_or(0);
        let before = if number == NMI {
            i128::from(NMI_COST)
        } else {
            0
        };
        let mut id = certificate.rows_of(proc).start;
        let mut time = 0i128;
        for potential in list {
            if certificate.address(id) == Some(entry) {
                if let Some(state) = certificate.state(id) {
                    time = time.max(greatest_value(potential, &state).saturating_add(before));
                }
            }
            self.keep_potential(id, *potential);
            id = id.saturating_add(1);
        }
        self.keep_time(proc, time);
    }

    fn keep_potential(&mut self, id: RowId, potential: Linear) {
        if let Some(place) = self.potentials.get_mut(id as usize) {
            *place = Some(potential);
        }
    }

    /// Keeps the time of a procedure; a time above the greatest one is a limit.
    fn keep_time(&mut self, proc: ProcId, time: i128) {
        if time > i128::from(GREATEST_TIME) {
            self.limit = true;
            return;
        }
        if let Some(place) = self.times.get_mut(usize::from(proc)) {
            *place = u32::try_from(time).unwrap_or(0);
        }
    }

    /// The result, or what was in the way.
    fn judged(self) -> Result<Timed, WriterFault> {
        if let Some(address) = self.unbounded {
            return Err(WriterFault::LoopUnbounded(address));
        }
        if self.limit {
            Err(WriterFault::Limit)
        } else {
            Ok(self)
        }
    }
}
