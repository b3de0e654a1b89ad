// Sets the bounds of a certificate: the depths and times of its procedures, and the potentials of its rows.

ghost use Rattle.std.specs.Bool.{OnFalse, OnTrue};
ghost use Rattle.std.specs.Prelude.{◌≡◌, ◌↔◌, IsTrue};
ghost use Rattle.cert_contents.specs.Bounds.{TakesBounds, TakesPotential, with_bounds_at, with_potential_at};

use crate::value::{Certificate, RowId, Unfinished};
use call_graph::ProcId;
use cert_fields::{is_linear, stays_within};
use cert_lines::Proc;
use loop_bounds::Linear;

impl Certificate {
    /// Sets the depth, in bytes of stack, and the time, in T-states, of a procedure. Only the form is asked for: main
    /// has no time, the NMI routine has one, and a time is at most 1,000,000,000. If there is no such procedure or it
    /// may not have this time, the answer is false and the certificate stays as it was.
    pub fn set_bounds(&mut self, id: ProcId, depth: u16, time: Option<u32>) -> bool
        ensures takes { IsTrue result ↔ TakesBounds self.old id depth time }
        ensures set { OnTrue result (self.new ≡ with_bounds_at self.old id depth time) }
        ensures unchanged { OnFalse result (self.new ≡ self.old) }
    {
        let Some(proc) = self.proc(id) else {
            return false;
        };
        let bounded = Proc {
            depth,
            time,
            ..proc
        };
        if !bounded.is_in_form() {
            return false;
        }
        self.draft.set_bounds(id, depth, time);
        true
    }

    /// Sets the potential of a row. Only the form is asked for: the potential names no slot beyond the row's shape. If
    /// there is no such row or no such slot, the answer is false and the certificate stays as it was.
    pub fn set_potential(&mut self, id: RowId, potential: Linear) -> bool
        ensures takes { IsTrue result ↔ TakesPotential self.old id potential }
        ensures set { OnTrue result (self.new ≡ with_potential_at self.old id potential) }
        ensures unchanged { OnFalse result (self.new ≡ self.old) }
    {
        let Some(row) = self.row(id) else {
            return false;
        };
        is_linear(&potential);
        if !stays_within(&potential, row.shape.len()) {
            return false;
        }
        self.draft.set_potential(id, potential);
        true
    }
}

impl Unfinished {
    /// Sets the depth and the time of the procedure with this number, if there is one.
    fn set_bounds(&mut self, id: ProcId, depth: u16, time: Option<u32>)
        ensures { self.new ≡ with_bounds_at self.old id depth time }
    {
        let number = usize::from(id);
        if number < self.procs.len() {
            let proc = &mut self.procs[number];
            proc.depth = depth;
            proc.time = time;
        }
    }

    /// Sets the potential of the row with this number, if there is one.
    fn set_potential(&mut self, id: RowId, potential: Linear)
        ensures { self.new ≡ with_potential_at self.old id potential }
    {
        self.rows.set_potential(id as usize, potential);
    }
}
