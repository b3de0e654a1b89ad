// From which of main and the NMI routine code is reached.

use call_graph::ProcId;
use certificate::ProcKind;
use listing::View;
use std::alloc::{AllocError, Global};
use survey::RowAt;

/// From which of main and the NMI routine calls reach code.
#[derive(Clone, Copy, PartialEq, Eq)]
pub enum Side {
    Main,
    Nmi,
    Both,
    /// No call reaches it.
    Neither,
}

impl Side {
    /// The side of code that is reached by these.
    fn of(main: bool, nmi: bool) -> Side {
        match (main, nmi) {
            (true, true) => Side::Both,
            (true, false) => Side::Main,
            (false, true) => Side::Nmi,
            (false, false) => Side::Neither,
        }
    }

    /// The side of two pieces of code together.
    pub fn and(self, other: Side) -> Side {
        Side::of(
            self.has_main() || other.has_main(),
            self.has_nmi() || other.has_nmi(),
        )
    }

    fn has_main(self) -> bool {
        matches!(self, Side::Main | Side::Both)
    }

    fn has_nmi(self) -> bool {
        matches!(self, Side::Nmi | Side::Both)
    }
}

/// The sides of the procedures of a program.
#[derive(Drop)]
pub struct Sides {
    sides: Vec<Side>,
}

impl Sides {
    /// The sides of the procedures. Each procedure is on the sides of those that call it.
    pub fn of(alloc: Global, view: &View) -> Result<Sides, AllocError> {
        let procs = view.accepted().certificate().procs();
        let mut sides = Vec::new(alloc);
        let mut order = Vec::new(alloc);
        let mut number: ProcId = 0;
        for proc in procs {
            sides.push(match proc.kind {
                ProcKind::Main => Side::Main,
                ProcKind::Nmi => Side::Nmi,
                ProcKind::Sub => Side::Neither,
            })?;
            order.push((u16::MAX.saturating_sub(proc.rank), number))?;
            number = number.saturating_add(1);
        }
        // The rank falls at each call, so callers come before what they call.
        order.sort()?;
        let mut found = Sides { sides };
        for (_, proc) in &order {
            found.take_calls(view, *proc);
        }
        Ok(found)
    }

    /// Adds the sides of its callers to a procedure.
    fn take_calls(&mut self, view: &View, callee: ProcId) {
        let mut side = self.of_proc(callee);
        for place in view.survey().calls().of(callee) {
            side = side.and(self.of_proc(place.caller));
        }
        if let Some(own) = self.sides.get_mut(usize::from(callee)) {
            *own = side;
        }
    }

    /// The side of a procedure.
    pub fn of_proc(&self, proc: ProcId) -> Side {
        self.sides
            .get(usize::from(proc))
            .copied()
            .unwrap_or(Side::Neither)
    }

    /// The side of an instruction with these rows.
    pub fn of_rows(&self, rows: &[RowAt]) -> Side {
        let mut side = Side::Neither;
        for row in rows {
            side = side.and(self.of_proc(row.proc));
        }
        side
    }
}
