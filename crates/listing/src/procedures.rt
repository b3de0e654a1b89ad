// The texts of procedures.

use crate::view::View;
use call_graph::ProcId;
use certificate::{Proc, ProcKind};
use intervals::RegPair;
use std::alloc::AllocError;
use survey::{KeptPairs, PAIRS};

/// The most procedures that a line names.
const NAMED: usize = 8;

/// The word for a kind of procedure: `main`, `nmi` or `sub`.
pub fn kind_word(kind: ProcKind) -> &'static str {
    match kind {
        ProcKind::Main => "main",
        ProcKind::Nmi => "nmi",
        ProcKind::Sub => "sub",
    }
}

impl View<'_> {
    /// The name of a procedure: the name that is shown at its entry, else `main`, `nmi` or `sub_` and its entry.
    pub fn proc_name(&self, proc: &Proc) -> Result<String, AllocError> {
        match (self.symbols.shown_at(proc.entry), proc.kind) {
            (Some(name), _) => String::from_str(self.alloc, name),
            (None, ProcKind::Main | ProcKind::Nmi) => {
                String::from_str(self.alloc, kind_word(proc.kind))
            }
            (None, ProcKind::Sub) => format!(in self.alloc; "sub_{:04X}", proc.entry),
        }
    }

    /// The line before the entry of a procedure: its kind, entry, name, depth and time; of a called one also where it
    /// is called from and what it keeps.
    pub(crate) fn proc_line(&self, id: ProcId, proc: &Proc) -> Result<String, AllocError> {
        let alloc = self.alloc;
        let (kind, entry, depth) = (kind_word(proc.kind), proc.entry, proc.depth);
        let name = self.proc_name(proc)?;
        let mut line = format!(in alloc; "; {kind} {entry:04X} {name}: depth {depth}")?;
        if let Some(time) = proc.time {
            line.push_str(format!(in alloc; ", time {time}")?.as_str())?;
        }
        if let ProcKind::Sub = proc.kind {
            let count = self.survey.calls().of(id).len();
            let times = if count == 1 { "time" } else { "times" };
            line.push_str(format!(in alloc; ", called {count} {times}")?.as_str())?;
            self.add_kept(&mut line, self.survey.kept(id))?;
        }
        Ok(line)
    }

    /// Adds what a procedure keeps.
    fn add_kept(&self, line: &mut String, kept: Option<KeptPairs>) -> Result<(), AllocError> {
        let Some(kept) = kept else {
            return line.push_str(", never returns");
        };
        line.push_str(", keeps")?;
        let mut is_none = true;
        for pair in PAIRS {
            if kept.contains(pair) {
                is_none = false;
                line.push_str(" ")?;
                line.push_str(pair_name(pair))?;
            }
        }
        if is_none {
            line.push_str(" nothing")?;
        }
        Ok(())
    }

    /// The line that names the procedures to which an instruction belongs, eight at most.
    pub(crate) fn part_line(&self, procs: &[ProcId]) -> Result<String, AllocError> {
        let alloc = self.alloc;
        let mut line = String::from_str(alloc, "; part of ")?;
        let mut is_first = true;
        for id in procs.iter().take(NAMED) {
            if let Some(proc) = self.accepted.certificate().proc(*id) {
                if !is_first {
                    line.push_str(", ")?;
                }
                line.push_str(self.proc_name(&proc)?.as_str())?;
                is_first = false;
            }
        }
        if procs.len() > NAMED {
            let more = procs.len() - NAMED;
            line.push_str(format!(in alloc; " and {more} more")?.as_str())?;
        }
        Ok(line)
    }
}

/// The name of a pair.
pub fn pair_name(pair: RegPair) -> &'static str {
    match pair {
        RegPair::Af => "AF",
        RegPair::Bc => "BC",
        RegPair::De => "DE",
        RegPair::Hl => "HL",
        RegPair::Ix => "IX",
        RegPair::Iy => "IY",
        RegPair::AlternateAf => "AF'",
        RegPair::AlternateBc => "BC'",
        RegPair::AlternateDe => "DE'",
        RegPair::AlternateHl => "HL'",
    }
}
