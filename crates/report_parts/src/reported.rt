// What a report shows of an accepted program.

use crate::ways::Ways;
use call_graph::ProcId;
use certificate::{Proc, ProcKind};
use folded_walks::Walks;
use listing::View;
use program_facts::{Accesses, Chains, RamRuns, RamUse, Sides};
use std::alloc::{AllocError, Global};

/// The most instructions that are listed in a page.
const LISTED: u32 = 12_000;

/// The names of the files, as they are shown.
#[derive(Clone, Copy)]
pub struct FileNames<'a> {
    pub rom: &'a str,
    pub cert: &'a str,
    /// The symbol file, if there is one.
    pub symbols: Option<&'a str>,
}

/// What a report shows of an accepted program.
#[derive(Drop)]
pub struct Reported<'a> {
    pub alloc: Global,
    pub view: View<'a>,
    pub names: FileNames<'a>,
    /// The NMI routine.
    pub nmi: Option<(ProcId, Proc)>,
    pub sides: Sides,
    pub accesses: Accesses,
    pub rams: Vec<RamUse>,
    pub runs: Vec<RamRuns>,
    pub chains: Chains,
    /// The dearest way of the NMI routine.
    pub walks: Option<Walks>,
    pub ways: Ways,
    /// Which procedure calls which, by the caller and then the callee, each pair once.
    pub calls: Vec<(ProcId, ProcId)>,
    /// The number of instructions.
    pub instrs: u32,
    /// Whether the page has the listing.
    pub is_listed: bool,
}

impl<'a> Reported<'a> {
    /// What a report shows of a program. The error is refused memory.
    pub fn of(
        alloc: Global,
        view: View<'a>,
        names: FileNames<'a>,
    ) -> Result<Reported<'a>, AllocError> {
        let nmi = match view.accepted().certificate().proc(1) {
            Some(proc) if proc.kind == ProcKind::Nmi => Some((1, proc)),
            _ => None,
        };
        let accesses = Accesses::of(alloc, &view)?;
        let rams = RamUse::all(alloc, &view, &accesses)?;
        let mut runs = Vec::new(alloc);
        for found in &rams {
            runs.push(RamRuns::of(alloc, &view, found)?)?;
        }
        let walks = match nmi {
            Some((proc, _)) => Walks::of(alloc, &view, proc)?,
            None => None,
        };
        let instrs = instrs_of(&view);
        Ok(Reported {
            alloc,
            names,
            nmi,
            sides: Sides::of(alloc, &view)?,
            accesses,
            rams,
            runs,
            chains: Chains::of(alloc, &view)?,
            ways: Ways::of(alloc, walks.as_ref())?,
            walks,
            calls: calls_of(alloc, &view)?,
            instrs,
            is_listed: instrs <= LISTED,
            view,
        })
    }
}

/// The number of instructions with a row.
fn instrs_of(view: &View) -> u32 {
    let mut count = 0u32;
    for address in 0..view.accepted().rom().len() {
        if view.accepted().code().is_start(address) {
            count = count.saturating_add(1);
        }
    }
    count
}

/// Which procedure calls which.
fn calls_of(alloc: Global, view: &View) -> Result<Vec<(ProcId, ProcId)>, AllocError> {
    let mut calls = Vec::new(alloc);
    let mut number: ProcId = 0;
    for _ in view.accepted().certificate().procs() {
        for place in view.survey().calls().of(number) {
            calls.push((place.caller, place.callee))?;
        }
        number = number.saturating_add(1);
    }
    calls.sort()?;
    calls.dedup();
    Ok(calls)
}
