// What of an accepted program is shown.

use cert_checker::Accepted;
use certificate::ProcKind;
use command_streams::Captured;
use folded_walks::{WalkText, Walks, proc_named};
use listing::{ListFault, Listing, View};
use report::{FileNames, Report};
use std::alloc::{AllocError, Global};
use symbols::Symbols;
use texts::put;

/// What is asked for.
#[derive(Clone, Copy)]
pub(crate) enum ViewRequest<'a> {
    /// The listing.
    List,
    /// Where the T-states of a procedure go: of the one with this name or entry, or of the NMI routine. The second
    /// says whether each row has a line.
    Longest(Option<&'a str>, bool),
    /// The report, with the names of the files.
    Report(FileNames<'a>),
}

/// What is written.
#[derive(Drop)]
pub(crate) enum Shown<'a> {
    /// The listing: the headings, and then the lines of each address of the ROM.
    List(Listing<'a>),
    /// Where the T-states of a procedure go.
    Walk(WalkText<'a>),
    /// The report.
    Report(Report<'a>),
    /// One line.
    Line(String),
    /// Nothing, since no procedure has the name.
    Unknown,
}

impl<'a> Shown<'a> {
    /// What is asked for of an accepted program.
    pub(crate) fn of(
        alloc: Global,
        asked: ViewRequest<'a>,
        accepted: &'a Accepted<'a>,
        symbols: &'a Symbols,
    ) -> Result<Shown<'a>, AllocError> {
        let view = View::of(alloc, accepted, symbols)?;
        match asked {
            ViewRequest::List => Ok(Shown::List(Listing::of(view))),
            ViewRequest::Longest(entry, by_rows) => longest_of(alloc, view, entry, by_rows),
            ViewRequest::Report(names) => Ok(Shown::Report(Report::of(alloc, view, names)?)),
        }
    }

    /// The number of parts.
    pub(crate) fn count(&self) -> u32 {
        match self {
            Shown::List(listing) => {
                u32::from(listing.view().accepted().rom().len()).saturating_add(1)
            }
            Shown::Walk(text) => text.count(),
            Shown::Report(report) => report.count(),
            Shown::Line(_) => 1,
            Shown::Unknown => 0,
        }
    }

    /// Writes a part, counted from 0. The parts have to come in their order. The error is refused memory.
    pub(crate) fn write_part(&mut self, number: u32, out: &mut Captured) -> Result<(), AllocError> {
        let written = match self {
            Shown::List(listing) => match number.checked_sub(1) {
                Some(address) => listing.write_at((address % 0x1_0000) as u16, out),
                None => listing.write_headings(out),
            },
            Shown::Walk(text) => text.write_part(number, out),
            Shown::Report(report) => report.write_part(number, out),
            Shown::Line(line) => put(out, line.as_bytes()).map_err(ListFault::from),
            Shown::Unknown => Ok(()),
        };
        // The buffer fails only where memory is refused.
        match written {
            Ok(()) => Ok(()),
            Err(_) => Err(AllocError),
        }
    }
}

/// Where the T-states of a procedure go; one line if it has no time, or if there is no NMI routine.
fn longest_of<'a>(
    alloc: Global,
    view: View<'a>,
    entry: Option<&str>,
    by_rows: bool,
) -> Result<Shown<'a>, AllocError> {
    let named = match entry {
        Some(word) => proc_named(&view, word)?,
        // The NMI routine is the second procedure.
        None => match view.accepted().certificate().proc(1) {
            Some(proc) if proc.kind == ProcKind::Nmi => Some(1),
            _ => {
                let line = String::from_str(alloc, "nmi none\n")?;
                return Ok(Shown::Line(line));
            }
        },
    };
    let Some(proc) = named else {
        return Ok(Shown::Unknown);
    };
    match Walks::of(alloc, &view, proc)? {
        Some(walks) => Ok(Shown::Walk(WalkText::of(alloc, view, walks, by_rows))),
        None => {
            let entry = match view.accepted().certificate().proc(proc) {
                Some(procedure) => procedure.entry,
                None => 0,
            };
            Ok(Shown::Line(format!(in alloc; "untimed {entry:04X}\n")?))
        }
    }
}
