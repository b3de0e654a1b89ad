// Writes a whole listing.

use crate::columns::{Columns, known_lines, write_columns, write_line, write_wrapped};
use crate::fault::ListFault;
use crate::view::View;
use call_graph::ProcId;
use cert_checker::Accepted;
use std::alloc::{AllocError, Global};
use survey::RowAt;
use symbols::{Symbols, is_shown};
use texts::Sink;

/// The names of the columns.
const HEADINGS: Columns<'static> = Columns {
    address: "addr",
    bytes: "bytes",
    instr: "instruction",
    cost: "T",
    left: "left",
    stack: "stack",
};

/// What begins at an address.
#[derive(Drop)]
enum Begun {
    /// An instruction of these procedures.
    Instr(Vec<ProcId>),
    /// A gap, up to below this address.
    Gap(u16),
    Nothing,
}

/// A listing that is written address by address (docs/LISTING.md).
#[derive(Drop)]
pub struct Listing<'a> {
    view: View<'a>,
    /// The procedures of the instruction above.
    listed: Vec<ProcId>,
    /// The address after the last gap.
    next: u16,
}

impl<'a> Listing<'a> {
    /// The listing of a view, before its first line.
    pub fn of(view: View<'a>) -> Listing<'a> {
        Listing {
            listed: Vec::new(view.alloc),
            next: 0,
            view,
        }
    }

    /// What it shows.
    pub fn view(&self) -> &View<'a> {
        &self.view
    }

    /// Writes the names of the columns.
    ///
    /// # Errors
    ///
    /// `NoMemory` where memory was refused, `Device` where the sink failed; what was written stays.
    pub fn write_headings<W: Sink>(&self, out: &mut W) -> Result<(), ListFault> {
        let alloc = self.view.alloc;
        let mut heading = Vec::new(alloc);
        heading.push(String::from_str(alloc, "known")?)?;
        write_columns(alloc, &HEADINGS, &heading, out)
    }

    /// Writes the lines of an address, if an instruction with a row or a gap begins there. The addresses have to come
    /// one after another.
    ///
    /// # Errors
    ///
    /// `NoMemory` where memory was refused, `Device` where the sink failed; what was written stays.
    pub fn write_at<W: Sink>(&mut self, address: u16, out: &mut W) -> Result<(), ListFault> {
        match self.write_lines(address, out)? {
            Begun::Instr(procs) => self.listed = procs,
            Begun::Gap(next) => self.next = next,
            Begun::Nothing => {}
        }
        Ok(())
    }

    /// Writes the lines of an address.
    fn write_lines<W: Sink>(&self, address: u16, out: &mut W) -> Result<Begun, ListFault> {
        let rows = self.view.survey.rows().at(address);
        if !rows.is_empty() {
            let procs = procs_of(self.view.alloc, rows)?;
            self.view.write_procs(address, &procs, &self.listed, out)?;
            self.view.write_instr(address, rows, out)?;
            return Ok(Begun::Instr(procs));
        }
        if address >= self.next && !self.view.survey.is_code(address) {
            let gap = self.view.gap_at(address);
            self.view.write_gap(&gap, out)?;
            return Ok(Begun::Gap(gap.behind()));
        }
        Ok(Begun::Nothing)
    }
}

/// Writes the listing of an accepted program (docs/LISTING.md), line by line. The names of its addresses come from
/// `symbols`.
///
/// # Errors
///
/// `NoMemory` where memory was refused, `Device` where the sink failed; what was written stays.
pub fn write_listing<W: Sink>(
    alloc: Global,
    accepted: &Accepted,
    symbols: &Symbols,
    out: &mut W,
) -> Result<(), ListFault> {
    let mut listing = Listing::of(View::of(alloc, accepted, symbols)?);
    listing.write_headings(out)?;
    for address in 0..accepted.rom().len() {
        listing.write_at(address, out)?;
    }
    Ok(())
}

/// The procedures of rows, each once and rising.
pub fn procs_of(alloc: Global, rows: &[RowAt]) -> Result<Vec<ProcId>, AllocError> {
    let mut procs = Vec::new(alloc);
    for row in rows {
        if procs.last() != Some(&row.proc) {
            procs.push(row.proc)?;
        }
    }
    Ok(procs)
}

impl View<'_> {
    /// Writes what stands before an instruction: the procedures that begin there, those to which it belongs if they are
    /// others than before, and its labels: the names that are shown.
    fn write_procs<W: Sink>(
        &self,
        address: u16,
        procs: &[ProcId],
        before: &[ProcId],
        out: &mut W,
    ) -> Result<(), ListFault> {
        let mut begun = None;
        for id in procs {
            if let Some(proc) = self.accepted.certificate().proc(*id) {
                if proc.entry == address {
                    if begun.is_none() {
                        begun = Some(*id);
                        write_line("", out)?;
                    }
                    write_wrapped(self.alloc, self.proc_line(*id, &proc)?.as_str(), out)?;
                }
            }
        }
        let is_same = match begun {
            Some(id) => procs == [id].as_slice(),
            None => procs == before,
        };
        if !is_same {
            write_wrapped(self.alloc, self.part_line(procs)?.as_str(), out)?;
        }
        for name in self.symbols.names_at(address) {
            if is_shown(name.as_str()) {
                let line = format!(in self.alloc; "{name}:")?;
                write_line(line.as_str(), out)?;
            }
        }
        Ok(())
    }

    /// Writes the lines of an instruction.
    fn write_instr<W: Sink>(
        &self,
        address: u16,
        rows: &[RowAt],
        out: &mut W,
    ) -> Result<(), ListFault> {
        let alloc = self.alloc;
        let code = self.accepted.code();
        let (Some(instr), Some(bytes)) = (code.instr_at(address), code.bytes_at(address)) else {
            return Ok(());
        };
        let after = address.wrapping_add(bytes.len() as u16);
        let listed = self.listed_instr(&instr, bytes, after)?;
        if let Some(comment) = &listed.comment {
            write_line(comment.as_str(), out)?;
        }
        let left = match self.left(rows) {
            Some(left) => format!(in alloc; "{left}")?,
            None => String::from_str(alloc, "-")?,
        };
        let stack = match self.stack_bytes(rows) {
            (least, most) if least == most => format!(in alloc; "{most}")?,
            (least, most) => format!(in alloc; "{least}-{most}")?,
        };
        let known = self.known(rows, &instr, self.survey.is_head(address))?;
        let at = format!(in alloc; "{address:04X}")?;
        let digits = self.hex_bytes(bytes)?;
        let cost = self.cost_text(address)?;
        let columns = Columns {
            address: at.as_str(),
            bytes: digits.as_str(),
            instr: listed.text.as_str(),
            cost: cost.as_str(),
            left: left.as_str(),
            stack: stack.as_str(),
        };
        let lines = known_lines(alloc, &known)?;
        write_columns(alloc, &columns, &lines, out)
    }
}
