// Which rows may come next after which, for the search for a way.

ghost use Rattle.std.specs.Prelude.{◌≡◌, length};
ghost use Rattle.cert_form.specs.Contents.{map_of_board};

use crate::entered::Entered;
use crate::worth::greatest;
use abs_state::AbsState;
use abs_step::{Next, NextKind};
use address_map::{Map, Rom};
use call_graph::ProcId;
use cert_contents::{Certificate, RowId};
use cert_lines::RowRef;
use check_cover::callee_at;
use check_ways::{Subject, is_lone, potential_of};
use std::alloc::{AllocError, Global};
use write_requests::RowRuns;

/// A row that may come next after another.
#[derive(Clone, Copy)]
pub(crate) struct Link {
    /// The next row, counted from the procedure's first row.
    pub(crate) to: u32,
    /// T-states, the callee's time included.
    pub(crate) cost: u32,
    /// If the next row is in a loop that the link enters: what its potential comes to where the link arrives.
    pub(crate) worth: i64,
}

/// What is known of loops when links are found. Rows are counted from the procedure's first row.
#[derive(Clone, Copy)]
pub(crate) struct KnownLoops<'a> {
    /// Which rows are in loops.
    pub(crate) loops: &'a [bool],
    /// The groups of rows.
    pub(crate) groups: &'a [u16],
    /// Of a row in a loop, its group: links within it are passed over.
    pub(crate) own: Option<u16>,
}

impl<'a> KnownLoops<'a> {
    /// Nothing is known.
    pub(crate) fn none() -> KnownLoops<'a> {
        KnownLoops {
            loops: &[],
            groups: &[],
            own: None,
        }
    }

    /// Whether links to a row are passed over.
    fn is_passed_over(&self, row: u32) -> bool {
        self.own.is_some() && self.groups.get(row as usize).copied() == self.own
    }

    /// Whether a row is in a loop.
    fn is_in_loop(&self, row: u32) -> bool {
        self.loops.get(row as usize).copied() == Some(true)
    }
}

/// The links from one row at a time. So memory for them grows with the rows, and not with the links of all rows.
#[derive(Drop)]
pub(crate) struct Links {
    /// The procedure's first row.
    first: RowId,
    to: Vec<Link>,
    /// For each row of the procedure, the place of the link to it.
    places: Vec<Option<u32>>,
}

impl Links {
    /// No links yet, for the rows of a procedure.
    pub(crate) fn new(
        alloc: Global,
        certificate: &Certificate,
        proc: ProcId,
    ) -> Result<Links, AllocError> {
        let rows = certificate.rows_of(proc);
        let count = rows.end.saturating_sub(rows.start);
        Ok(Links {
            first: rows.start,
            to: Vec::new(alloc),
            places: vec![in alloc; None; count as usize]?,
        })
    }

    /// The procedure's first row.
    pub(crate) fn first(&self) -> RowId {
        self.first
    }

    /// The links of the row that was taken last.
    pub(crate) fn as_slice(&self) -> &[Link] {
        self.to.as_slice()
    }

    /// Takes the links from the row with this number, counted from the procedure's first row.
    pub(crate) fn take(
        &mut self,
        alloc: Global,
        rom: &Rom,
        map: &Map,
        certificate: &Certificate,
        row: u32,
        known: &KnownLoops,
    ) -> Result<(), AllocError>
        requires map { map.now ≡ map_of_board certificate.now }
        requires len { map.now.rom_len ≡ length rom.now }
    {
        self.forget();
        let id = self.first.saturating_add(row);
        let Some(subject) = Subject::of(rom, map, certificate, id) else {
            return Ok(());
        };
        if let Ok(nexts) = subject.step(alloc) {
            for next in nexts.as_slice() {
                self.add(&subject, next, known)?;
            }
        }
        Ok(())
    }

    /// Forgets the links of the row before.
    fn forget(&mut self) {
        for link in &self.to {
            if let Some(place) = self.places.get_mut(link.to as usize) {
                *place = None;
            }
        }
        self.to.clear();
    }

    /// Adds the links by a successor.
    fn add(
        &mut self,
        subject: &Subject,
        next: &Next,
        known: &KnownLoops,
    ) -> Result<(), AllocError> {
        match next.kind {
            NextKind::Jump => {
                let cost = u32::from(next.cost);
                self.add_rows(subject, next.address, &next.state, cost, known)
            }
            NextKind::Call => self.add_call(subject, next, known),
            NextKind::Exit => Ok(()),
        }
    }

    /// Adds the links by a call, back from each exit of its callee.
    fn add_call(
        &mut self,
        subject: &Subject,
        next: &Next,
        known: &KnownLoops,
    ) -> Result<(), AllocError> {
        let Some(callee) = callee_at(subject.certificate, next.address) else {
            return Ok(());
        };
        let cost = subject.call_cost(next, &callee);
        let rows = subject.certificate.rows_of(callee.number);
        for id in rows.start..rows.end {
            if let Some(exit) = subject.exit_at(id) {
                let state = next.state.after_call(&exit);
                self.add_rows(subject, subject.behind, &state, cost, known)?;
            }
        }
        Ok(())
    }

    /// Adds the links to the rows at an address that may cover this arriving state.
    fn add_rows(
        &mut self,
        subject: &Subject,
        address: u16,
        state: &AbsState,
        cost: u32,
        known: &KnownLoops,
    ) -> Result<(), AllocError> {
        let certificate = subject.certificate;
        let rows = certificate.rows_at(subject.row.proc, address);
        let lone = is_lone(certificate, subject.row.proc, address);
        for id in rows.start..rows.end {
            let to = id.saturating_sub(self.first);
            if known.is_passed_over(to) {
                continue;
            }
            if let Some(row) = certificate.row(id) {
                if lone || row.overlaps(state) {
                    let worth = worth_of(&row, state, known.is_in_loop(to));
                    self.add_link(Link { to, cost, worth })?;
                }
            }
        }
        Ok(())
    }

    /// Adds a link. Of two to one row the dearer stays; the first if they cost the same.
    fn add_link(&mut self, link: Link) -> Result<(), AllocError> {
        let count = u32::try_from(self.to.len()).unwrap_or(u32::MAX);
        let Some(place) = self.places.get_mut(link.to as usize) else {
            return Ok(());
        };
        match *place {
            Some(at) => {
                if let Some(other) = self.to.get_mut(at as usize) {
                    if other.cost < link.cost {
                        *other = link;
                    }
                }
            }
            None => {
                *place = Some(count);
                self.to.push(link)?;
            }
        }
        Ok(())
    }
}

/// What the potential of a row in a loop comes to where this state arrives; 0 for any other row.
fn worth_of(row: &RowRef, state: &AbsState, is_in_loop: bool) -> i64 {
    if !is_in_loop {
        return 0;
    }
    let own = row.state();
    let entered = Entered {
        own: &own,
        arriving: state,
    };
    greatest(&potential_of(row), &entered)
}

/// The rows that may come next after each row of a procedure, in the order of the rows. Those of one row are in the
/// order of its links.
pub(crate) fn rows_after_each(
    alloc: Global,
    rom: &Rom,
    map: &Map,
    certificate: &Certificate,
    proc: ProcId,
    links: &mut Links,
) -> Result<Vec<RowRuns>, AllocError>
    requires map { map.now ≡ map_of_board certificate.now }
    requires len { map.now.rom_len ≡ length rom.now }
{
    let rows = certificate.rows_of(proc);
    let mut all = Vec::new(alloc);
    for row in 0..rows.end.saturating_sub(rows.start) {
        links.take(alloc, rom, map, certificate, row, &KnownLoops::none())?;
        let mut runs = RowRuns::new(alloc);
        for link in links.as_slice() {
            runs.add(link.to, link.to.saturating_add(1))?;
        }
        all.push(runs)?;
    }
    Ok(all)
}
