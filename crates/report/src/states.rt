// What distinguishes the rows at an address.

use crate::report::Report;
use certificate::RowRef;
use indexmap::IndexSet;
use loop_bounds::Linear;
use report_parts::{Page, grouped};
use row_texts::{Used, add_used_texts, used_by};
use std::alloc::AllocError;
use survey::{PAIRS, RowAt};
use z80_decode::Instr;

/// The most ways that are shown one by one.
const SHOWN: usize = 24;

/// The most addresses whose ways are shown one by one.
const MOST: u32 = 2_000;

/// What a line tells of a row.
#[derive(Drop)]
struct RowLine {
    /// The registers that differ between the rows of the address.
    names: Vec<Used>,
    has_procs: bool,
    has_times: bool,
}

/// Adds a number of rows or ways alone; `what` ends the element.
fn add_count(page: &mut Page, count: usize, what: &'static str) {
    page.raw(" <span class=\"cm\">");
    page.number(count as u64);
    page.raw(what);
}

/// Adds the ways, which a reader can open.
fn add_details(page: &mut Page, lines: &IndexSet<String>) {
    page.raw(" <details><summary>");
    page.number(lines.len() as u64);
    page.raw(" ways</summary><pre>");
    let mut is_first = true;
    for line in lines.iter().take(SHOWN) {
        if !is_first {
            page.raw("\n");
        }
        is_first = false;
        page.text(line.as_str());
    }
    if lines.len() > SHOWN {
        page.raw("\n… ");
        page.number(lines.len().saturating_sub(SHOWN) as u64);
        page.raw(" more");
    }
    page.raw("</pre></details>");
}

impl Report<'_> {
    /// Adds what distinguishes the rows at an address, if there are several.
    pub(crate) fn add_ways(
        &mut self,
        page: &mut Page,
        rows: &[RowAt],
        instr: &Instr,
        is_head: bool,
    ) -> Result<(), AllocError> {
        if rows.len() < 2 {
            return Ok(());
        }
        let lines = self.way_lines(rows, instr, is_head)?;
        if lines.len() < 2 {
            return if is_head {
                add_count(page, rows.len(), " rows</span>");
                Ok(())
            } else {
                Ok(())
            };
        }
        self.ways_shown = self.ways_shown.saturating_add(1);
        if self.ways_shown > MOST {
            add_count(page, lines.len(), " ways</span>");
            Ok(())
        } else {
            add_details(page, &lines);
            Ok(())
        }
    }

    /// What distinguishes the rows, a line for each way.
    fn way_lines(
        &self,
        rows: &[RowAt],
        instr: &Instr,
        is_head: bool,
    ) -> Result<IndexSet<String>, AllocError> {
        let told = RowLine {
            names: self.differing(rows, instr, is_head)?,
            has_procs: is_head && self.has_several_procs(rows),
            has_times: is_head && self.has_several_potentials(rows),
        };
        let mut lines = IndexSet::new(self.shown.alloc);
        for one in rows.chunks(1) {
            let line = self.way_line(one, &told)?;
            if !line.is_empty() {
                lines.insert(line)?;
            }
        }
        Ok(lines)
    }

    /// The registers that differ between the rows.
    fn differing(
        &self,
        rows: &[RowAt],
        instr: &Instr,
        is_head: bool,
    ) -> Result<Vec<Used>, AllocError> {
        let mut names = Vec::new(self.shown.alloc);
        for used in self.registers_of(instr, is_head)? {
            if self.differs(rows, used)? {
                names.push(used)?;
            }
        }
        Ok(names)
    }

    /// The line of one row; an empty one where nothing distinguishes it.
    fn way_line(&self, one: &[RowAt], told: &RowLine) -> Result<String, AllocError> {
        let mut line = String::new(self.shown.alloc);
        let Some(at) = one.first() else {
            return Ok(line);
        };
        let Some(row) = self.shown.view.accepted().certificate().row(at.id) else {
            return Ok(line);
        };
        for used in &told.names {
            self.add_register(&mut line, &row, *used)?;
        }
        if told.has_procs {
            add_comma(&mut line)?;
            line.push_str("in ")?;
            line.push_str(self.shown.name_of(at.proc)?.as_str())?;
        }
        if told.has_times {
            self.add_left(&mut line, one)?;
        }
        Ok(line)
    }

    /// Adds the T-states that are left at a row, where it has a potential.
    fn add_left(&self, line: &mut String, one: &[RowAt]) -> Result<(), AllocError> {
        let Some(left) = self.shown.view.left(one) else {
            return Ok(());
        };
        add_comma(line)?;
        let left = u64::try_from(left).unwrap_or(0);
        line.push_str(grouped(self.shown.alloc, left)?.as_str())?;
        line.push_str(" left")
    }

    /// The registers that are looked at: at a head all pairs, elsewhere those that the instruction uses.
    fn registers_of(&self, instr: &Instr, is_head: bool) -> Result<Vec<Used>, AllocError> {
        let mut all = Vec::new(self.shown.alloc);
        if is_head {
            for pair in PAIRS {
                all.push(Used::Pair(pair))?;
            }
        } else {
            for used in used_by(instr) {
                if let Some(used) = used {
                    all.push(used)?;
                }
            }
        }
        Ok(all)
    }

    /// The texts of what a row knows of a register.
    fn texts_of(&self, at: &RowAt, used: Used) -> Result<Vec<String>, AllocError> {
        let mut texts = Vec::new(self.shown.alloc);
        if let Some(row) = self.shown.view.accepted().certificate().row(at.id) {
            add_used_texts(
                self.shown.alloc,
                used,
                row.pairs.pair(used.pair()),
                &mut texts,
            )?;
        }
        Ok(texts)
    }

    /// Whether the rows know different things of a register.
    fn differs(&self, rows: &[RowAt], used: Used) -> Result<bool, AllocError> {
        let Some(first) = rows.first() else {
            return Ok(false);
        };
        let texts = self.texts_of(first, used)?;
        for row in rows {
            if self.texts_of(row, used)? != texts {
                return Ok(true);
            }
        }
        Ok(false)
    }

    /// Adds what a row knows of a register to a line.
    fn add_register(&self, line: &mut String, row: &RowRef, used: Used) -> Result<(), AllocError> {
        let mut texts = Vec::new(self.shown.alloc);
        add_used_texts(
            self.shown.alloc,
            used,
            row.pairs.pair(used.pair()),
            &mut texts,
        )?;
        for text in &texts {
            add_comma(line)?;
            line.push_str(text.as_str())?;
        }
        Ok(())
    }

    fn has_several_procs(&self, rows: &[RowAt]) -> bool {
        match rows.first() {
            Some(first) => rows.iter().any(|row| row.proc != first.proc),
            None => false,
        }
    }

    fn has_several_potentials(&self, rows: &[RowAt]) -> bool {
        match rows.first() {
            Some(first) => {
                let potential = self.potential_of(first);
                rows.iter().any(|row| self.potential_of(row) != potential)
            }
            None => false,
        }
    }

    fn potential_of(&self, at: &RowAt) -> Option<Linear> {
        self.shown
            .view
            .accepted()
            .certificate()
            .row(at.id)?
            .potential
    }
}

/// Adds a comma, unless the line is empty.
fn add_comma(line: &mut String) -> Result<(), AllocError> {
    if line.is_empty() {
        Ok(())
    } else {
        line.push_str(", ")
    }
}
