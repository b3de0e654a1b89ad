// The listing of a report.

use crate::report::Report;
use call_graph::ProcId;
use certificate::{Proc, ProcKind};
use listing::{Gap, procs_of};
use program_facts::WIDE;
use report_parts::{Page, with};
use report_sections::add_keeps;
use std::alloc::AllocError;
use survey::RowAt;
use symbols::is_shown;

/// The most bytes of a gap that are shown.
const DUMPED: usize = 1024;

/// The most names of a gap that are shown.
const NAMED: usize = 12;

impl Report<'_> {
    /// Adds what stands before the listing.
    pub(crate) fn add_listing_start(&self, page: &mut Page) {
        page.raw(
            "<section id=\"list\" aria-labelledby=\"h-list\"><h2 id=\"h-list\">Listing</h2>\n",
        );
        if !self.shown.is_listed {
            page.raw("<p>");
            page.number(u64::from(self.shown.instrs));
            page.raw(
                " instructions are too many for this page: <code>galcert list</code> prints them.</p>\n",
            );
            return;
        }
        page.raw(
            "<p>T: T-states, taken/not taken. Left: the most T-states until the procedure returns, where a time is \
             claimed. St: bytes on the stack in this procedure.",
        );
        if self.shown.nmi.is_some() {
            page.raw(" Way: how often the dearest way of the NMI routine comes by.");
        }
        page.raw(
            " Known: what holds whenever the instruction is reached, for the registers it uses; after labels and calls \
             for all. Bytes and addresses are hexadecimal, other numbers decimal.</p>\n<table class=\"l\">\
             <caption>The instructions that are reached, and the bytes that are not</caption><thead><tr>\
             <th scope=\"col\">Addr</th><th scope=\"col\" class=\"hide\">Bytes</th><th scope=\"col\">Instruction</th>\
             <th scope=\"col\" class=\"r\">T</th><th scope=\"col\" class=\"r\">Left</th>\
             <th scope=\"col\" class=\"r hide\">St</th>",
        );
        if self.shown.nmi.is_some() {
            page.raw("<th scope=\"col\" class=\"r hide\">Way</th>");
        }
        page.raw("<th scope=\"col\">Known</th></tr></thead>\n");
    }

    /// Adds what stands at an address, if an instruction with a row or a gap begins there.
    pub(crate) fn add_listed(&mut self, page: &mut Page, address: u16) -> Result<(), AllocError> {
        if !self.shown.is_listed {
            return Ok(());
        }
        let accepted = self.shown.view.accepted();
        let rows = self.shown.view.survey().rows().at(address);
        if accepted.code().bytes_at(address).is_some() {
            let mut own = Vec::new(self.shown.alloc);
            own.extend_from_slice(rows)?;
            let procs = procs_of(self.shown.alloc, own.as_slice())?;
            self.add_before(page, address, procs.as_slice())?;
            self.listed = procs;
            return self.add_listed_instr(page, address, own.as_slice());
        }
        if address >= self.next && !self.shown.view.survey().is_code(address) {
            if !self.is_open {
                page.raw("<tbody>");
                self.is_open = true;
            }
            let gap = self.shown.view.gap_at(address);
            let behind = gap.behind();
            self.add_gap(page, &gap)?;
            self.next = behind;
        }
        Ok(())
    }

    /// Adds the end of the listing, and the names at no place of it.
    pub(crate) fn add_listing_end(&self, page: &mut Page) -> Result<(), AllocError> {
        if self.shown.is_listed {
            if self.is_open {
                page.raw("</tbody>");
            } else {
                page.raw("<tbody><tr><td></td></tr></tbody>");
            }
            page.raw("</table>\n");
            self.add_other_names(page)?;
        }
        page.raw("</section>\n");
        Ok(())
    }

    /// The number of columns.
    fn columns(&self) -> &'static str {
        if self.shown.nmi.is_some() { "8" } else { "7" }
    }

    /// Adds a row with one cell for all columns, up to its content.
    fn open_wide(&self, page: &mut Page, class: &str) {
        page.open("tr", &[with("class", class)]);
        page.open(
            "th",
            &[with("scope", "rowgroup"), with("colspan", self.columns())],
        );
    }

    /// Adds what stands before an instruction: the procedures that begin there, those to which it belongs if they are
    /// others than above, and its names.
    fn add_before(
        &mut self,
        page: &mut Page,
        address: u16,
        procs: &[ProcId],
    ) -> Result<(), AllocError> {
        let mut begun = None;
        for proc in procs {
            if let Some(procedure) = self.shown.view.accepted().certificate().proc(*proc) {
                if procedure.entry == address {
                    if begun.is_none() {
                        begun = Some(*proc);
                        page.raw(if self.is_open {
                            "</tbody>\n<tbody>"
                        } else {
                            "<tbody>"
                        });
                        self.is_open = true;
                    }
                    self.add_proc_head(page, *proc, &procedure, procs)?;
                }
            }
        }
        if !self.is_open {
            page.raw("<tbody>");
            self.is_open = true;
        }
        if begun.is_none() && procs != self.listed.as_slice() {
            self.open_wide(page, "in");
            page.raw("part of ");
            self.shown.add_procs(page, procs, 8)?;
            page.raw("</th></tr>\n");
        }
        self.add_names(page, address, begun.is_some())
    }

    /// Adds the names of an address, unless the one name of a procedure stands above.
    fn add_names(&self, page: &mut Page, address: u16, is_entry: bool) -> Result<(), AllocError> {
        let mut text = String::new(self.shown.alloc);
        let mut count = 0u32;
        for name in self.shown.view.symbols().names_at(address) {
            if is_shown(name.as_str()) {
                if count > 0 {
                    text.push_str(" ")?;
                }
                text.push_str(name.as_str())?;
                text.push_str(":")?;
                count = count.saturating_add(1);
            }
        }
        if count == 0 || is_entry && count == 1 {
            return Ok(());
        }
        self.open_wide(page, "lb");
        page.text(text.as_str());
        page.raw("</th></tr>\n");
        Ok(())
    }

    /// Adds what a procedure is, before its entry.
    fn add_proc_head(
        &self,
        page: &mut Page,
        proc: ProcId,
        procedure: &Proc,
        procs: &[ProcId],
    ) -> Result<(), AllocError> {
        self.open_wide(page, "p");
        page.raw("<b>");
        page.made(self.shown.view.proc_name(procedure));
        page.raw("</b> <span class=\"mut\">· ");
        page.raw(match procedure.kind {
            ProcKind::Main => "main code ",
            ProcKind::Nmi => "NMI routine ",
            ProcKind::Sub => "procedure ",
        });
        page.address(procedure.entry);
        page.raw(" · depth ");
        page.number(u64::from(procedure.depth));
        if let Some(time) = procedure.time {
            page.raw(" · time ");
            page.number(u64::from(time));
        }
        if procedure.kind == ProcKind::Sub {
            self.add_calls(page, proc)?;
        }
        let mut others = Vec::new(self.shown.alloc);
        for other in procs {
            if *other != proc {
                others.push(*other)?;
            }
        }
        if !others.is_empty() {
            page.raw(" · its code is also part of ");
            self.shown.add_procs(page, others.as_slice(), 6)?;
        }
        page.raw("</span></th></tr>\n");
        Ok(())
    }

    /// Adds where a procedure is called, and what it keeps.
    fn add_calls(&self, page: &mut Page, proc: ProcId) -> Result<(), AllocError> {
        let mut places = Vec::new(self.shown.alloc);
        for place in self.shown.view.survey().calls().of(proc) {
            places.push(place.address)?;
        }
        places.sort()?;
        places.dedup();
        if places.is_empty() {
            page.raw(" · never called");
        } else {
            page.raw(" · called at ");
            self.shown.add_addresses(page, places.as_slice(), 10)?;
        }
        if self.shown.view.survey().kept(proc).is_some() {
            page.raw(" · keeps ");
        } else {
            page.raw(" · ");
        }
        add_keeps(&self.shown, page, proc);
        Ok(())
    }

    /// Adds the row of an instruction.
    fn add_listed_instr(
        &mut self,
        page: &mut Page,
        address: u16,
        rows: &[RowAt],
    ) -> Result<(), AllocError> {
        let alloc = self.shown.alloc;
        let accepted = self.shown.view.accepted();
        let (Some(instr), Some(bytes)) = (
            accepted.code().instr_at(address),
            accepted.code().bytes_at(address),
        ) else {
            return Ok(());
        };
        let id = format!(in alloc; "a{address:04X}")?;
        page.open("tr", &[with("id", id.as_str())]);
        page.raw("<th scope=\"row\">");
        page.address(address);
        page.raw("</th><td class=\"y hide\">");
        page.made(self.shown.view.hex_bytes(bytes));
        page.raw("</td><td class=\"i\">");
        self.shown.add_instr(page, address)?;
        page.raw("</td><td class=\"r\">");
        page.made(self.shown.view.cost_text(address));
        page.raw("</td><td class=\"r\">");
        if let Some(left) = self.shown.view.left(rows) {
            page.number(u64::try_from(left).unwrap_or(0));
        }
        page.raw("</td><td class=\"r hide\">");
        let (least, most) = self.shown.view.stack_bytes(rows);
        let stack = if least == most {
            format!(in alloc; "{most}")?
        } else {
            format!(in alloc; "{least}-{most}")?
        };
        page.text(stack.as_str());
        page.raw("</td>");
        self.add_way(page, address);
        page.raw("<td class=\"k\">");
        let is_head = self.shown.view.survey().is_head(address);
        self.add_known(page, rows, &instr, is_head)?;
        self.add_ways(page, rows, &instr, is_head)?;
        page.raw("</td></tr>\n");
        Ok(())
    }

    /// Adds how often the dearest way of the NMI routine comes by.
    fn add_way(&self, page: &mut Page, address: u16) {
        if self.shown.nmi.is_none() {
            return;
        }
        page.raw("<td class=\"r hide h\">");
        let count = self.shown.ways.count(address);
        if count > 0 {
            page.number(count);
            page.raw("×");
        } else if self.shown.ways.is_looped(address) {
            page.raw("loop");
        }
        page.raw("</td>");
    }

    /// Adds what the rows know together; the blanks within a part do not break.
    fn add_known(
        &self,
        page: &mut Page,
        rows: &[RowAt],
        instr: &z80_decode::Instr,
        is_head: bool,
    ) -> Result<(), AllocError> {
        let parts = self.shown.view.known(rows, instr, is_head)?;
        // The number of rows stands first at a head; it is shown with the ways.
        let skipped = if is_head && rows.len() > 1 { 1 } else { 0 };
        let mut is_first = true;
        for part in parts.iter().skip(skipped) {
            if !is_first {
                page.raw(", ");
            }
            is_first = false;
            let mut text = String::new(self.shown.alloc);
            for sign in part.chars() {
                text.push(if sign == ' ' { '\u{A0}' } else { sign })?;
            }
            page.text(text.as_str());
        }
        Ok(())
    }

    /// Adds a gap.
    fn add_gap(&self, page: &mut Page, gap: &Gap) -> Result<(), AllocError> {
        let alloc = self.shown.alloc;
        let id = format!(in alloc; "a{:04X}", gap.address)?;
        page.open("tr", &[with("class", "g"), with("id", id.as_str())]);
        page.raw("<th scope=\"row\">");
        page.address(gap.address);
        page.raw("</th>");
        page.open(
            "td",
            &[with("colspan", if self.shown.nmi.is_some() { "7" } else { "6" })],
        );
        page.made(self.shown.view.gap_text(gap));
        let readers = self.readers_between(gap.address, gap.behind())?;
        if !readers.is_empty() {
            page.raw(" at ");
            self.shown.add_addresses(page, readers.as_slice(), 6)?;
        }
        self.add_gap_names(page, gap);
        if gap.all_same().is_none() {
            self.add_dump(page, gap);
        }
        page.raw("</td></tr>\n");
        Ok(())
    }

    /// The instructions that read bytes from an address to below another one.
    fn readers_between(&self, start: u16, end: u16) -> Result<Vec<u16>, AllocError> {
        let mut readers = Vec::new(self.shown.alloc);
        for load in &self.shown.accesses.loads {
            let is_reader = load.ranges.iter().any(|range| {
                let size = u32::from(range.high()).saturating_sub(u32::from(range.low()));
                size < WIDE - 1 && range.low() < end && start <= range.high()
            });
            if is_reader {
                readers.push(load.address)?;
            }
        }
        Ok(readers)
    }

    /// Adds the names in a gap.
    fn add_gap_names(&self, page: &mut Page, gap: &Gap) {
        let mut count = 0usize;
        for address in gap.address..gap.behind() {
            for name in self.shown.view.symbols().names_at(address) {
                if !is_shown(name.as_str()) {
                    continue;
                }
                if count < NAMED {
                    page.raw(if count == 0 {
                        ". <span class=\"c\">"
                    } else {
                        ", "
                    });
                    page.made(format!(in self.shown.alloc; "{name} {address:04X}"));
                }
                count = count.saturating_add(1);
            }
        }
        if count > 0 {
            page.raw("</span>");
        }
        if count > NAMED {
            page.raw(" and ");
            page.number(count.saturating_sub(NAMED) as u64);
            page.raw(" more");
        }
    }

    /// Adds the bytes of a gap.
    fn add_dump(&self, page: &mut Page, gap: &Gap) {
        page.raw("<details><summary>show</summary><pre>");
        let mut address = gap.address;
        let (shown, _) = gap.bytes.split_at(gap.bytes.len().min(DUMPED));
        for bytes in shown.chunks(16) {
            page.made(self.shown.view.dump_line(address, bytes));
            page.raw("\n");
            address = address.saturating_add((bytes.len() % 0x1_0000) as u16);
        }
        if gap.bytes.len() > DUMPED {
            page.raw("… ");
            page.number(gap.bytes.len().saturating_sub(DUMPED) as u64);
            page.raw(" more");
        }
        page.raw("</pre></details>");
    }

    /// Adds the names of addresses of the ROM that lie inside instructions: they may be constants.
    fn add_other_names(&self, page: &mut Page) -> Result<(), AllocError> {
        let accepted = self.shown.view.accepted();
        let mut text = String::new(self.shown.alloc);
        let mut count = 0u64;
        for address in 0..accepted.rom().len() {
            if accepted.code().is_start(address) || !self.shown.view.survey().is_code(address) {
                continue;
            }
            for name in self.shown.view.symbols().names_at(address) {
                if is_shown(name.as_str()) {
                    if count > 0 {
                        text.push_str(", ")?;
                    }
                    text.push_str(format!(in self.shown.alloc; "{name} {address:04X}")?.as_str())?;
                    count = count.saturating_add(1);
                }
            }
        }
        if count == 0 {
            return Ok(());
        }
        page.raw("<details class=\"box\"><summary>");
        page.count(count, "label");
        page.raw(" inside other instructions, or constants</summary><p class=\"c\">");
        page.text(text.as_str());
        page.raw("</p></details>\n");
        Ok(())
    }
}
