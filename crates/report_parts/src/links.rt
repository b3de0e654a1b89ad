// Links to the listing.

use crate::page::{Page, with};
use crate::reported::Reported;
use call_graph::ProcId;
use listing::kind_word;
use program_facts::Side;
use std::alloc::AllocError;
use symbols::is_shown;

/// The class and the word of a side.
pub fn side_words(side: Side) -> (&'static str, &'static str) {
    match side {
        Side::Main => ("m", "main"),
        Side::Nmi => ("n", "NMI"),
        Side::Both => ("b", "both"),
        Side::Neither => ("x", "unused"),
    }
}

/// Adds the opening tag of a link with a title.
fn open_titled<'t>(page: &mut Page, target: &'t str, title: &'t str) {
    page.open("a", &[with("href", target), with("title", title)]);
}

impl Reported<'_> {
    /// Adds a text that leads to the listing of an address, if there is one.
    pub fn add_link(
        &self,
        page: &mut Page,
        address: u16,
        text: &str,
        title: Option<&str>,
    ) -> Result<(), AllocError> {
        let target = format!(in self.alloc; "#a{address:04X}")?;
        let is_linked = self.is_listed && self.view.survey().rows().is_there(address);
        match (is_linked, title) {
            (true, Some(title)) => {
                open_titled(page, target.as_str(), title);
                page.text(text);
                page.close("a");
            }
            (true, None) => {
                page.open("a", &[with("href", target.as_str())]);
                page.text(text);
                page.close("a");
            }
            (false, Some(title)) => {
                page.open("span", &[with("title", title)]);
                page.text(text);
                page.close("span");
            }
            (false, None) => page.text(text),
        }
        Ok(())
    }

    /// Adds an address that leads to its listing.
    pub fn add_address(&self, page: &mut Page, address: u16) -> Result<(), AllocError> {
        let text = format!(in self.alloc; "{address:04X}")?;
        self.add_link(page, address, text.as_str(), None)
    }

    /// The name of a procedure.
    pub fn name_of(&self, proc: ProcId) -> Result<String, AllocError> {
        match self.view.accepted().certificate().proc(proc) {
            Some(procedure) => self.view.proc_name(&procedure),
            None => Ok(String::new(self.alloc)),
        }
    }

    /// Adds the name of a procedure, which leads to its listing.
    pub fn add_proc(&self, page: &mut Page, proc: ProcId) -> Result<(), AllocError> {
        let Some(procedure) = self.view.accepted().certificate().proc(proc) else {
            return Ok(());
        };
        let name = self.view.proc_name(&procedure)?;
        let kind = kind_word(procedure.kind);
        let title = format!(in self.alloc; "{kind} {:04X}", procedure.entry)?;
        self.add_link(page, procedure.entry, name.as_str(), Some(title.as_str()))
    }

    /// Adds the names of procedures, at most so many, and then the number of the others.
    pub fn add_procs(
        &self,
        page: &mut Page,
        procs: &[ProcId],
        most: usize,
    ) -> Result<(), AllocError> {
        let mut is_first = true;
        for proc in procs.iter().take(most) {
            if !is_first {
                page.raw(", ");
            }
            is_first = false;
            self.add_proc(page, *proc)?;
        }
        if procs.len() > most {
            page.raw(" and ");
            page.number(procs.len().saturating_sub(most) as u64);
            page.raw(" more");
        }
        Ok(())
    }

    /// Adds addresses that lead to their listings, at most so many, and then the number of the others.
    pub fn add_addresses(
        &self,
        page: &mut Page,
        addresses: &[u16],
        most: usize,
    ) -> Result<(), AllocError> {
        let mut is_first = true;
        for address in addresses.iter().take(most) {
            if !is_first {
                page.raw(" ");
            }
            is_first = false;
            self.add_address(page, *address)?;
        }
        if addresses.len() > most {
            page.raw(" +");
            page.number(addresses.len().saturating_sub(most) as u64);
        }
        Ok(())
    }

    /// Adds a side with its colour.
    pub fn add_side(&self, page: &mut Page, side: Side) -> Result<(), AllocError> {
        let (class, word) = side_words(side);
        let class = format!(in self.alloc; "sw {class}")?;
        page.open("span", &[with("class", class.as_str())]);
        page.text(word);
        page.close("span");
        Ok(())
    }

    /// The shown names of an address, or the nearest name at most 31 bytes below it; an empty text if there is none.
    pub fn label_of(&self, address: u16) -> Result<String, AllocError> {
        let mut text = String::new(self.alloc);
        match self.view.symbols().label_at(address) {
            Some(label) if label.offset == 0 => {
                for name in self.view.symbols().names_at(address) {
                    if is_shown(name.as_str()) {
                        if !text.is_empty() {
                            text.push_str(", ")?;
                        }
                        text.push_str(name.as_str())?;
                    }
                }
            }
            Some(label) if label.offset < 32 => {
                text.push_str(format!(in self.alloc; "{label}")?.as_str())?;
            }
            Some(_) | None => {}
        }
        Ok(text)
    }

    /// Adds a colour with its words.
    pub fn add_key(
        &self,
        page: &mut Page,
        class: &str,
        words: &str,
        bytes: Option<u64>,
    ) -> Result<(), AllocError> {
        let class = format!(in self.alloc; "sw {class}")?;
        page.raw("<li>");
        page.open("span", &[with("class", class.as_str())]);
        page.text(words);
        page.close("span");
        if let Some(bytes) = bytes {
            page.raw(": ");
            page.count(bytes, "byte");
        }
        page.raw("</li>");
        Ok(())
    }

    /// Where a byte leads; None if there is no listing.
    pub fn target_of(&self, kind: &str, address: u16) -> Result<Option<String>, AllocError> {
        if !self.is_listed {
            return Ok(None);
        }
        Ok(Some(format!(in self.alloc; "#{kind}{address:04X}")?))
    }
}
