// Instructions with links.

use crate::page::{Page, with};
use crate::reported::Reported;
use disassembly::{Reference, spelled};
use std::alloc::AllocError;

impl Reported<'_> {
    /// Adds the instruction at an address: targets lead to their listings, and names stand for addresses.
    pub fn add_instr(&self, page: &mut Page, address: u16) -> Result<(), AllocError> {
        let code = self.view.accepted().code();
        let (Some(instr), Some(bytes)) = (code.instr_at(address), code.bytes_at(address)) else {
            return Ok(());
        };
        let after = address.wrapping_add((bytes.len() % 0x1_0000) as u16);
        let text = spelled(&instr, after);
        page.text(text.before());
        let Some(reference) = text.reference() else {
            return Ok(());
        };
        let label = self.view.label_of(&instr, &text);
        self.add_reference(page, reference, label)?;
        page.text(text.after());
        match (reference, label) {
            (Reference::Restart(_) | Reference::Constant(_), Some(label)) => {
                page.raw(" <span class=\"cm\">");
                page.text(label);
                page.raw("</span>");
                Ok(())
            }
            _ => Ok(()),
        }
    }

    /// Adds the number of an instruction, or the name in its place.
    fn add_reference(
        &self,
        page: &mut Page,
        reference: Reference,
        label: Option<&str>,
    ) -> Result<(), AllocError> {
        let plain = format!(in self.alloc; "{reference}")?;
        let place = format!(in self.alloc; "{:04X}", reference.address())?;
        match (reference, label) {
            (Reference::Target(to), Some(label)) => {
                self.add_link(page, to, label, Some(place.as_str()))
            }
            (Reference::Target(to), None) => self.add_link(page, to, plain.as_str(), None),
            (Reference::Restart(to), _) => {
                self.add_link(page, u16::from(to), plain.as_str(), None)
            }
            (Reference::Memory(_), Some(label)) => {
                page.open("span", &[with("title", place.as_str())]);
                page.text(label);
                page.close("span");
                Ok(())
            }
            (Reference::Memory(_), None) | (Reference::Constant(_), _) => {
                page.text(plain.as_str());
                Ok(())
            }
        }
    }
}
