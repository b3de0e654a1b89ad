// The texts of instructions, with labels.

use crate::view::View;
use address_map::ROM_LIMIT;
use disassembly::{InstrText, Reference, defined_bytes, shares_text, spelled};
use std::alloc::AllocError;
use z80_decode::{Instr, Register16};

/// The columns of an instruction.
const WIDTH: usize = 24;

/// How an instruction is listed.
#[derive(Drop)]
pub struct ListedInstr {
    /// The instruction as a comment line, where its column has DEFB.
    pub comment: Option<String>,
    /// The text, 24 characters at most.
    pub text: String,
}

/// Whether a text fits the columns of an instruction.
fn fits(text: &str) -> bool {
    text.chars().count() <= WIDTH
}

impl View<'_> {
    /// The text of the instruction with these bytes, of which `after` is the address after it. Where the text would
    /// assemble to other bytes, it is DEFB, and the instruction is a comment.
    pub fn listed_instr(
        &self,
        instr: &Instr,
        bytes: &[u8],
        after: u16,
    ) -> Result<ListedInstr, AllocError> {
        let text = self.labelled(instr, after)?;
        if shares_text(instr) {
            return Ok(ListedInstr {
                comment: Some(format!(in self.alloc; "; {text}")?),
                text: format!(in self.alloc; "{}", defined_bytes(bytes))?,
            });
        }
        Ok(ListedInstr {
            comment: None,
            text,
        })
    }

    /// The text of an instruction with its label: in the place of the number, or after a semicolon. It is left out
    /// where there is no room for it.
    pub fn labelled(&self, instr: &Instr, after: u16) -> Result<String, AllocError> {
        let alloc = self.alloc;
        let text = spelled(instr, after);
        let plain = format!(in alloc; "{text}")?;
        let Some(label) = self.label_of(instr, &text) else {
            return Ok(plain);
        };
        let labelled = match text.reference() {
            Some(Reference::Target(_) | Reference::Memory(_)) => {
                format!(in alloc; "{}{label}{}", text.before(), text.after())?
            }
            Some(Reference::Restart(_) | Reference::Constant(_)) | None => {
                format!(in alloc; "{plain} ;{label}")?
            }
        };
        Ok(if fits(labelled.as_str()) {
            labelled
        } else {
            plain
        })
    }

    /// The label of the number in an instruction. A symbol file does not distinguish constants from addresses, so the
    /// word of LD dd,nn has one only if it is an address of RAM or of a byte of data, and dd is not BC then.
    pub fn label_of(&self, instr: &Instr, text: &InstrText) -> Option<&str> {
        let reference = text.reference()?;
        let address = reference.address();
        if let Reference::Constant(word) = reference {
            let is_data = self.survey.is_read(word)
                && !self.survey.rows().is_there(word)
                && !matches!(instr, Instr::LoadPair(Register16::Bc, _));
            if word < ROM_LIMIT && !is_data {
                return None;
            }
        }
        self.symbols.shown_at(address)
    }
}
