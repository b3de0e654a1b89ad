// The comments above entries: the instruction there, and what the ROM shows.

use crate::entries::{FileEntry, finding_of};
use crate::evidence::Evidence;
use crate::sums::equation;
use abs_state::KeptCell;
use analysis::FlowFault;
use annotations::{FactNote, LoopNote, SplitNote};
use named_annotations::{register_name, variable_name};

impl<'c, 'e, 'r> Evidence<'c, 'e, 'r> {
    /// The comment above an entry, with its line feed.
    pub(crate) fn comment(&self, entry: &FileEntry) -> Result<String, FlowFault> {
        let alloc = self.alloc;
        let here = self.shown(entry.at())?;
        let wanted = match finding_of(&self.found.explored.plan, entry) {
            Some(finding) => Some(self.shown(finding.wanted_at)?),
            None => None,
        };
        Ok(match (entry, wanted) {
            (FileEntry::Cell(cell), _) => self.cell_comment(cell)?,
            (FileEntry::Fact(note), _) => self.fact_comment(note)?,
            (FileEntry::Inline(_), Some(wanted)) => {
                format!(in alloc;
                    "# {here}: the callee's rows are this call's own, for {wanted}\n"
                )?
            }
            (FileEntry::Context(_), Some(wanted)) => {
                format!(in alloc; "# {here}: the callee has rows for this call, for {wanted}\n")?
            }
            (FileEntry::Turns(note), Some(wanted)) => format!(in alloc;
                "# {here}: the first {} turns of this loop are distinguished, for {wanted}\n",
                note.turns
            )?,
            (FileEntry::Split(split), Some(wanted)) => self.split_comment(&here, split, &wanted)?,
            (FileEntry::Loop(note), _) => self.loop_comment(&here, note)?,
            _ => format!(in alloc; "# {here}\n")?,
        })
    }

    /// The equation of a fact, and where its variables are loaded.
    fn fact_comment(&self, note: &FactNote) -> Result<String, FlowFault> {
        let alloc = self.alloc;
        let here = self.shown(note.at)?;
        let is = equation(alloc, &note.fact)?;
        let mut text = format!(in alloc; "# {here}: {is}")?;
        let mut last = None;
        for term in note.fact.terms() {
            let load = self.load_of(note.at, &term.variable)?;
            if let Some(at) = load {
                if load != last {
                    let mark = if last.is_none() { ": since " } else { ", " };
                    let load = self.shown(at)?;
                    write!(text, "{mark}{load}")?;
                }
                last = load;
            }
        }
        text.push_str("\n")?;
        Ok(text)
    }

    fn split_comment(
        &self,
        here: &String,
        split: &SplitNote,
        wanted: &String,
    ) -> Result<String, FlowFault> {
        let alloc = self.alloc;
        let register = register_name(split.register);
        let count = split.parts.len();
        Ok(format!(in alloc; "# {here}: {register} in {count} parts, for {wanted}\n")?)
    }

    fn loop_comment(&self, here: &String, note: &LoopNote) -> Result<String, FlowFault> {
        let alloc = self.alloc;
        let counter = variable_name(alloc, note.counter)?;
        let way = if note.rises { "up" } else { "down" };
        Ok(format!(in alloc; "# {here}: the head of a timed loop, which counts {counter} {way}\n")?)
    }

    /// The stores in a cell.
    fn cell_comment(&self, cell: &KeptCell) -> Result<String, FlowFault> {
        let alloc = self.alloc;
        let here = self.labelled(cell.at)?;
        let mut text = format!(in alloc; "# {here} is stored by")?;
        let mut is_first = true;
        for at in self.stores_in(cell.at)? {
            let mark = if is_first { " " } else { ", " };
            let shown = self.shown(at)?;
            write!(text, "{mark}{shown}")?;
            is_first = false;
        }
        text.push_str("\n")?;
        Ok(text)
    }
}
