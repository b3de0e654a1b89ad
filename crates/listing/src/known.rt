// What the rows at an address know, in short parts.

use crate::view::View;
use abs_state::Mode;
use certificate::RowRef;
use flag_letters::FlagPart;
use intervals::{Pair, RegPair};
use loop_bounds::Linear;
use row_texts::{
    add_pair_texts, add_used_texts, fact_text, flag_text, pair_hull, part_text, shared_flag,
    used_by,
};
use std::alloc::AllocError;
use survey::{PAIRS, RowAt};
use z80_decode::Instr;

/// Whether what an instruction does depends on the flags alone.
fn is_conditional(instr: &Instr) -> bool {
    matches!(
        instr,
        Instr::JumpIf(_, _) | Instr::JumpRelativeIf(_, _) | Instr::CallIf(_, _) | Instr::ReturnIf(_)
    )
}

impl View<'_> {
    /// What the rows at an address know together: the number of rows, ranges, whether SP is set and NMIs are off,
    /// facts, and what the flags say. At a head these are all registers, elsewhere those that the instruction uses, and
    /// the flags where it is conditional.
    pub fn known(
        &self,
        rows: &[RowAt],
        instr: &Instr,
        is_head: bool,
    ) -> Result<Vec<String>, AllocError> {
        let mut parts = Vec::new(self.alloc);
        if is_head {
            if rows.len() > 1 {
                parts.push(format!(in self.alloc; "{} rows", rows.len())?)?;
            }
            for pair in PAIRS {
                add_pair_texts(self.alloc, pair, self.hull(rows, pair), &mut parts)?;
            }
            self.add_mode(rows, &mut parts)?;
        } else {
            for used in used_by(instr) {
                if let Some(used) = used {
                    add_used_texts(self.alloc, used, self.hull(rows, used.pair()), &mut parts)?;
                }
            }
        }
        self.add_facts(rows, &mut parts)?;
        if is_head || is_conditional(instr) {
            self.add_flag(rows, &mut parts)?;
            self.add_flag_parts(rows, &mut parts)?;
        }
        Ok(parts)
    }

    fn row(&self, row: &RowAt) -> Option<RowRef<'_>> {
        self.accepted.certificate().row(row.id)
    }

    /// The hull of what rows know of a pair.
    fn hull(&self, rows: &[RowAt], of: RegPair) -> Pair {
        let mut hull = None;
        for row in rows {
            if let Some(row) = self.row(row) {
                let known = row.pairs.pair(of);
                hull = Some(match hull {
                    Some(before) => pair_hull(before, known),
                    None => known,
                });
            }
        }
        hull.unwrap_or(Pair::full())
    }

    /// Adds that SP is unset or that NMIs are off, if it is so in each row.
    fn add_mode(&self, rows: &[RowAt], parts: &mut Vec<String>) -> Result<(), AllocError> {
        let (mut unset, mut set) = (0usize, 0usize);
        for row in rows {
            match self.accepted.certificate().mode(row.id) {
                Some(Mode::Unset) => unset = unset.saturating_add(1),
                Some(Mode::Set) => set = set.saturating_add(1),
                Some(Mode::Nmi) | None => {}
            }
        }
        if unset == rows.len() {
            parts.push(String::from_str(self.alloc, "SP unset")?)?;
        } else if set == rows.len() {
            parts.push(String::from_str(self.alloc, "NMI off")?)?;
        }
        Ok(())
    }

    /// Adds the facts of the first row that all rows have.
    fn add_facts(&self, rows: &[RowAt], parts: &mut Vec<String>) -> Result<(), AllocError> {
        let Some(first) = rows.first() else {
            return Ok(());
        };
        let Some(first) = self.row(first) else {
            return Ok(());
        };
        for fact in first.facts.as_slice() {
            if rows.iter().all(|row| self.has_fact(row, fact)) {
                parts.push(fact_text(self.alloc, fact)?)?;
            }
        }
        Ok(())
    }

    fn has_fact(&self, row: &RowAt, fact: &Linear) -> bool {
        match self.row(row) {
            Some(row) => row.facts.as_slice().contains(fact),
            None => false,
        }
    }

    /// Adds the flag parts of the first row that all rows have.
    fn add_flag_parts(&self, rows: &[RowAt], parts: &mut Vec<String>) -> Result<(), AllocError> {
        let Some(first) = rows.first() else {
            return Ok(());
        };
        let Some(first) = self.row(first) else {
            return Ok(());
        };
        for part in first.parts.parts() {
            if rows.iter().all(|row| self.has_flag_part(row, part)) {
                parts.push(part_text(self.alloc, part)?)?;
            }
        }
        Ok(())
    }

    fn has_flag_part(&self, row: &RowAt, part: &FlagPart) -> bool {
        match self.row(row) {
            Some(row) => row.parts.parts().contains(part),
            None => false,
        }
    }

    /// Adds the flag fact, if it is the same in each row.
    fn add_flag(&self, rows: &[RowAt], parts: &mut Vec<String>) -> Result<(), AllocError> {
        let mut shared = None;
        let mut is_first = true;
        for row in rows {
            if let Some(row) = self.row(row) {
                shared = if is_first {
                    row.flag
                } else {
                    shared_flag(shared, row.flag)
                };
                is_first = false;
            }
        }
        if let Some(fact) = shared {
            parts.push(flag_text(self.alloc, fact)?)?;
        }
        Ok(())
    }
}
