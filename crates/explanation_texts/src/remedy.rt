// The lines of a remedy.

use analysis::FlowFault;
use annotations::Annotations;
use refusal_texts::{Wording, add_line};
use remedies::Remedy;
use suggestions::lines_of_notes;

/// Adds a remedy as a text that can be pasted into the annotations, or that none is known, with a habit of
/// docs/HABITS.md.
///
/// # Errors
///
/// `NoMemory` where memory was refused.
pub fn add_remedy(
    text: &mut String,
    with: &Wording,
    remedy: &Remedy,
    habit: Option<(u8, &str)>,
) -> Result<(), FlowFault> {
    match remedy {
        Remedy::Notes(notes) => {
            add_line(text, "try: add to the annotations")?;
            add_notes(text, with, notes)
        }
        Remedy::Instead(notes) => {
            add_line(
                text,
                "try: put in the place of the split at the same address",
            )?;
            add_notes(text, with, notes)
        }
        Remedy::Stack(region) => {
            add_line(text, "try: set in the annotations")?;
            let (low, top) = (region.low, region.top);
            write!(text, "    low = 0x{low:04X}\n    top = 0x{top:04X}\n")?;
            Ok(())
        }
        Remedy::Budget(budget) => {
            add_line(text, "try: set in the annotations")?;
            write!(text, "    nmi = true\n    budget = {budget}\n")?;
            Ok(())
        }
        Remedy::WithoutFacts(gone) => add_left_out(text, with, gone),
        Remedy::Above => add_line(text, "try: what is to be added above takes this away too"),
        Remedy::Infer => add_inferring(text, with, habit),
        Remedy::Untried => add_line(
            text,
            "try: mend what stands above, and explain again: no more was tried",
        ),
        Remedy::Unknown => add_habit(text, with, habit),
    }
}

/// Adds notes as a text that can be pasted.
fn add_notes(text: &mut String, with: &Wording, notes: &Annotations) -> Result<(), FlowFault> {
    for line in lines_of_notes(with.alloc, &with.names.symbols, notes)?.lines() {
        text.push_str("    ")?;
        text.push_str(line)?;
        text.push_str("\n")?;
    }
    Ok(())
}

/// Adds the addresses whose facts are to be left out.
fn add_left_out(text: &mut String, with: &Wording, gone: &[u16]) -> Result<(), FlowFault> {
    text.push_str(if gone.len() == 1 {
        "  try: leave out the fact at "
    } else {
        "  try: leave out the facts at "
    })?;
    for (count, at) in gone.iter().enumerate() {
        text.push_str(if count == 0 { "" } else { ", " })?;
        write!(text, "{}", with.place(*at))?;
    }
    text.push_str("\n")?;
    Ok(())
}

/// Adds that `--infer` needs no annotation, and a habit that needs none either.
fn add_inferring(
    text: &mut String,
    with: &Wording,
    habit: Option<(u8, &str)>,
) -> Result<(), FlowFault> {
    match habit {
        Some((number, title)) => add_line(
            text,
            format_args!(
                "try: the same command with --infer, which needs no annotation for it; or rewrite it: docs/HABITS.md, {number} \"{title}\""
            ),
        ),
        None => add_line(
            text,
            "try: the same command with --infer, which needs no annotation for it",
        ),
    }
}

/// Adds that no remedy is known, with a habit of docs/HABITS.md.
///
/// # Errors
///
/// `NoMemory` where memory was refused.
pub fn add_habit(
    text: &mut String,
    with: &Wording,
    habit: Option<(u8, &str)>,
) -> Result<(), FlowFault> {
    match habit {
        Some((number, title)) => add_line(
            text,
            format_args!(
                "try: no annotation is known; rewrite it: docs/HABITS.md, {number} \"{title}\""
            ),
        ),
        None => add_line(text, "try: no annotation is known"),
    }
}
