// A whole annotation file.

ghost use Rattle.std.specs.Prelude.{◌≡◌, length};

use crate::entries::{entries_of, guided_entries};
use crate::evidence::Evidence;
use crate::extending::{Extension, Standing, standing_of};
use crate::lines::Lines;
use address_map::{Map, Rom};
use analysis::FlowFault;
use annotations::Annotations;
use cert_lines::BoardMap;
use explored_plans::SearchContext;
use plan_search::Inference;
use std::alloc::{AllocError, Global};
use symbols::Symbols;

/// What is suggested.
#[derive(Drop)]
pub enum Suggested {
    /// `check` accepts the ROM with these annotations, without `--infer`.
    Plain(Annotations),
    /// `check --infer` accepts the ROM with what was found.
    Inferred,
    /// The ROM is not accepted.
    Refused,
}

/// What was found as an annotation file, by rising address, each entry under a comment with its evidence. With the
/// file, `check --infer --trials 0` answers as the search did. Facts are written where they are given or where `check`
/// accepts the file without `--infer`, since `--infer` finds them. After them, refused instructions that no note helped
/// stand as comments. Names of `symbols` stand for addresses that have a label.
///
/// `annot` is the text of the given annotations. Where it says anything, it stays with its comments and its order, and
/// what was found is added; only where the search changed a given split, the file is written anew. The map has to be
/// for a ROM of this length.
///
/// # Errors
///
/// `NoMemory` where memory was refused.
pub fn suggestion<'s, 'r>(
    alloc: Global,
    rom: &'s Rom<'s>,
    map: &'s Map,
    found: &'s Inference<'r, 's>,
    suggested: &Suggested,
    symbols: &Symbols,
    annot: &[u8],
) -> Result<String, FlowFault>
    requires { map.now.rom_len ≡ length rom.now }
{
    let lines = Lines { alloc, symbols };
    let mut text = head(alloc, suggested, symbols)?;
    let context = SearchContext::of(rom, map, &found.base, 0);
    let evidence = Evidence::of(alloc, symbols, &context, found)?;
    let mut entries = match suggested {
        Suggested::Plain(said) => entries_of(alloc, said)?,
        Suggested::Inferred | Suggested::Refused => {
            guided_entries(alloc, &found.explored.said, found.judged.guide())?
        }
    };
    entries.sort_by_key(|entry| entry.at())?;
    let given = found.base.given;
    let is_changed = entries
        .iter()
        .any(|entry| standing_of(entry, given) == Standing::Changed);
    let annot = str::from_utf8(annot)
        .unwrap_or("")
        .trim_start_matches('\u{FEFF}');
    if !annot.trim_ascii().is_empty() && !is_changed {
        let mut extension = Extension::of(alloc, annot)?;
        add_keys(&mut text, lines, found, extension.keys()?.as_slice())?;
        for entry in entries.as_slice() {
            if standing_of(entry, given) == Standing::New {
                let comment = evidence.comment(entry)?;
                extension.add(comment.as_str(), lines.entry(entry)?.as_str())?;
            }
        }
        let mut text = extension.into_text(text.as_str())?;
        add_refusals(&mut text, &evidence)?;
        return Ok(text);
    }
    add_keys(&mut text, lines, found, &[])?;
    for entry in entries.as_slice() {
        text.push_str("\n")?;
        text.push_str(evidence.comment(entry)?.as_str())?;
        text.push_str(lines.entry(entry)?.as_str())?;
    }
    add_refusals(&mut text, &evidence)?;
    Ok(text)
}

/// The lines of notes by rising address, without comments and without the keys about the whole ROM. Names of `symbols`
/// stand for addresses that have a label.
///
/// # Errors
///
/// `NoMemory` where memory was refused.
pub fn lines_of_notes(
    alloc: Global,
    symbols: &Symbols,
    notes: &Annotations,
) -> Result<String, FlowFault> {
    let lines = Lines { alloc, symbols };
    let mut text = String::new(alloc);
    let mut entries = entries_of(alloc, notes)?;
    entries.sort_by_key(|entry| entry.at())?;
    for entry in entries.as_slice() {
        text.push_str(lines.entry(entry)?.as_str())?;
    }
    Ok(text)
}

/// The first line: which call accepts the file, and whether it needs the symbols.
fn head(alloc: Global, suggested: &Suggested, symbols: &Symbols) -> Result<String, AllocError> {
    let with = if symbols.names().is_empty() {
        ""
    } else {
        " --symbols"
    };
    match suggested {
        Suggested::Plain(_) => format!(in alloc;
            "# galcert suggest: `check{with}` accepts the ROM with this file.\n"
        ),
        Suggested::Inferred => format!(in alloc;
            "# galcert suggest: `check --infer{with}` accepts the ROM with this file; `check{with}` does not.\n"
        ),
        Suggested::Refused => String::from_str(
            alloc,
            "# galcert suggest: the ROM is refused; this is what was found.\n",
        ),
    }
}

/// Adds the keys about the whole ROM that are wanted.
fn add_keys(
    text: &mut String,
    lines: Lines,
    found: &Inference,
    has: &[&str],
) -> Result<(), FlowFault> {
    let alloc = lines.alloc;
    if !has.contains(&"low") {
        let low = lines.stack_end(found.base.region.low)?;
        write!(text, "low = {low}\n")?;
    }
    if !has.contains(&"top") {
        let top = lines.stack_end(found.base.region.top)?;
        write!(text, "top = {top}\n")?;
    }
    if !has.contains(&"nmi") {
        text.push_str(if found.base.budget.is_some() {
            "nmi = true\n"
        } else {
            "nmi = false\n"
        })?;
    }
    if let (Some(budget), false) = (found.base.budget, has.contains(&"budget")) {
        write!(text, "budget = {budget}\n")?;
    }
    if found.base.board != BoardMap::Galaxian && !has.contains(&"map") {
        let name = str::from_utf8(found.base.board.name()).unwrap_or("");
        write!(text, "map = \"{name}\"\n")?;
    }
    Ok(())
}

/// Adds the refused instructions, each with the number and the name of a reason.
fn add_refusals(text: &mut String, evidence: &Evidence) -> Result<(), FlowFault> {
    let alloc = evidence.alloc;
    for address in evidence.found.stuck.as_slice() {
        let here = evidence.shown(*address)?;
        write!(text, "\n# refused: {here}")?;
        if let Some(reason) = evidence.reason_at(*address) {
            let name = str::from_utf8(reason.name()).unwrap_or("");
            write!(text, " [{} {name}]", reason.number())?;
        }
        text.push_str("\n")?;
    }
    Ok(())
}
