// Explains what `check --infer` answers to a ROM.

ghost use Rattle.std.specs.Prelude.{◌≡◌, IfOk, IfSome, length};

use crate::annotated::{COUNT_DOWN, Question, RECURSION};
use abs_step::Reason;
use address_map::{Map, Rom};
use analysis::{FlowFault, Task};
use annotations::Given;
use cert_writer::WriterFault;
use certificate::Version;
use explanation_parts::{add_too_large, first_of, is_about_whole};
use explanation_texts::{add_block, add_habit, add_head, add_recursion, add_unbounded};
use explanations::{Explored, refusals_of};
use explored_plans::{Progress, exploring};
use plan_search::{Inference, inferred};
use refusal_texts::{Bounds, Wording, add_region, add_rom_lengths, add_whole};
use remedies::Remedy;
use runner::cert_checker::Accepted;
use std::alloc::Global;

/// What `check --infer` answers to a ROM: the text of the explanation, and what was accepted.
pub(crate) fn searched<'r, P: Progress>(
    alloc: Global,
    bytes: &'r [u8],
    given: &Given,
    trials: u32,
    question: Question,
    progress: &mut P,
) -> Result<(String, Option<Accepted<'r>>), FlowFault>
    ensures rom { IfOk result (λ both. IfSome both.1 (λ accepted. accepted.rom ≡ bytes.now)) }
{
    let found = match inferred(alloc, bytes, given, trials, Version::Three, progress) {
        Ok(Some(found)) => found,
        Ok(None) => {
            let mut text = String::from_str(alloc, "0000  [1 Rom]\n")?;
            add_rom_lengths(&mut text, bytes.len(), None)?;
            text.push_str("  see: galcert explain 1\n")?;
            return Ok((text, None));
        }
        Err(FlowFault::Limit) => {
            return Ok((String::from_str(alloc, "too large\n")?, None));
        }
        Err(FlowFault::NoMemory) => return Err(FlowFault::NoMemory),
    };
    let text = told(alloc, bytes, &found, question)?;
    match found.judged.into_answer() {
        Ok(accepted) => Ok((String::from_str(alloc, "accepted\n")?, Some(accepted))),
        Err(_) => Ok((text, None)),
    }
}

/// Why a ROM is refused; an empty text where it is accepted.
fn told(
    alloc: Global,
    bytes: &[u8],
    found: &Inference,
    question: Question,
) -> Result<String, FlowFault> {
    let fault = match found.judged.answer() {
        Ok(_) => return Ok(String::new(alloc)),
        Err(fault) => fault,
    };
    let Some(rom) = Rom::of(bytes) else {
        return Ok(String::new(alloc));
    };
    let map = found.base.board.map(rom.len());
    told_rom(alloc, &rom, &map, found, question, fault)
}

/// Why a ROM is refused on its map, which is for a ROM of this length.
fn told_rom<'x>(
    alloc: Global,
    rom: &'x Rom<'x>,
    map: &'x Map,
    found: &'x Inference<'_, '_>,
    question: Question<'x>,
    fault: &WriterFault,
) -> Result<String, FlowFault>
    requires { map.now.rom_len ≡ length rom.now }
{
    let mut text = String::new(alloc);
    let with = Wording {
        alloc,
        rom,
        names: question.names,
    };
    let said = &found.explored.said;
    let Some(task) = Task::of(rom, map, said) else {
        add_too_large(&mut text, alloc, said, None)?;
        return Ok(text);
    };
    let setting = exploring(&task, &found.explored.guide);
    let explored = Explored::of(alloc, setting, &found.explored.list)?;
    match fault {
        WriterFault::Recursion(entries) => {
            text.push_str("recursion\n")?;
            add_recursion(&mut text, &with, Some(&explored), entries.as_slice())?;
            text.push_str(RECURSION)?;
        }
        WriterFault::LoopUnbounded(at) => {
            let place = with.location(*at);
            write!(text, "{place}  unbounded\n")?;
            add_unbounded(&mut text, &with, &explored, *at)?;
            add_habit(&mut text, &with, Some(COUNT_DOWN))?;
            text.push_str("  see: galcert explain 17\n")?;
        }
        WriterFault::Limit => add_too_large(&mut text, alloc, said, Some(&explored))?,
        WriterFault::Refused(_) | WriterFault::NoMemory => {}
    }
    add_refusals(&mut text, &with, found, &explored, fault, question)?;
    Ok(text)
}

/// Adds a block for each refusal.
fn add_refusals(
    text: &mut String,
    with: &Wording,
    found: &Inference,
    explored: &Explored,
    fault: &WriterFault,
    question: Question,
) -> Result<(), FlowFault> {
    let alloc = with.alloc;
    let refusals = refusals_of(alloc, explored, first_of(fault), &[])?;
    for (count, refusal) in refusals.iter().enumerate() {
        if count >= question.most {
            let more = refusals.len().saturating_sub(count);
            write!(text, "and {more} more\n")?;
            break;
        }
        if !is_about_whole(refusal) {
            add_block(text, with, explored, refusal, &Remedy::Unknown)?;
            continue;
        }
        add_head(text, with, refusal)?;
        let bounds = Bounds {
            region: found.base.region,
            work_start: found.base.board.work_start(),
            depths: None,
            time: None,
            budget: found.base.budget,
        };
        match refusal.reason {
            Reason::Region => add_region(text, &bounds)?,
            reason => add_whole(text, reason, &bounds)?,
        }
        let number = refusal.reason.number();
        write!(text, "  see: galcert explain {number}\n")?;
    }
    Ok(())
}
