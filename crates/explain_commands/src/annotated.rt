// Explains what `check` answers to a ROM and its annotations.

ghost use Rattle.std.specs.Prelude.{◌≡◌, IfOk, IfSome, length};

use abs_step::Reason;
use address_map::{Map, Rom};
use analysis::{FlowFault, Task};
use annotations::{Annotations, Given};
use cert_writer::{WriterFault, certify};
use certificate::Version;
use explanation_parts::{
    Outdated, add_too_large, bounds_of, first_of, given_by, is_about_whole, outdated_in,
};
use explanation_texts::{add_block, add_head, add_recursion, add_remedy, add_unbounded};
use explanations::{Explored, Refusal, refusals_of, unshown_rows};
use explored_plans::{Base, ExploredPlan, Plan, Progress, Search, SearchContext};
use inferred_rows::Guide;
use inferring::found_rows;
use refusal_texts::{Wording, add_entry, add_region, add_rom_lengths, add_whole};
use remedies::{Case, Remedies, Remedy, for_loop};
use runner::cert_checker::Accepted;
use source_lines::AddressNames;
use std::alloc::Global;
use tried_notes::plain_setting;

/// The most visits of rows in one analysis.
pub(crate) const VISITS: u32 = 2_000_000;

/// The rows of all analyses, together; a trial of the search takes three times as long as an analysis.
const EFFORT: usize = 150_000;

/// How many analyses of all rows come before the remedies: what `check` sees, the search's own, and those for facts.
const OWN: usize = 12;

/// The fewest analyses that try remedies.
const FEWEST: usize = 2;

/// The most analyses that try remedies.
const ANALYSES: usize = 400;

/// The question to `explain`: the names of addresses, and the most refusals to print.
#[derive(Clone, Copy)]
pub(crate) struct Question<'q> {
    pub(crate) names: &'q AddressNames,
    pub(crate) most: usize,
}

/// What `check` answers to a ROM and its annotations: the text of the explanation, and what was accepted.
pub(crate) fn explained<'r, P: Progress>(
    alloc: Global,
    bytes: &'r [u8],
    said: &Annotations,
    given: &Given,
    question: Question,
    progress: &mut P,
) -> Result<(String, Option<Accepted<'r>>), FlowFault>
    ensures rom { IfOk result (λ both. IfSome both.1 (λ accepted. accepted.rom ≡ bytes.now)) }
{
    match certify(alloc, bytes, said) {
        Ok(accepted) => Ok((String::from_str(alloc, "accepted\n")?, Some(accepted))),
        Err(WriterFault::NoMemory) => Err(FlowFault::NoMemory),
        Err(fault) => {
            let text = refused(alloc, bytes, said, given, question, &fault, progress)?;
            Ok((text, None))
        }
    }
}

/// The answer of `check`, the given notes, and the question.
#[derive(Drop)]
struct Asked<'a> {
    given: &'a Given,
    question: Question<'a>,
    fault: &'a WriterFault,
}

/// Why a ROM is refused.
fn refused<P: Progress>(
    alloc: Global,
    bytes: &[u8],
    said: &Annotations,
    given: &Given,
    question: Question,
    fault: &WriterFault,
    progress: &mut P,
) -> Result<String, FlowFault> {
    let Some(rom) = Rom::of(bytes) else {
        return no_rom(alloc, bytes);
    };
    let map = said.board().map(rom.len());
    let asked = Asked {
        given,
        question,
        fault,
    };
    let with = Wording {
        alloc,
        rom: &rom,
        names: question.names,
    };
    match outdated_in(&rom, &map, said, &with, VISITS)? {
        Some(outdated) => refused_without(alloc, bytes, &rom, &map, outdated, question, progress),
        None => refused_rom(alloc, bytes, &rom, &map, said, &asked, progress),
    }
}

/// Why a ROM is refused with outdated splits, and what is refused without them. The map is for a ROM of this length.
fn refused_without<P: Progress>(
    alloc: Global,
    bytes: &[u8],
    rom: &Rom,
    map: &Map,
    outdated: Outdated,
    question: Question,
    progress: &mut P,
) -> Result<String, FlowFault>
    requires { map.now.rom_len ≡ length rom.now }
{
    let Outdated { text, left } = outdated;
    let mut text = text;
    let fault = match certify(alloc, bytes, &left) {
        Ok(_) => return Ok(text),
        Err(WriterFault::NoMemory) => return Err(FlowFault::NoMemory),
        Err(fault) => fault,
    };
    let given = given_by(alloc, &left)?;
    let asked = Asked {
        given: &given,
        question,
        fault: &fault,
    };
    let rest = refused_rom(alloc, bytes, rom, map, &left, &asked, progress)?;
    text.push_str(rest.as_str())?;
    Ok(text)
}

/// The explanation of a ROM that has no bytes, or too many.
fn no_rom(alloc: Global, bytes: &[u8]) -> Result<String, FlowFault> {
    let mut text = String::new(alloc);
    text.push_str("0000  [1 Rom]\n")?;
    add_rom_lengths(&mut text, bytes.len(), None)?;
    text.push_str("  see: galcert explain 1\n")?;
    Ok(text)
}

/// The explanation where a limit of the writer ends its analysis.
fn too_large(
    alloc: Global,
    said: &Annotations,
    explored: Option<&Explored>,
) -> Result<String, FlowFault> {
    let mut text = String::new(alloc);
    add_too_large(&mut text, alloc, said, explored)?;
    Ok(text)
}

/// Why a ROM with a board is refused. The map is for a ROM of this length.
fn refused_rom<P: Progress>(
    alloc: Global,
    bytes: &[u8],
    rom: &Rom,
    map: &Map,
    said: &Annotations,
    asked: &Asked,
    progress: &mut P,
) -> Result<String, FlowFault>
    requires { map.now.rom_len ≡ length rom.now }
{
    let Some(task) = Task::of(rom, map, said) else {
        return too_large(alloc, said, None);
    };
    let guide = Guide::none(alloc);
    let setting = plain_setting(&task, &guide);
    let list = match found_rows(alloc, setting, VISITS) {
        Ok(list) => list,
        Err(FlowFault::Limit) => return too_large(alloc, said, None),
        Err(FlowFault::NoMemory) => return Err(FlowFault::NoMemory),
    };
    let explored = Explored::of(alloc, setting, &list)?;
    let case = Case {
        alloc,
        bytes,
        said,
        explored: &explored,
        visits: VISITS,
    };
    let with = Wording {
        alloc,
        rom,
        names: asked.question.names,
    };
    told(&case, rom, map, &with, asked, progress)
}

/// Why a ROM is refused, with remedies that a search finds. The map is for a ROM of this length.
fn told<P: Progress>(
    case: &Case,
    rom: &Rom,
    map: &Map,
    with: &Wording,
    asked: &Asked,
    progress: &mut P,
) -> Result<String, FlowFault>
    requires { map.now.rom_len ≡ length rom.now }
{
    let alloc = case.alloc;
    let base = Base {
        region: case.said.region(),
        budget: case.said.budget(),
        board: case.said.board(),
        given: asked.given,
        version: Version::Two,
    };
    let context = SearchContext::of(rom, map, &base, VISITS);
    let Some(plan) = ExploredPlan::of(alloc, &context, Plan::empty(alloc))? else {
        return too_large(alloc, case.said, Some(case.explored));
    };
    let analyses = analyses_of(case.explored.list.rows().len());
    let trials = analyses / 3;
    let mut search = Search::of(alloc, &context, plan, trials)?;
    let mut remedies = Remedies::new(alloc, analyses);
    let mut text = String::new(alloc);
    add_fault(&mut text, with, case, &mut search, asked.fault)?;
    add_refusals(
        &mut text,
        with,
        case,
        &mut search,
        &mut remedies,
        asked,
        progress,
    )?;
    Ok(text)
}

/// Adds the lines of a fault that is no refusal.
fn add_fault(
    text: &mut String,
    with: &Wording,
    case: &Case,
    search: &mut Search,
    fault: &WriterFault,
) -> Result<(), FlowFault> {
    match fault {
        WriterFault::Recursion(entries) => {
            text.push_str("recursion\n")?;
            add_recursion(text, with, Some(case.explored), entries.as_slice())?;
            text.push_str(RECURSION)?;
            Ok(())
        }
        WriterFault::LoopUnbounded(at) => add_loop(text, with, case, search, *at),
        WriterFault::Limit => add_too_large(text, case.alloc, case.said, Some(case.explored)),
        WriterFault::Refused(_) | WriterFault::NoMemory => Ok(()),
    }
}

/// Adds the lines about a loop without a bound.
fn add_loop(
    text: &mut String,
    with: &Wording,
    case: &Case,
    search: &mut Search,
    at: u16,
) -> Result<(), FlowFault> {
    let alloc = case.alloc;
    let place = with.location(at);
    write!(text, "{place}  unbounded\n")?;
    add_unbounded(text, with, case.explored, at)?;
    let remedy = for_loop(case, search, at)?;
    add_remedy(text, with, &remedy, Some(COUNT_DOWN))?;
    text.push_str("  see: galcert explain 17\n")?;
    Ok(())
}

/// Adds a block for each refusal, as many as are asked for.
fn add_refusals<P: Progress>(
    text: &mut String,
    with: &Wording,
    case: &Case,
    search: &mut Search,
    remedies: &mut Remedies,
    asked: &Asked,
    progress: &mut P,
) -> Result<(), FlowFault> {
    let alloc = case.alloc;
    let facts = case.said.facts();
    let unshown = unshown_rows(alloc, case.explored.steps(), facts, facts)?;
    let refusals = refusals_of(alloc, case.explored, first_of(asked.fault), &unshown)?;
    for (count, refusal) in refusals.iter().enumerate() {
        if count >= asked.question.most {
            let more = refusals.len().saturating_sub(count);
            write!(text, "and {more} more\n")?;
            break;
        }
        progress.tell(search.left, refusals.len());
        let remedy = match remedies.find(case, search, refusal)? {
            // Nothing stands above the first one.
            Remedy::Untried if count == 0 => Remedy::Unknown,
            remedy => remedy,
        };
        if is_about_whole(refusal) {
            add_whole_block(text, with, case, refusal, &remedy)?;
        } else {
            add_block(text, with, case.explored, refusal, &remedy)?;
        }
    }
    Ok(())
}

/// How many analyses of this many rows try remedies.
fn analyses_of(rows: usize) -> u32 {
    let left = EFFORT.saturating_sub(rows.saturating_mul(OWN));
    let count = left
        .checked_div(rows)
        .unwrap_or(0)
        .max(FEWEST)
        .min(ANALYSES);
    count as u32
}

/// The lines after a cycle of calls.
pub(crate) const RECURSION: &str =
    "  try: no annotation is known; rewrite it: docs/HABITS.md, 8 \"Return to the caller\"\n  see: galcert explain 13\n";

/// The habit against loops without a bound.
pub(crate) const COUNT_DOWN: (u8, &str) = (9, "Count down in the NMI routine");

/// Adds the lines about a reason of the whole.
fn add_whole_block(
    text: &mut String,
    with: &Wording,
    case: &Case,
    refusal: &Refusal,
    remedy: &Remedy,
) -> Result<(), FlowFault> {
    let alloc = with.alloc;
    add_head(text, with, refusal)?;
    let bounds = bounds_of(alloc, case.bytes, case.said, remedy)?;
    match refusal.reason {
        Reason::Region => add_region(text, &bounds)?,
        Reason::Entry => add_entry(text, refusal.address)?,
        reason => add_whole(text, reason, &bounds)?,
    }
    let habit = if refusal.reason == Reason::Budget {
        Some(COUNT_DOWN)
    } else {
        None
    };
    add_remedy(text, with, remedy, habit)?;
    let number = refusal.reason.number();
    write!(text, "  see: galcert explain {number}\n")?;
    Ok(())
}
