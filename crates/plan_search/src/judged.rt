// What the writer answers to a plan.

ghost use Rattle.std.specs.Prelude.{◌≡◌, IfOk};

use analysis::{Flow, FlowFault};
use annotations::Annotations;
use cert_checker::Accepted;
use cert_lines::Version;
use cert_writer::{WriterFault, certify_flow};
use explored_plans::{ExploredPlan, SearchContext, exploring};
use fact_closure::{FactSearch, NeededFacts, facts_and_rows};
use inferred_rows::{Guide, Manner};
use inferring::{flow_of, found_rows_with};
use row_worklist::{Setting, Watch};
use std::alloc::Global;
use std::marker::Model;

/// What the writer answers to a plan for a ROM, with the facts that it takes. What is accepted is accepted for the ROM.
#[derive(Drop)]
pub struct Judged<'r> {
    bytes: &'r [u8],
    answered: Box<Answered<'r>>,
}

/// What the writer answers, and what it took for that.
#[derive(Drop)]
struct Answered<'r> {
    answer: Result<Accepted<'r>, WriterFault>,
    guide: Guide,
    /// The rows of the writer's certificate; None if the writer made none.
    flow: Option<Flow>,
    /// The least version of a certificate of these rows.
    version: Version,
}

impl<'r> Model for Judged<'r> {
    ghost use Rattle.std.specs.Prelude.{◌≡◌, List, ℕ, IfOk};

    ghost Value = { List ℕ };

    ghost view = { λ j. j.bytes.now };

    ghost invariant = { λ j. IfOk j.answered.value.answer (λ accepted. accepted.rom ≡ j.bytes.now) };
}

impl<'r> Judged<'r> {
    /// What the checker accepted, or why there is no certificate.
    pub fn answer(&self) -> &Result<Accepted<'r>, WriterFault> {
        &self.answered.answer
    }

    /// The same, by value.
    pub fn into_answer(self) -> Result<Accepted<'r>, WriterFault>
        ensures { IfOk result (λ accepted. accepted.rom ≡ self.entry) }
    {
        Box::into_inner(self.answered).answer
    }

    /// The facts of rows, and which states are distinguished.
    pub fn guide(&self) -> &Guide {
        &self.answered.guide
    }

    /// Whether the writer makes an accepted certificate of the same rows with other bounds of loops.
    pub(crate) fn is_accepted_with(
        &self,
        alloc: Global,
        said: &Annotations,
    ) -> Result<bool, FlowFault> {
        let answered = &self.answered;
        let Some(flow) = &answered.flow else {
            return Ok(false);
        };
        match certify_flow(alloc, self.bytes, said, flow, answered.version) {
            Err(WriterFault::NoMemory) => Err(FlowFault::NoMemory),
            Err(_) => Ok(false),
            Ok(_) => Ok(true),
        }
    }

    /// Whether the answer is better than another: it accepts, or where the other names a cycle without bounds, it names
    /// another or none, or it refuses another place for its time.
    pub(crate) fn is_better_than(&self, before: &Judged) -> bool {
        match (self.answer(), before.answer()) {
            (Ok(_), _) => true,
            (Err(WriterFault::Limit), _) => false,
            (Err(WriterFault::LoopUnbounded(at)), Err(WriterFault::LoopUnbounded(before))) => {
                at != before
            }
            (Err(_), Err(WriterFault::LoopUnbounded(_))) => true,
            (Err(WriterFault::Refused(refused)), Err(WriterFault::Refused(before))) => {
                matches!(refused.reason.number(), 17 | 18) && refused.address != before.address
            }
            _ => false,
        }
    }
}

/// The least version of a certificate whose rows are judged by the rules of a search.
fn least_version(context: &SearchContext) -> Version {
    match context.base().version {
        Version::One | Version::Two => Version::One,
        Version::Three => Version::Three,
    }
}

/// What the writer answers to an explored plan, with the facts that it needs.
pub(crate) fn judge<'r>(
    alloc: Global,
    context: &SearchContext,
    bytes: &'r [u8],
    explored: &ExploredPlan,
) -> Result<Judged<'r>, FlowFault>
    ensures { IfOk result (λ judged. judged ≡ bytes.now) }
{
    judge_with(alloc, context, bytes, explored, &explored.guide)
}

/// The same. The search for facts begins with those of a guide.
pub(crate) fn judge_with<'r>(
    alloc: Global,
    context: &SearchContext,
    bytes: &'r [u8],
    explored: &ExploredPlan,
    known: &Guide,
) -> Result<Judged<'r>, FlowFault>
    ensures { IfOk result (λ judged. judged ≡ bytes.now) }
{
    let version = least_version(context);
    let Some(task) = context.task(&explored.said) else {
        let answered = Answered {
            answer: Err(WriterFault::Limit),
            guide: Guide::none(alloc),
            flow: None,
            version,
        };
        return Ok(Judged {
            bytes,
            answered: Box::new(alloc, answered)?,
        });
    };
    let search = FactSearch {
        setting: exploring(&task, known),
        related: &explored.list,
        visits: context.visits(),
    };
    let NeededFacts { guide, rows } = facts_and_rows(alloc, &search)?;
    let setting = Setting {
        task: &task,
        guide: &guide,
        manner: Manner {
            explores: false,
            relates: false,
        },
    };
    let list = match rows {
        Some(list) => list,
        None => found_rows_with(
            alloc,
            setting,
            context.visits(),
            explored.list.judged_rows(),
            Watch::Nothing,
        )?,
    };
    let flow = flow_of(alloc, setting, list)?;
    match certify_flow(alloc, bytes, &explored.said, &flow, version) {
        Err(WriterFault::NoMemory) => Err(FlowFault::NoMemory),
        answer => {
            let answered = Answered {
                answer,
                guide,
                flow: Some(flow),
                version,
            };
            Ok(Judged {
                bytes,
                answered: Box::new(alloc, answered)?,
            })
        }
    }
}
