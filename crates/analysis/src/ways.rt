// The successors of a row, and why it leads nowhere.

ghost use Rattle.std.specs.Prelude.{◌≡◌, length};
ghost use Rattle.z80_decode.specs.Spelling.{spelling};

use crate::program_point::{MAIN, ProgramPoint};
use crate::reasons::{later_reason, place_reason, restarts};
use crate::task::Task;
use abs_draft::DataWrite;
use abs_state::AbsState;
use abs_step::{Nexts, Reason, RowStep, row_step};
use board_fetch::fetch;
use cert_lines::Version;
use flag_letters::FlagParts;
use intervals::ByteRange;
use refined_step::{RefinedStep, refined_step};
use smallvec::SmallVec;
use std::alloc::Global;
use z80_decode::Instr;

/// What a row writes, where it leads, and the lowest reason that makes it lead nowhere.
#[derive(Drop)]
pub struct JudgedRow {
    /// The data writes, a byte each, in order.
    pub writes: SmallVec<DataWrite, 2>,
    /// The successors; None where the step itself refuses the row, for one of the reasons 4, 5, 9, 10 and 12.
    pub nexts: Option<Nexts>,
    pub reason: Option<Reason>,
    /// The range of the byte in work at the end of the instruction; full where it has a test.
    pub operand: ByteRange,
    /// Whether the row is a restart: what it leads to is in main, without words on the stack.
    pub restarts: bool,
}

/// Judges a state with flag parts at a place, by the rules of the task's version; before version 3 the parts say
/// nothing. `timed` says whether the place's procedure is timed.
pub fn judged_row(
    alloc: Global,
    task: &Task,
    place: ProgramPoint,
    timed: bool,
    state: &AbsState,
    parts: &FlagParts,
) -> JudgedRow {
    let (instr, len) = match fetch(task.rom(), place.address) {
        Ok(found) => found,
        Err(fault) => {
            return JudgedRow {
                writes: SmallVec::new(alloc),
                nexts: None,
                reason: Some(Reason::Decode(fault)),
                operand: ByteRange::full(),
                restarts: false,
            };
        }
    };
    let RowStep {
        writes,
        answer,
        operand,
    } = step_at(alloc, task, place, &instr, len, state, parts);
    match answer {
        Ok(nexts) => {
            let all = writes.as_slice();
            let later = later_reason(task, place, timed, &instr, state, all, nexts.as_slice());
            let reason = place_reason(task, place, state, all).or(later);
            JudgedRow {
                writes,
                nexts: Some(nexts),
                reason,
                operand,
                restarts: restarts(task, place, timed, &instr),
            }
        }
        Err(refusal) => {
            let reason = if refusal.number() < 6 {
                refusal
            } else {
                place_reason(task, place, state, writes.as_slice()).unwrap_or(refusal)
            };
            JudgedRow {
                writes,
                nexts: None,
                reason: Some(reason),
                operand,
                restarts: false,
            }
        }
    }
}

/// The step of a row by the rules of the task's version.
fn step_at(
    alloc: Global,
    task: &Task,
    place: ProgramPoint,
    instr: &Instr,
    len: u8,
    state: &AbsState,
    parts: &FlagParts,
) -> RowStep
    requires len { len ≡ length (spelling instr.now) }
{
    let ground = task.ground();
    let main = place.proc == MAIN;
    let inline = task.is_inline(place.address);
    match task.version() {
        Version::One | Version::Two => row_step(
            alloc,
            &ground,
            place.address,
            main,
            inline,
            instr,
            len,
            state,
        ),
        Version::Three => {
            let RefinedStep {
                writes,
                answer,
                operand,
                ..
            } = refined_step(
                alloc,
                &ground,
                place.address,
                main,
                inline,
                instr,
                len,
                state,
                parts,
            );
            RowStep {
                writes,
                answer,
                operand,
            }
        }
    }
}

/// The successors of a row, or the lowest of the reasons that make it lead nowhere.
pub(crate) fn ways_on(
    alloc: Global,
    task: &Task,
    place: ProgramPoint,
    timed: bool,
    state: &AbsState,
) -> Result<Nexts, Reason> {
    let judged = judged_row(alloc, task, place, timed, state, &FlagParts::empty());
    match (judged.reason, judged.nexts) {
        (None, Some(nexts)) => Ok(nexts),
        (Some(reason), _) => Err(reason),
        (None, None) => Err(Reason::NotCovered),
    }
}
