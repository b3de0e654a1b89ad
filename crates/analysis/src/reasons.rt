// The reasons that make a row lead nowhere: 4 to 10, 12 for a computed jump, 14 to 16 and 19 to 22 (docs/ANALYSIS.md,
// "Rows"; docs/CHECKER.md, "The table of reasons"). Each is asked by the test of the checker.

use crate::program_point::{MAIN, NMI, ProgramPoint};
use crate::task::Task;
use abs_draft::DataWrite;
use abs_state::{AbsState, Mode};
use abs_step::{Next, Reason, Saved};
use cert_lines::Version;
use check_writes::{
    all_keep, all_miss_region, all_miss_rom, all_miss_unmapped, find_armed, lost_at, none_enables,
    sets_sp, sets_top,
};
use z80_decode::{Instr, Register16, Special};

/// The lowest of the reasons 6, 7 and 8 that applies to the data writes of a row.
pub(crate) fn place_reason(
    task: &Task,
    place: ProgramPoint,
    state: &AbsState,
    writes: &[DataWrite],
) -> Option<Reason> {
    if !all_miss_rom(task.map(), writes) {
        return Some(Reason::WriteRom);
    }
    if !all_miss_unmapped(task.map(), writes) {
        return Some(Reason::WriteUnmapped);
    }
    let has_no_stack = place.proc == MAIN && state.shape.is_empty();
    if has_no_stack || all_miss_region(task.map(), task.said().region(), writes) {
        None
    } else {
        Some(Reason::StackOverwrite)
    }
}

/// The lowest of the reasons 14 to 16 and 19 to 22 that applies to a row with these successors. `timed` says whether
/// its procedure is timed.
pub(crate) fn later_reason(
    task: &Task,
    place: ProgramPoint,
    timed: bool,
    instr: &Instr,
    state: &AbsState,
    writes: &[DataWrite],
    nexts: &[Next],
) -> Option<Reason> {
    saved_reason(place, timed, instr, nexts)
        .or(enabling_reason(task, state, writes))
        .or(instruction_reason(task, place, timed, instr))
        .or(cell_reason(task, state, writes))
}

/// Reason 14.
fn saved_reason(place: ProgramPoint, timed: bool, instr: &Instr, nexts: &[Next]) -> Option<Reason> {
    if place.proc == NMI {
        if let Some(pair) = lost_at(nexts) {
            return Some(Reason::SavedRegister(Saved::Pair(pair)));
        }
    }
    if timed && matches!(instr, Instr::StoreASpecial(Special::I)) {
        return Some(Reason::SavedRegister(Saved::I));
    }
    None
}

/// Reasons 15 and 16.
fn enabling_reason(task: &Task, state: &AbsState, writes: &[DataWrite]) -> Option<Reason> {
    if none_enables(&task.ground(), writes) {
        return None;
    }
    if state.mode == Mode::Unset {
        return Some(Reason::NmiBeforeStack);
    }
    if task.has_routine() {
        None
    } else {
        Some(Reason::NmiMissing)
    }
}

/// Reasons 19 and 20.
fn instruction_reason(
    task: &Task,
    place: ProgramPoint,
    timed: bool,
    instr: &Instr,
) -> Option<Reason> {
    if timed && matches!(instr, Instr::Halt) {
        return Some(Reason::HaltInNmi);
    }
    let may_set = place.proc == MAIN || restarts(task, place, timed, instr);
    if sets_sp(instr) && !sets_top(may_set, task.said().region(), instr) {
        return Some(Reason::SpWrite);
    }
    None
}

/// Whether an instruction is a restart: in version 3, LD SP,nn in a called procedure without a time
/// (docs/CHECKER.md, "Restarts").
pub(crate) fn restarts(task: &Task, place: ProgramPoint, timed: bool, instr: &Instr) -> bool {
    let is_sub = place.proc != MAIN && place.proc != NMI;
    match task.version() {
        Version::One | Version::Two => false,
        Version::Three => is_sub && !timed && matches!(instr, Instr::LoadPair(Register16::Sp, _)),
    }
}

/// Reasons 21 and 22.
fn cell_reason(task: &Task, state: &AbsState, writes: &[DataWrite]) -> Option<Reason> {
    let ground = task.ground();
    if !all_keep(&ground, task.map(), state.armed, writes) {
        return Some(Reason::CellRange);
    }
    if !find_armed(&ground, task.cells().len(), state.armed, writes) {
        return Some(Reason::CellUnarmed);
    }
    None
}
