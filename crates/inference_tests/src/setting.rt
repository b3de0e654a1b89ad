// The setting of the tests: a row before an instruction at 0000, and the parts after its step.
use abs_draft::Ground;
use abs_state::{AbsState, Mode};
use abs_step::{Next, RowStep, row_step};
use address_map::{Map, Rom};
use board_fetch::fetch;
use check_claims::StepSource;
use derived_parts::{PartGround, PartStep, fact_ground_of, ground_of, parts_after};
use flag_conditions::{no_terms, one_term, two_terms};
use flag_letters::{FlagPart, FlagParts, Letter};
use intervals::{ByteRange, Pair};
use loop_bounds::{Linear, Variable};
use refined_step::{RefinedStep, refined_step};
use std::alloc::Global;
use z80_decode::Instr;

/// A range of bytes.
pub fn bytes(low: u8, high: u8) -> ByteRange {
    ByteRange::new(low, high).unwrap_or(ByteRange::full())
}

/// Only known: SP is set, and no NMI comes.
pub fn any_state() -> AbsState {
    let mut state = AbsState::of_main();
    state.mode = Mode::Set;
    state
}

/// The same with A in a range.
pub fn with_a(low: u8, high: u8) -> AbsState {
    let mut state = any_state();
    state.pairs.af = Pair::of_bytes(bytes(low, high), ByteRange::full());
    state
}

/// A part.
pub fn part(letter: Letter, linear: Linear) -> FlagPart {
    FlagPart { letter, linear }
}

/// Parts in their order.
pub fn parts(list: &[FlagPart]) -> FlagParts {
    let mut parts = FlagParts::empty();
    for part in list {
        if !parts.is_full() {
            parts.push(*part);
        }
    }
    parts
}

/// -64 + L
pub fn l_less_64() -> Linear {
    one_term(-64, 1, Variable::L)
}

/// C is set exactly if L is below 64.
pub fn of_l() -> FlagPart {
    part(Letter::CarryIfBelow, l_less_64())
}

/// C is set exactly if A is below 64.
pub fn of_a() -> FlagPart {
    part(Letter::CarryIfBelow, one_term(-64, 1, Variable::A))
}

/// C is set.
pub fn carry_set() -> FlagPart {
    part(Letter::CarryIfBelow, no_terms(-1))
}

/// A - v, for a variable behind A.
pub fn a_less(variable: Variable) -> Linear {
    match variable {
        Variable::B => two_terms(0, 1, Variable::A, -1, Variable::B),
        Variable::C => two_terms(0, 1, Variable::A, -1, Variable::C),
        _ => two_terms(0, 1, Variable::A, -1, Variable::L),
    }
}

/// The refined step from address 0000, in a called procedure, without kept cells and inline calls.
fn refined(alloc: Global, rom: &Rom, state: &AbsState, parts: &FlagParts) -> Option<RefinedStep> {
    let map = Map::galaxian(rom.len());
    let ground = Ground::of(rom, &map, &[]);
    match fetch(rom, 0) {
        Ok((instr, len)) => Some(refined_step(
            alloc, &ground, 0, false, false, &instr, len, state, parts,
        )),
        Err(_) => None,
    }
}

/// The parts after the step of a row with these facts and parts, in its one successor.
pub fn found_parts(
    alloc: Global,
    rom: &[u8],
    state: &AbsState,
    facts: &[Linear],
    row: &FlagParts,
) -> Option<FlagParts> {
    let rom = Rom::of(rom)?;
    let step = refined(alloc, &rom, state, row)?;
    match &step.answer {
        Ok(nexts) => match nexts.as_slice() {
            [next] => Some(parts_in(&step, next, state, facts)),
            _ => None,
        },
        Err(_) => None,
    }
}

fn parts_in(step: &RefinedStep, next: &Next, state: &AbsState, facts: &[Linear]) -> FlagParts {
    let source = StepSource {
        facts,
        before: state,
        settled: &next.effect,
        moved: &next.moved,
        linear: &step.told.linear,
        conditions: &step.told.conditions,
    };
    parts_after(&source, &next.state)
}

/// Whether these parts are among those after the step.
pub fn derives(
    alloc: Global,
    rom: &[u8],
    state: &AbsState,
    facts: &[Linear],
    row: &[FlagPart],
    wanted: &[FlagPart],
) -> bool {
    match found_parts(alloc, rom, state, facts, &parts(row)) {
        Some(found) => wanted.iter().all(|part| found.parts().contains(part)),
        None => false,
    }
}

/// Whether these are all parts after the step, in their order.
pub fn derives_only(
    alloc: Global,
    rom: &[u8],
    state: &AbsState,
    facts: &[Linear],
    row: &[FlagPart],
    wanted: &[FlagPart],
) -> bool {
    match found_parts(alloc, rom, state, facts, &parts(row)) {
        Some(found) => found.parts() == wanted,
        None => false,
    }
}

/// What is claimed after a step.
#[derive(Clone, Copy)]
pub enum Claimed {
    Part(FlagPart),
    Fact(Linear),
}

/// The ground of a claim after the step of a row with these facts and parts, in its one successor. None if there is no
/// such successor.
pub fn ground(
    alloc: Global,
    rom: &[u8],
    state: &AbsState,
    facts: &[Linear],
    row: &[FlagPart],
    claim: &Claimed,
) -> Option<Option<PartGround>> {
    let rom = Rom::of(rom)?;
    let map = Map::galaxian(rom.len());
    let place = Ground::of(&rom, &map, &[]);
    match fetch(&rom, 0) {
        Ok((instr, len)) => {
            let own = row_step(alloc, &place, 0, false, false, &instr, len, state);
            ground_in(&own, &instr, state, facts, &parts(row), claim)
        }
        Err(_) => None,
    }
}

fn ground_in(
    own: &RowStep,
    instr: &Instr,
    state: &AbsState,
    facts: &[Linear],
    row: &FlagParts,
    claim: &Claimed,
) -> Option<Option<PartGround>> {
    match &own.answer {
        Ok(nexts) => match nexts.as_slice() {
            [next] => {
                let step = PartStep {
                    instr,
                    operand: own.operand,
                    before: state,
                    facts,
                    parts: row,
                    settled: &next.effect,
                    moved: &next.moved,
                    after: &next.state,
                };
                Some(match claim {
                    Claimed::Part(part) => ground_of(&step, part),
                    Claimed::Fact(fact) => fact_ground_of(&step, fact),
                })
            }
            _ => None,
        },
        Err(_) => None,
    }
}
