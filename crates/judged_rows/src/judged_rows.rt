// Rows that were judged, kept for other analyses of the same ROM: plans that differ little have mostly the same rows.

use abs_state::{AbsState, FlagFact, Mode};
use analysis::{FlowFault, JudgedRow, MAIN, NMI, ProgramPoint, Task, judged_row};
use cert_lines::Version;
use flag_letters::{FlagParts, Letter};
use intervals::{ByteRange, Pair};
use std::alloc::Global;
use std::cell::RefCell;
use std::collections::HashMap;
use std::rc::Rc;
use z80_decode::Register8;

/// How many judged rows are kept. When there are as many, all are dropped.
const KEPT: usize = 40_000;

/// The judged rows by their digests.
type RowsByDigest = HashMap<u64, Rc<JudgedRow>>;

/// Judged rows by digests of what they depend on: the state, its place, and what a plan says of the whole ROM. Nothing
/// else may differ between the analyses that share them. Two rows with one digest, of 64 bits, count as the same; what
/// is found is judged by the checker in the end.
#[derive(Drop)]
pub struct JudgedRows {
    kept: Rc<RefCell<RowsByDigest>>,
    /// The digest of what a plan says of the whole ROM.
    whole: Digest,
}

impl JudgedRows {
    /// No rows.
    ///
    /// # Errors
    ///
    /// `NoMemory` where memory was refused.
    pub fn none(alloc: Global) -> Result<JudgedRows, FlowFault> {
        Ok(JudgedRows {
            kept: Rc::new(alloc, RefCell::new(HashMap::new(alloc)))?,
            whole: Digest::empty(),
        })
    }

    /// The same rows, for an analysis of this task.
    ///
    /// # Errors
    ///
    /// `NoMemory` where memory was refused.
    pub fn shared(&self, task: &Task) -> Result<JudgedRows, FlowFault> {
        Ok(JudgedRows {
            kept: self.kept.clone()?,
            whole: digest_of_task(task),
        })
    }

    /// Judges a state with flag parts at a place, if it was not judged before. `timed` says whether the place's
    /// procedure is timed.
    ///
    /// # Errors
    ///
    /// `NoMemory` where memory was refused.
    pub fn judged(
        &self,
        alloc: Global,
        task: &Task,
        place: ProgramPoint,
        timed: bool,
        state: &AbsState,
        parts: &FlagParts,
    ) -> Result<Rc<JudgedRow>, FlowFault> {
        let mut digest = self.whole;
        digest.add_place(place, timed, task.is_inline(place.address));
        digest.add_state(state);
        digest.add_parts(parts);
        match self.found(digest.value) {
            Some(judged) => Ok(judged),
            None => self.judged_anew(alloc, task, place, timed, state, parts, digest),
        }
    }

    /// Judges a row, and keeps the judged row. A function of its own, since room for a judged row is cleared
    /// when it begins.
    #[inline(never)]
    fn judged_anew(
        &self,
        alloc: Global,
        task: &Task,
        place: ProgramPoint,
        timed: bool,
        state: &AbsState,
        parts: &FlagParts,
        digest: Digest,
    ) -> Result<Rc<JudgedRow>, FlowFault> {
        let judged = Rc::new(alloc, judged_row(alloc, task, place, timed, state, parts))?;
        self.keep(alloc, digest.value, judged.clone()?)?;
        Ok(judged)
    }

    /// The judged row with this digest, if it is kept.
    fn found(&self, digest: u64) -> Option<Rc<JudgedRow>> {
        match self.kept.try_borrow() {
            Ok(kept) => match kept.get(&digest) {
                Some(judged) => judged.clone().ok(),
                None => None,
            },
            Err(_) => None,
        }
    }

    fn keep(&self, alloc: Global, digest: u64, judged: Rc<JudgedRow>) -> Result<(), FlowFault> {
        if let Ok(mut kept) = self.kept.try_borrow_mut() {
            if kept.len() >= KEPT {
                *kept = HashMap::new(alloc);
            }
            kept.insert(digest, judged)?;
        }
        Ok(())
    }
}

/// A number for a row of numbers, which changes with each of them.
#[derive(Clone, Copy)]
struct Digest {
    value: u64,
}

impl Digest {
    fn empty() -> Digest {
        Digest { value: 0 }
    }

    fn add(&mut self, number: u64) {
        let mixed = (self.value ^ number).wrapping_mul(0x9E37_79B9_7F4A_7C15);
        self.value = mixed ^ (mixed >> 32);
    }

    fn add_place(&mut self, place: ProgramPoint, timed: bool, inline: bool) {
        let side = match place.proc {
            MAIN => 0,
            NMI => 1,
            _ => 2,
        };
        self.add(u64::from(place.address));
        self.add(side);
        self.add(u64::from(timed));
        self.add(u64::from(inline));
    }

    fn add_state(&mut self, state: &AbsState) {
        let mode = match state.mode {
            Mode::Unset => 0,
            Mode::Set => 1,
            Mode::Nmi => 2,
        };
        self.add(mode);
        self.add(u64::from(state.armed));
        self.add_flag(state.flag);
        let pairs = &state.pairs;
        self.add_pair(&pairs.af);
        self.add_pair(&pairs.bc);
        self.add_pair(&pairs.de);
        self.add_pair(&pairs.hl);
        self.add_pair(&pairs.ix);
        self.add_pair(&pairs.iy);
        self.add_pair(&pairs.alternate_af);
        self.add_pair(&pairs.alternate_bc);
        self.add_pair(&pairs.alternate_de);
        self.add_pair(&pairs.alternate_hl);
        for slot in state.shape.slots() {
            self.add_pair(&slot.pair);
        }
    }

    fn add_flag(&mut self, flag: Option<FlagFact>) {
        let number = match flag {
            None => 0,
            Some(FlagFact::Zero(register)) => number_of(register),
            Some(FlagFact::Compared(byte)) => 0x100 | u64::from(byte),
        };
        self.add(number);
    }

    fn add_parts(&mut self, parts: &FlagParts) {
        for part in parts.parts() {
            let letter = match part.letter {
                Letter::Zero => 1,
                Letter::ZeroIfBelow => 2,
                Letter::CarryIfBelow => 3,
                Letter::SignIfBelow => 4,
            };
            self.add(letter);
            self.add_number(part.linear.constant());
            for term in part.linear.terms() {
                self.add_number(term.coefficient);
                self.add(u64::from(term.variable.rank()));
            }
        }
    }

    /// Adds a number that may be below 0.
    fn add_number(&mut self, number: i32) {
        self.add(u64::from(number.cast_unsigned()));
    }

    fn add_pair(&mut self, pair: &Pair) {
        let word = u64::from(pair.word.low()) << 16 | u64::from(pair.word.high());
        let bytes = number_of_range(pair.high) << 16 | number_of_range(pair.low);
        self.add(word << 32 | bytes);
        let origin = match pair.origin {
            Some(origin) => origin.place() as u64 + 1,
            None => 0,
        };
        self.add(origin);
    }
}

fn number_of_range(range: ByteRange) -> u64 {
    u64::from(range.low()) << 8 | u64::from(range.high())
}

/// A number for a register, from 1 on.
fn number_of(register: Register8) -> u64 {
    match register {
        Register8::A => 1,
        Register8::B => 2,
        Register8::C => 3,
        Register8::D => 4,
        Register8::E => 5,
        Register8::H => 6,
        Register8::L => 7,
    }
}

/// The digest of what a task says of the whole ROM: its cells, its stack region, whether there is an NMI routine, and
/// the version of its rules.
fn digest_of_task(task: &Task) -> Digest {
    let mut digest = Digest::empty();
    for cell in task.cells() {
        digest.add(u64::from(cell.at));
        digest.add(number_of_range(cell.range));
    }
    let region = task.said().region();
    digest.add(u64::from(region.low));
    digest.add(u64::from(region.top));
    digest.add(u64::from(task.has_routine()));
    digest.add(u64::from(task.version() == Version::Three));
    digest
}
