// The parts that are found, and the candidates that were tried.

use crate::combination::Combination;
use crate::images::is_there;
use abs_state::AbsState;
use arrayvec::ArrayVec;
use check_claims::StepSource;
use flag_letters::{FlagPart, FlagParts, Letter, MOST_PARTS};
use loop_bounds::Linear;

/// The most candidates that are tried after one step.
const TRIES: usize = 48;

/// The parts that are found to hold, the simplest first, and all candidates that were tried.
#[derive(Drop)]
pub(crate) struct Found {
    tried: ArrayVec<FlagPart, TRIES>,
    known: ArrayVec<FlagPart, MOST_PARTS>,
}

impl Found {
    pub(crate) fn new() -> Found {
        Found {
            tried: ArrayVec::new(),
            known: ArrayVec::new(),
        }
    }

    /// Tries a candidate: it is kept if it is known to hold after the step, and is among the eight simplest.
    pub(crate) fn offer(
        &mut self,
        source: &StepSource,
        after: &AbsState,
        letter: Letter,
        candidate: &Combination,
    ) {
        let Some(part) = part_of(letter, candidate) else {
            return;
        };
        if self.is_beyond(&part)
            || self.tried.as_slice().contains(&part)
            || !is_said(&part, after)
        {
            return;
        }
        if self.tried.try_push(part).is_ok() && source.knows_part(&part, after) {
            self.keep(part);
        }
    }

    /// Whether eight parts are kept, and none of them is less simple.
    fn is_beyond(&self, part: &FlagPart) -> bool {
        self.known.is_full() && self.place_of(part) >= MOST_PARTS
    }

    /// How many of the kept parts come first.
    fn place_of(&self, part: &FlagPart) -> usize {
        self.known
            .as_slice()
            .iter()
            .filter(|known| is_simpler(known, part))
            .count()
    }

    fn keep(&mut self, part: FlagPart) {
        let place = self.place_of(&part);
        if self.known.is_full() {
            let _last = self.known.pop();
        }
        if place <= self.known.len() {
            let _fits = self.known.try_insert(place, part);
        }
    }

    /// The parts, the simplest first.
    pub(crate) fn parts(&self) -> FlagParts {
        let mut parts = FlagParts::empty();
        for part in self.known.as_slice() {
            if !parts.is_full() {
                parts.push(*part);
            }
        }
        parts
    }
}

/// The part with this letter and this candidate for its linear. The linear of a part `z` has a first coefficient above
/// 0: it says the same with the sign turned. None if the linear has more than three terms or too great numbers, or if
/// it has no variable and tells nothing that is used.
fn part_of(letter: Letter, candidate: &Combination) -> Option<FlagPart> {
    let linear = candidate.linear()?;
    match linear.terms().first() {
        None if !matches!(letter, Letter::Zero | Letter::CarryIfBelow) => None,
        Some(first) if first.coefficient < 0 && letter == Letter::Zero => {
            let linear = candidate.turned()?.linear()?;
            Some(FlagPart { letter, linear })
        }
        _ => Some(FlagPart { letter, linear }),
    }
}

/// Whether a state has all variables of a part.
fn is_said(part: &FlagPart, state: &AbsState) -> bool {
    part.linear
        .terms()
        .iter()
        .all(|term| is_there(state, &term.variable))
}

/// How many coefficients are above 1 in size, then how many terms there are, then the letter, as one number.
fn weight(part: &FlagPart) -> usize {
    let terms = part.linear.terms();
    let great = terms
        .iter()
        .filter(|term| term.coefficient.unsigned_abs() > 1)
        .count();
    let letter = match part.letter {
        Letter::Zero => 0,
        Letter::CarryIfBelow => 1,
        Letter::ZeroIfBelow => 2,
        Letter::SignIfBelow => 3,
    };
    great
        .saturating_mul(16)
        .saturating_add(terms.len().saturating_mul(4))
        .saturating_add(letter)
}

/// A term as a number, by its variable and its coefficient. A missing term comes first.
fn term_number(linear: &Linear, place: usize) -> i64 {
    match linear.terms().get(place) {
        Some(term) => i64::from(term.variable.rank())
            .saturating_add(1)
            .saturating_mul(4_000_000)
            .saturating_add(i64::from(term.coefficient)),
        None => 0,
    }
}

/// Whether a part comes before another one: fewer coefficients above 1 in size, fewer terms, then a fixed order.
fn is_simpler(one: &FlagPart, other: &FlagPart) -> bool {
    let (here, there) = (weight(one), weight(other));
    if here != there {
        return here < there;
    }
    for place in 0..3 {
        let (here, there) = (
            term_number(&one.linear, place),
            term_number(&other.linear, place),
        );
        if here != there {
            return here < there;
        }
    }
    one.linear.constant() < other.linear.constant()
}
