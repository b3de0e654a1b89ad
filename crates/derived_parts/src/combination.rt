// Combinations: what candidates for parts are made of.

use crate::words::{halves_of, word_above};
use loop_bounds::{Linear, Term, Variable};

/// The room for terms.
const ROOM: usize = 8;

/// Stands where there is no term.
const NO_TERM: Term = Term {
    coefficient: 0,
    variable: Variable::A,
};

/// A constant and at most eight terms, in any order, no variable twice. A term with the coefficient 0 is none.
#[derive(Clone, Copy)]
pub(crate) struct Combination {
    constant: i32,
    terms: [Term; ROOM],
}

impl Combination {
    pub(crate) fn of_constant(constant: i32) -> Combination {
        Combination {
            constant,
            terms: [NO_TERM; ROOM],
        }
    }

    pub(crate) fn of(linear: &Linear) -> Combination {
        let mut combination = Combination::of_constant(linear.constant());
        for place in 0..ROOM {
            if let Some(term) = linear.terms().get(place) {
                combination.terms[place] = *term;
            }
        }
        combination
    }

    pub(crate) fn constant(&self) -> i32 {
        self.constant
    }

    /// The terms; those with the coefficient 0 are none.
    pub(crate) fn terms(&self) -> &[Term] {
        &self.terms
    }

    /// The coefficient of a variable, 0 if it has no term.
    pub(crate) fn coefficient_of(&self, variable: Variable) -> i32 {
        for term in &self.terms {
            if term.coefficient != 0 && term.variable == variable {
                return term.coefficient;
            }
        }
        0
    }

    /// The combination with a number added. None where that is too great.
    pub(crate) fn raised(&self, by: i32) -> Option<Combination> {
        let mut next = *self;
        next.constant = self.constant.checked_add(by)?;
        Some(next)
    }

    /// The combination with a term added. None where its coefficient gets too great or there is no room.
    pub(crate) fn with(&self, coefficient: i32, variable: Variable) -> Option<Combination> {
        let mut next = *self;
        if coefficient == 0 {
            return Some(next);
        }
        for place in 0..ROOM {
            let there: Term = next.terms[place];
            if there.coefficient != 0 && there.variable == variable {
                let coefficient = there.coefficient.checked_add(coefficient)?;
                next.terms[place] = Term {
                    coefficient,
                    variable,
                };
                return Some(next);
            }
        }
        for place in 0..ROOM {
            if next.terms[place].coefficient == 0 {
                next.terms[place] = Term {
                    coefficient,
                    variable,
                };
                return Some(next);
            }
        }
        None
    }

    /// The combination with a multiple of another one added. None where a number gets too great or there is no room.
    pub(crate) fn plus(&self, factor: i32, other: &Combination) -> Option<Combination> {
        let mut next = self.raised(other.constant.checked_mul(factor)?)?;
        for term in &other.terms {
            next = next.with(term.coefficient.checked_mul(factor)?, term.variable)?;
        }
        Some(next)
    }

    /// Whether a word with bytes of its own has a term.
    pub(crate) fn has_words(&self) -> bool {
        self.terms.iter().any(|term| term.coefficient != 0 && halves_of(&term.variable).is_some())
    }

    /// The same with 256 times the high byte and the low byte in place of each word.
    pub(crate) fn byte_form(&self) -> Option<Combination> {
        let mut next = Combination::of_constant(self.constant);
        for term in &self.terms {
            match halves_of(&term.variable) {
                Some(halves) => {
                    next = next.with(term.coefficient.checked_mul(256)?, halves.high)?;
                    next = next.with(term.coefficient, halves.low)?;
                }
                None => next = next.with(term.coefficient, term.variable)?,
            }
        }
        Some(next)
    }

    /// The same with a word in place of its bytes where they stand for it. None where no bytes do.
    pub(crate) fn pair_form(&self) -> Option<Combination> {
        let mut next = *self;
        let mut joins = false;
        for term in &self.terms {
            if let Some(word) = word_of(self, *term) {
                next = joined(&next, term, word)?;
                joins = true;
            }
        }
        if joins { Some(next) } else { None }
    }

    /// How many terms there are.
    pub(crate) fn count(&self) -> usize {
        self.terms
            .iter()
            .filter(|term| term.coefficient != 0)
            .count()
    }

    /// The term with this number among those that are there.
    pub(crate) fn term(&self, number: usize) -> Option<Term> {
        let mut before = 0usize;
        for term in &self.terms {
            if term.coefficient != 0 {
                if before == number {
                    return Some(*term);
                }
                before = before.saturating_add(1);
            }
        }
        None
    }

    /// The same with the sign turned.
    pub(crate) fn turned(&self) -> Option<Combination> {
        Combination::of_constant(0).plus(-1, self)
    }

    /// The linear, if the numbers and the terms fit into one.
    pub(crate) fn linear(&self) -> Option<Linear> {
        let mut linear = Linear::of_constant(self.constant)?;
        let mut rank = 0u16;
        for _ in 0..ROOM {
            let Some(term) = self.next_from(rank) else {
                return Some(linear);
            };
            rank = term.variable.rank().saturating_add(1);
            linear = linear.with_term(term)?;
        }
        None
    }

    /// The term with the first variable from this rank on.
    fn next_from(&self, rank: u16) -> Option<Term> {
        let mut first: Option<Term> = None;
        for term in &self.terms {
            if term.coefficient != 0 && term.variable.rank() >= rank {
                first = Some(earlier(first, *term));
            }
        }
        first
    }
}

/// The one of two terms whose variable comes first.
fn earlier(one: Option<Term>, other: Term) -> Term {
    match one {
        Some(one) if one.variable.rank() <= other.variable.rank() => one,
        _ => other,
    }
}

/// The word whose low byte a term is of, if the high byte's coefficient is 256 times as great.
fn word_of(bytes: &Combination, term: Term) -> Option<Variable> {
    if term.coefficient == 0 {
        return None;
    }
    let word = word_above(&term.variable)?;
    let halves = halves_of(&word)?;
    if bytes.coefficient_of(halves.high) == term.coefficient.checked_mul(256)? {
        Some(word)
    } else {
        None
    }
}

/// A combination with a word in place of its bytes. `low` is the term of the low byte.
fn joined(combination: &Combination, low: &Term, word: Variable) -> Option<Combination> {
    let halves = halves_of(&word)?;
    let high = low.coefficient.checked_mul(256)?.checked_neg()?;
    let without_high = combination.with(high, halves.high)?;
    let without_both = without_high.with(low.coefficient.checked_neg()?, halves.low)?;
    without_both.with(low.coefficient, word)
}

/// The negation of a linear. None where a number gets too great.
pub fn negated(linear: &Linear) -> Option<Linear> {
    let mut result = Linear::of_constant(linear.constant().checked_neg()?)?;
    for term in linear.terms() {
        result = result.with_term(Term {
            coefficient: term.coefficient.checked_neg()?,
            variable: term.variable,
        })?;
    }
    Some(result)
}
