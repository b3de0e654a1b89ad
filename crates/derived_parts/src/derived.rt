// The parts after a step: candidates made of its conditions, each judged.

use crate::combination::Combination;
use crate::found::Found;
use crate::images::{Image, Images, NOTHING, images_of};
use abs_state::AbsState;
use check_claims::StepSource;
use flag_letters::{FlagParts, Letter};
use loop_bounds::{Change, Effect, Linear, Ranges, Term};

/// Flag parts that are known to hold after a step, in the state after it: at most eight, the simplest first. A part is
/// simpler if fewer of its coefficients are above 1 in size, then if it has fewer terms. `source` knows each of them,
/// and the state has all their variables.
pub fn parts_after(source: &StepSource, after: &AbsState) -> FlagParts {
    if source.conditions.before().is_empty() && source.conditions.after().is_empty() {
        return FlagParts::empty();
    }
    let mut found = Found::new();
    offer_conditions(&mut found, source, after);
    if !source.facts.is_empty() {
        offer_copies(&mut found, source, after);
    }
    found.parts()
}

/// Tries what the conditions say themselves.
fn offer_conditions(found: &mut Found, source: &StepSource, after: &AbsState) {
    for condition in source.conditions.after() {
        let said = Combination::of(&condition.linear);
        offer_forms(found, source, after, condition.letter, &said);
    }
    for condition in source.conditions.before() {
        let said = Combination::of(&condition.linear);
        offer_before(found, source, after, condition.letter, &said);
    }
}

/// Tries what the conditions say with facts before the step put in.
fn offer_copies(found: &mut Found, source: &StepSource, after: &AbsState) {
    for condition in source.conditions.before() {
        let said = Combination::of(&condition.linear);
        offer_with_facts(found, source, after, condition.letter, &said);
    }
    for condition in source.conditions.after() {
        if let Some(said) = before_step(source, &condition.linear) {
            offer_with_facts(found, source, after, condition.letter, &said);
        }
    }
}

/// A linear over the variables after a step as one over those before it. None if a variable is unknown, or a number
/// gets too great.
fn before_step(source: &StepSource, linear: &Linear) -> Option<Combination> {
    let mut sum = Combination::of_constant(linear.constant());
    for term in linear.terms() {
        sum = with_old(&sum, source, *term)?;
    }
    Some(sum)
}

/// A sum with a term over the variables after a step, as what it is over those before it.
fn with_old(sum: &Combination, source: &StepSource, term: Term) -> Option<Combination> {
    if let Some(effect) = source.linear {
        if effect.variable == term.variable {
            return sum.plus(term.coefficient, &Combination::of(&effect.linear));
        }
    }
    match source.moved.change(term.variable) {
        Change::Unknown => with_change(sum, &term, source.settled.change(term.variable)),
        change => with_change(sum, &term, change),
    }
}

/// A sum with a multiple of what a change leaves in the variable of a term.
fn with_change(sum: &Combination, term: &Term, change: Change) -> Option<Combination> {
    let coefficient = term.coefficient;
    match change {
        Change::Old(variable) => sum.with(coefficient, variable),
        Change::Raised(variable) => {
            let raised = sum.raised(coefficient)?;
            raised.with(coefficient, variable)
        }
        Change::Lowered(variable) => {
            let lowered = sum.raised(coefficient.checked_neg()?)?;
            lowered.with(coefficient, variable)
        }
        Change::Constant(value) => sum.raised(coefficient.checked_mul(i32::from(value))?),
        Change::Unknown => None,
    }
}

/// A linear over the variables after a step as one over those before it, in the state `before`. A variable that stays,
/// or is copied, and has one value there counts as that value. None if a variable is unknown after the step, or where a
/// number gets too great.
pub fn linear_before(linear: &Linear, effect: &Effect, before: &AbsState) -> Option<Linear> {
    let mut sum = Combination::of_constant(linear.constant());
    for term in linear.terms() {
        let change = effect.change(term.variable);
        let value = match &change {
            Change::Old(variable) => before.range(*variable).value(),
            _ => None,
        };
        sum = match value {
            Some(value) => with_change(&sum, term, Change::Constant(value))?,
            None => with_change(&sum, term, change)?,
        };
    }
    sum.linear()
}

/// Tries what a combination over the variables before a step says with each fact put in for one of its variables. So
/// does its byte form, and so do the facts in byte form.
fn offer_with_facts(
    found: &mut Found,
    source: &StepSource,
    after: &AbsState,
    letter: Letter,
    said: &Combination,
) {
    let bytes = bytes_if_other(said);
    for fact in source.facts {
        let fact = Combination::of(fact);
        offer_replaced(found, source, after, letter, said, &fact);
        if let Some(bytes) = &bytes {
            offer_replaced(found, source, after, letter, bytes, &fact);
        }
        if let Some(fact) = bytes_if_other(&fact) {
            offer_replaced(found, source, after, letter, said, &fact);
            if let Some(bytes) = &bytes {
                offer_replaced(found, source, after, letter, bytes, &fact);
            }
        }
    }
}

/// The byte form of a combination with words.
fn bytes_if_other(combination: &Combination) -> Option<Combination> {
    if combination.has_words() {
        combination.byte_form()
    } else {
        None
    }
}

/// Tries a combination with a multiple of a fact taken away, for each variable that it removes.
fn offer_replaced(
    found: &mut Found,
    source: &StepSource,
    after: &AbsState,
    letter: Letter,
    said: &Combination,
    fact: &Combination,
) {
    for term in fact.terms() {
        if let Some(other) = replaced(said, fact, *term) {
            offer_before(found, source, after, letter, &other);
        }
    }
}

/// A combination less the multiple of a fact that removes the variable of one of the fact's terms.
fn replaced(said: &Combination, fact: &Combination, term: Term) -> Option<Combination> {
    let there = said.coefficient_of(term.variable);
    if term.coefficient == 0 || there == 0 || there.checked_rem(term.coefficient)? != 0 {
        return None;
    }
    let factor = there.checked_div(term.coefficient)?.checked_neg()?;
    said.plus(factor, fact)
}

/// Tries a combination over the variables before a step in its forms, each moved over the step.
fn offer_before(
    found: &mut Found,
    source: &StepSource,
    after: &AbsState,
    letter: Letter,
    said: &Combination,
) {
    offer_moved(found, source, after, letter, said);
    if let Some(bytes) = bytes_if_other(said) {
        offer_moved(found, source, after, letter, &bytes);
    }
    if let Some(pairs) = said.pair_form() {
        offer_moved(found, source, after, letter, &pairs);
    }
}

/// Tries a combination over the variables before a step, moved over the step: also by what the linear effect makes of a
/// variable.
fn offer_moved(
    found: &mut Found,
    source: &StepSource,
    after: &AbsState,
    letter: Letter,
    said: &Combination,
) {
    offer_images(found, source, after, letter, said, None);
    let Some(effect) = source.linear else {
        return;
    };
    let linear = Combination::of(&effect.linear);
    for term in effect.linear.terms() {
        if term.coefficient.unsigned_abs() == 1 {
            if let Some(rest) = replaced(said, &linear, *term) {
                let there = said.coefficient_of(term.variable);
                let made = Term {
                    coefficient: there.saturating_mul(term.coefficient),
                    variable: effect.variable,
                };
                offer_images(found, source, after, letter, &rest, Some(made));
            }
        }
    }
}

/// A term of a combination, and the images of its variable. The images of no term are one nothing.
fn term_and_images(source: &StepSource, after: &AbsState, term: Option<Term>) -> (i32, Images) {
    match term {
        Some(term) => (term.coefficient, images_of(source, after, term.variable)),
        None => (0, [Some(NOTHING), None, None]),
    }
}

/// Tries a sum of what is left of a combination over the variables before a step, each variable of it moved, and of a
/// term over those after it. With more than three variables left there is nothing to try.
fn offer_images(
    found: &mut Found,
    source: &StepSource,
    after: &AbsState,
    letter: Letter,
    rest: &Combination,
    made: Option<Term>,
) {
    if rest.count() > 3 {
        return;
    }
    let start = Combination::of_constant(rest.constant());
    let start = match made {
        Some(term) => start.with(term.coefficient, term.variable),
        None => Some(start),
    };
    let Some(start) = start else {
        return;
    };
    let (k, firsts) = term_and_images(source, after, rest.term(0));
    let (l, seconds) = term_and_images(source, after, rest.term(1));
    let (m, thirds) = term_and_images(source, after, rest.term(2));
    for first in &firsts {
        let Some(one) = with_image(&start, k, first) else {
            continue;
        };
        for second in &seconds {
            let Some(two) = with_image(&one, l, second) else {
                continue;
            };
            for third in &thirds {
                if let Some(three) = with_image(&two, m, third) {
                    offer_forms(found, source, after, letter, &three);
                }
            }
        }
    }
}

/// A sum with a multiple of an image.
fn with_image(sum: &Combination, coefficient: i32, image: &Option<Image>) -> Option<Combination> {
    let image = (*image)?;
    let raised = sum.raised(coefficient.checked_mul(image.plus)?)?;
    match image.variable {
        Some(variable) => raised.with(coefficient, variable),
        None => Some(raised),
    }
}

/// Tries a combination over the variables after a step, and its pair form.
fn offer_forms(
    found: &mut Found,
    source: &StepSource,
    after: &AbsState,
    letter: Letter,
    said: &Combination,
) {
    found.offer(source, after, letter, said);
    if let Some(pairs) = said.pair_form() {
        found.offer(source, after, letter, &pairs);
    }
}
