// Linears made of terms, and their least and greatest values over the ranges of a state.

use abs_state::AbsState;
use check_claims::Rewriting;
use intervals::WordRange;
use loop_bounds::{Change, Effect, Linear, Ranges, Term, Variable};

/// The least product of a coefficient and a value of a range.
fn least_multiple(coefficient: i32, range: WordRange) -> i128 {
    let end = if coefficient >= 0 {
        range.low()
    } else {
        range.high()
    };
    i128::from(coefficient).saturating_mul(i128::from(end))
}

/// The least value of a linear over the ranges of a state.
pub(crate) fn least_value(linear: &Linear, state: &AbsState) -> i128 {
    let mut sum = i128::from(linear.constant());
    for term in linear.terms() {
        sum = sum.saturating_add(least_multiple(term.coefficient, state.range(term.variable)));
    }
    sum
}

/// The greatest value of a linear over the ranges of a state.
pub fn greatest_value(linear: &Linear, state: &AbsState) -> i128 {
    let mut sum = i128::from(linear.constant());
    for term in linear.terms() {
        let less = least_multiple(
            term.coefficient.saturating_neg(),
            state.range(term.variable),
        );
        sum = sum.saturating_sub(less);
    }
    sum
}

/// The same terms with another constant; None if that is above 1,000,000,000 in size.
pub fn with_constant(terms: &Linear, constant: i32) -> Option<Linear> {
    let mut linear = Linear::of_constant(constant)?;
    for term in terms.terms() {
        linear = linear.with_term(*term)?;
    }
    Some(linear)
}

/// The constant 0 and one term; None if the coefficient is 0 or above 1,000,000 in size.
pub fn multiple_of(variable: Variable, coefficient: i32) -> Option<Linear> {
    Linear::zero().with_term(Term {
        coefficient,
        variable,
    })
}

/// The variable before a step from which a variable comes; None if it becomes a constant or unknown.
fn variable_before(effect: &Effect, variable: Variable) -> Option<Variable> {
    match effect.change(variable) {
        Change::Old(old) | Change::Raised(old) | Change::Lowered(old) => Some(old),
        Change::Constant(_) | Change::Unknown => None,
    }
}

/// Adds a term to terms; one that finds no room is left out.
fn add(terms: &mut [Option<Term>], added: Term) {
    for place in 0..terms.len() {
        let there: Option<Term> = terms[place];
        match there {
            Some(term) if term.variable == added.variable => {
                terms[place] = Some(Term {
                    coefficient: term.coefficient.saturating_add(added.coefficient),
                    variable: term.variable,
                });
                return;
            }
            Some(_) => {}
            None => {
                terms[place] = Some(added);
                return;
            }
        }
    }
}

/// Adds a multiple of the terms of a linear.
fn add_multiple(terms: &mut [Option<Term>], coefficient: i32, linear: &Linear) {
    for term in linear.terms() {
        add(
            terms,
            Term {
                coefficient: coefficient.saturating_mul(term.coefficient),
                variable: term.variable,
            },
        );
    }
}

/// The linear that a step makes of a variable, if it does.
fn linear_before(rewriting: &Rewriting, variable: Variable) -> Option<Linear> {
    let change = rewriting.change?;
    if change.variable == variable {
        Some(change.value)
    } else {
        None
    }
}

/// The terms of a linear before a step, rewritten in this way, with the constant 0; None if there are more than three,
/// or a coefficient is above 1,000,000 in size.
pub(crate) fn terms_before(linear: &Linear, rewriting: &Rewriting) -> Option<Linear> {
    let mut terms = [None; 6];
    for term in linear.terms() {
        if let Some(value) = linear_before(rewriting, term.variable) {
            add_multiple(&mut terms, term.coefficient, &value);
        } else if let Some(variable) = variable_before(&rewriting.effect, term.variable) {
            add(
                &mut terms,
                Term {
                    coefficient: term.coefficient,
                    variable,
                },
            );
        }
    }
    of_terms(&terms)
}

/// A sum over the variables before a step: its constant and its terms.
#[derive(Drop)]
struct SumBefore {
    constant: i128,
    terms: [Option<Term>; 8],
}

impl SumBefore {
    /// Adds a term over a variable after the step, rewritten in this way.
    fn add_after(&mut self, term: Term, rewriting: &Rewriting, target: &AbsState) {
        match linear_before(rewriting, term.variable) {
            Some(value) => self.add_linear(term.coefficient, &value),
            None => self.add_changed(term, &rewriting.effect, target),
        }
    }

    /// Adds a multiple of a linear over the variables before the step.
    fn add_linear(&mut self, coefficient: i32, linear: &Linear) {
        let constant = i128::from(coefficient).saturating_mul(i128::from(linear.constant()));
        self.constant = self.constant.saturating_add(constant);
        add_multiple(&mut self.terms, coefficient, linear);
    }

    /// Adds a term over a variable after the step, rewritten by the effect. For an unknown variable that is the term's
    /// least value over the target's range.
    fn add_changed(&mut self, term: Term, effect: &Effect, target: &AbsState) {
        let (old, constant) = match effect.change(term.variable) {
            Change::Old(old) => (Some(old), 0),
            Change::Raised(old) => (Some(old), i128::from(term.coefficient)),
            Change::Lowered(old) => (Some(old), i128::from(term.coefficient.saturating_neg())),
            Change::Constant(value) => (
                None,
                i128::from(term.coefficient).saturating_mul(i128::from(value)),
            ),
            Change::Unknown => (
                None,
                least_multiple(term.coefficient, target.range(term.variable)),
            ),
        };
        self.constant = self.constant.saturating_add(constant);
        if let Some(variable) = old {
            add(
                &mut self.terms,
                Term {
                    coefficient: term.coefficient,
                    variable,
                },
            );
        }
    }

    /// The least value over the ranges of a state.
    fn least(&self, source: &AbsState) -> i128 {
        let mut sum = self.constant;
        for place in &self.terms {
            if let Some(term) = place {
                sum = sum.saturating_add(least_multiple(
                    term.coefficient,
                    source.range(term.variable),
                ));
            }
        }
        sum
    }
}

/// The least value, over the source's ranges, of some terms minus a linear that is rewritten in this way.
pub(crate) fn least_left(
    terms: &Linear,
    to: &Linear,
    rewriting: &Rewriting,
    source: &AbsState,
    target: &AbsState,
) -> i128 {
    let mut left = SumBefore {
        constant: i128::from(to.constant()).saturating_neg(),
        terms: [None; 8],
    };
    for term in terms.terms() {
        add(&mut left.terms, *term);
    }
    for term in to.terms() {
        let coefficient = term.coefficient.saturating_neg();
        left.add_after(
            Term {
                coefficient,
                ..*term
            },
            rewriting,
            target,
        );
    }
    left.least(source)
}

/// The term with the first variable from this rank on.
fn next_from(terms: &[Option<Term>], rank: u16) -> Option<Term> {
    let mut least: Option<Term> = None;
    for place in terms {
        if let Some(term) = place {
            if term.variable.rank() >= rank {
                least = lesser(least, *term);
            }
        }
    }
    least
}

/// The one of two terms whose variable comes first.
fn lesser(one: Option<Term>, other: Term) -> Option<Term> {
    match one {
        Some(one) if one.variable.rank() <= other.variable.rank() => Some(one),
        _ => Some(other),
    }
}

/// A linear of terms in any order; those with the coefficient 0 are left out.
fn of_terms(terms: &[Option<Term>]) -> Option<Linear> {
    let mut linear = Linear::zero();
    let mut rank = 0u16;
    for _ in 0..terms.len() {
        let Some(term) = next_from(terms, rank) else {
            return Some(linear);
        };
        rank = term.variable.rank().saturating_add(1);
        if term.coefficient != 0 {
            linear = linear.with_term(term)?;
        }
    }
    Some(linear)
}

/// The terms of a linear and those of another with other variables; None if there are more than three.
pub(crate) fn with_others(one: &Linear, other: &Linear) -> Option<Linear> {
    let mut terms = [None; 6];
    for term in one.terms() {
        add(&mut terms, *term);
    }
    for term in other.terms() {
        if !one
            .terms()
            .iter()
            .any(|mine| mine.variable == term.variable)
        {
            add(&mut terms, *term);
        }
    }
    of_terms(&terms)
}
