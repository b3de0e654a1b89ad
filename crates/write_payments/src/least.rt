// The least potential of a row that pays for what comes next.

use crate::sums::{
    greatest_value, least_left, least_value, terms_before, with_constant, with_others,
};
use abs_state::AbsState;
use cert_contents::Certificate;
use cert_fields::stays_within;
use check_claims::{Rewriting, constants_first, variables_first};
use check_payments::pays_either_way;
use loop_bounds::{Effect, GREATEST_CONSTANT, Linear, decreases};
use write_requests::{Request, Requests};

/// The potential of a row, by its number within the procedure, if it is known.
fn known_at(known: &[Option<Linear>], row: u32) -> Option<Linear> {
    *known.get(row as usize)?
}

/// These terms with the least constant that pays the cost and leaves a potential, rewritten in this way; None if a
/// certificate has no room for it.
fn least_from(
    terms: &Linear,
    cost: u32,
    to: &Linear,
    rewriting: &Rewriting,
    source: &AbsState,
    target: &AbsState,
) -> Option<Linear> {
    let least = least_left(terms, to, rewriting, source, target);
    let needed = i128::from(cost)
        .saturating_sub(least)
        .max(-i128::from(GREATEST_CONSTANT));
    with_constant(terms, i32::try_from(needed).ok()?)
}

/// The least constant with which these terms pay the cost and leave a potential, rewritten by the effect; None if no
/// constant does.
fn least_constant(
    terms: &Linear,
    cost: u32,
    to: &Linear,
    effect: &Effect,
    source: &AbsState,
    target: &AbsState,
) -> Option<i32> {
    let rewriting = by_effect(effect);
    let from = least_from(terms, cost, to, &rewriting, source, target)?;
    decreases(&from, to, cost, effect, source, target).then_some(from.constant())
}

/// The same for a request: with constants first or with variables first, whichever needs less.
fn least_constant_for(
    terms: &Linear,
    request: &Request,
    to: &Linear,
    source: &AbsState,
    target: &AbsState,
) -> Option<i32> {
    let (first, second) = rewritings_of(request);
    match second {
        None => least_constant(terms, request.cost, to, &request.effect, source, target),
        Some(second) => lesser(
            least_constant_by(terms, request, to, &first, source, target),
            least_constant_by(terms, request, to, &second, source, target),
        ),
    }
}

/// The least constant with which these terms pay for a request and leave a potential, rewritten in this way; None if no
/// constant does.
fn least_constant_by(
    terms: &Linear,
    request: &Request,
    to: &Linear,
    rewriting: &Rewriting,
    source: &AbsState,
    target: &AbsState,
) -> Option<i32> {
    let from = least_from(terms, request.cost, to, rewriting, source, target)?;
    let pays = pays_either_way(
        &from,
        to,
        request.cost,
        &request.effect,
        &request.moved,
        &request.linear,
        source,
        target,
    );
    pays.then_some(from.constant())
}

/// The rewriting by an effect alone.
fn by_effect(effect: &Effect) -> Rewriting {
    Rewriting {
        effect: *effect,
        change: None,
    }
}

/// The ways to rewrite the potential of a request's row: constants first and, if that is another way, variables first.
fn rewritings_of(request: &Request) -> (Rewriting, Option<Rewriting>) {
    if request.is_plain() {
        return (by_effect(&request.effect), None);
    }
    (
        constants_first(&request.effect, &request.linear),
        Some(variables_first(&request.effect, &request.moved, &request.linear)),
    )
}

/// The lesser of two constants, or the only one.
fn lesser(one: Option<i32>, other: Option<i32>) -> Option<i32> {
    match (one, other) {
        (Some(one), Some(other)) => Some(one.min(other)),
        (Some(one), None) => Some(one),
        (None, other) => other,
    }
}

/// The greater of two constants, or the only one.
fn greater(one: Option<i32>, other: i32) -> Option<i32> {
    Some(one.map_or(other, |one| one.max(other)))
}

/// The least constant that pays for all requests of a row, 0 if there are none; None if a potential that it needs has
/// terms. The row's state, which is large, is not looked at.
pub fn least_of_constants(requests: &Requests, known: &[Option<Linear>]) -> Option<i64> {
    let mut least = requests.leaving.map(|cost| i64::from(cost));
    for request in requests.of_rows.as_slice() {
        let constant = greatest_constant(request, known)?;
        least = least.max(constant);
    }
    Some(least.unwrap_or(0))
}

/// The least constant that pays for a request; `Some(None)` if no potential of its rows is known yet; None if one of
/// them has terms.
fn greatest_constant(request: &Request, known: &[Option<Linear>]) -> Option<Option<i64>> {
    let mut greatest = None;
    for row in request.start..request.end {
        if let Some(to) = known_at(known, row) {
            if !to.terms().is_empty() {
                return None;
            }
            greatest = greatest.max(Some(i64::from(to.constant())));
        }
    }
    Some(greatest.map(|most| most.saturating_add(i64::from(request.cost))))
}

/// Which potentials a row may get.
#[derive(Clone, Copy, PartialEq, Eq)]
pub enum Choice {
    /// The best of all.
    Any,
    /// The best with terms, if there is one. It needs less than a constant while the constants of loops' rows are low.
    WithTerms,
}

/// The context of the search for a row's potential: the certificate, the number of the procedure's first row, the row's
/// state, and what the row has to pay for.
#[derive(Drop)]
pub struct Payer<'a> {
    pub certificate: &'a Certificate,
    pub first: u32,
    pub state: AbsState,
    pub requests: &'a Requests,
}

impl<'a> Payer<'a> {
    /// The least constant with which these terms pay for the row's exits, if it has any.
    fn constant_for_leaving(&self, terms: &Linear) -> Result<Option<i32>, Unpaid> {
        let Some(cost) = self.requests.leaving else {
            return Ok(None);
        };
        let unchanged = Effect::unchanged();
        match least_constant(
            terms,
            cost,
            &Linear::zero(),
            &unchanged,
            &self.state,
            &self.state,
        ) {
            Some(constant) => Ok(Some(constant)),
            None => Err(Unpaid),
        }
    }

    /// The least constant with which these terms pay for those rows of a request that have potentials.
    fn constant_for(
        &self,
        terms: &Linear,
        request: &Request,
        known: &[Option<Linear>],
    ) -> Result<Option<i32>, Unpaid> {
        let mut least = None;
        for row in request.start..request.end {
            if let Some(to) = known_at(known, row) {
                let constant = self.constant_to(terms, request, row, &to).ok_or(Unpaid)?;
                least = greater(least, constant);
            }
        }
        Ok(least)
    }

    /// The least constant with which these terms pay for a next row with this potential; None if no constant does. Of
    /// the next row's state only the ranges of the potential's variables count, so it is not made for a constant.
    fn constant_to(&self, terms: &Linear, request: &Request, row: u32, to: &Linear) -> Option<i32> {
        if to.terms().is_empty() {
            let (cost, effect) = (request.cost, &request.effect);
            return least_constant(terms, cost, to, effect, &self.state, &self.state);
        }
        let target = self.certificate.state(self.first.saturating_add(row))?;
        least_constant_for(terms, request, to, &self.state, &target)
    }

    /// These terms with the least constant that pays for all requests; 0 if there are none.
    ///
    /// # Errors
    ///
    /// `Unpaid` where no constant pays for all requests.
    pub fn least_with(&self, terms: &Linear, known: &[Option<Linear>]) -> Result<Linear, Unpaid> {
        let mut least = self.constant_for_leaving(terms)?;
        for request in self.requests.of_rows.as_slice() {
            if let Some(constant) = self.constant_for(terms, request, known)? {
                least = greater(least, constant);
            }
        }
        match with_constant(terms, least.unwrap_or(0)) {
            Some(linear) => Ok(linear),
            None => Err(Unpaid),
        }
    }

    /// The terms of the next row's potential before the step to it, rewritten in this way, if there are any and this
    /// row has their variables.
    fn terms_at(
        &self,
        rewriting: &Rewriting,
        row: u32,
        known: &[Option<Linear>],
    ) -> Option<Linear> {
        let to = known_at(known, row)?;
        let terms = terms_before(&to, rewriting)?;
        if terms.terms().is_empty() || !stays_within(&terms, self.state.shape.len()) {
            return None;
        }
        Some(terms)
    }

    /// The best potential of a loop's row: the multiple of its counter, alone or with the terms of one request.
    ///
    /// # Errors
    ///
    /// `Unpaid` where no such potential pays for all requests.
    pub fn best_carrying(&self, turn: &Linear, known: &[Option<Linear>]) -> Result<Linear, Unpaid> {
        let mut best = self.least_with(turn, known);
        for request in self.requests.of_rows.as_slice() {
            let (first, second) = rewritings_of(request);
            best = self.best_carrying_by(request, &first, turn, known, best);
            if let Some(second) = second {
                best = self.best_carrying_by(request, &second, turn, known, best);
            }
        }
        best
    }

    /// The better of a potential and of those that have the multiple and the terms of one request, rewritten in this
    /// way.
    fn best_carrying_by(
        &self,
        request: &Request,
        rewriting: &Rewriting,
        turn: &Linear,
        known: &[Option<Linear>],
        before: Result<Linear, Unpaid>,
    ) -> Result<Linear, Unpaid> {
        let mut best = before;
        for row in request.start..request.end {
            let Some(terms) = self.terms_at(rewriting, row, known) else {
                continue;
            };
            if let Some(both) = with_others(turn, &terms) {
                if let Ok(other) = self.least_with(&both, known) {
                    best = self.better(best, other);
                }
            }
        }
        best
    }

    /// The better of two potentials: the one with the lesser greatest value; if these are equal, the one with the
    /// lesser least value; if these are equal too, the first.
    fn better(&self, one: Result<Linear, Unpaid>, other: Linear) -> Result<Linear, Unpaid> {
        let Ok(one) = one else {
            return Ok(other);
        };
        let (most, others_most) = (
            greatest_value(&one, &self.state),
            greatest_value(&other, &self.state),
        );
        if others_most < most {
            return Ok(other);
        }
        if others_most == most
            && least_value(&other, &self.state) < least_value(&one, &self.state)
        {
            return Ok(other);
        }
        Ok(one)
    }

    /// The best potential that the row may have: a constant, or a constant with the terms of one request.
    ///
    /// # Errors
    ///
    /// `Unpaid` where no such potential pays for all requests.
    pub fn best(&self, known: &[Option<Linear>], choice: Choice) -> Result<Linear, Unpaid> {
        let plain = self.least_with(&Linear::zero(), known);
        let mut best = match choice {
            Choice::Any => plain,
            Choice::WithTerms => Err(Unpaid),
        };
        for request in self.requests.of_rows.as_slice() {
            best = self.best_by(request, known, best);
        }
        match best {
            Ok(best) => Ok(best),
            Err(Unpaid) => plain,
        }
    }

    /// The better of a potential and of those with the terms of one request.
    fn best_by(
        &self,
        request: &Request,
        known: &[Option<Linear>],
        before: Result<Linear, Unpaid>,
    ) -> Result<Linear, Unpaid> {
        let (first, second) = rewritings_of(request);
        let best = self.best_rewritten(request, &first, known, before);
        match second {
            Some(second) => self.best_rewritten(request, &second, known, best),
            None => best,
        }
    }

    /// The same for terms that are rewritten in this way.
    fn best_rewritten(
        &self,
        request: &Request,
        rewriting: &Rewriting,
        known: &[Option<Linear>],
        before: Result<Linear, Unpaid>,
    ) -> Result<Linear, Unpaid> {
        let mut best = before;
        let mut last = Linear::zero();
        for row in request.start..request.end {
            if let Some(terms) = self.terms_at(rewriting, row, known) {
                if terms != last {
                    last = terms;
                    if let Ok(other) = self.least_with(&terms, known) {
                        best = self.better(best, other);
                    }
                }
            }
        }
        best
    }
}

/// No constant pays.
#[derive(Clone, Copy)]
pub struct Unpaid;
