// Sums of at most nine terms, and their least values over ranges.
ghost use Rattle.std.specs.Prelude.{◌≡◌, ◌≢◌, ◌+◌, ◌*◌, ◌<◌, ◌≤◌, ◌^◌, ◌↔◌, IsTrue, [], length, MatchOption, All, HoldsAt, ℤ, pos, ◌+ℤ◌, ◌*ℤ◌, ◌≤ℤ◌, unsigned_abs, FitsSigned};
ghost use Rattle.std.specs.Int.{w32};
ghost use Rattle.loop_bounds.specs.declared.variable.Variable.{Variable};
ghost use Rattle.loop_bounds.specs.Linear.{total, value};
ghost use Rattle.loop_bounds.specs.Effect.{Valuation, whole};
ghost use Rattle.loop_bounds.specs.Ranges.{LiesIn};
ghost use Rattle.loop_bounds.specs.Form.{weight, end_of};

use crate::linear::Term;
use crate::ranges::Ranges;
use crate::variable::Variable;
use intervals::WordRange;
use std::marker::Model;

/// A sum of a constant and at most nine terms. Their variables are distinct and in any order; coefficients may be 0.
#[derive(Drop)]
pub struct Form {
    constant: i128,
    terms: [Term; 9],
    count: usize,
}

impl Model for Form {
    ghost use Rattle.std.specs.Prelude.{take};
    ghost use Rattle.loop_bounds.specs.Linear.{LinearView};
    ghost use Rattle.loop_bounds.specs.Form.{IsForm};

    ghost Value = { LinearView };

    ghost view = { λ f. record { constant = f.constant; terms = take f.count f.terms } };

    ghost invariant = { λ f. IsForm f.terms f.count };
}

/// The term with `by` added to its coefficient.
fn raised(term: &Term, by: i32) -> Term
    requires { FitsSigned w32 (term.now.coefficient +ℤ by) }
    ensures { result ≡ record term.now { coefficient = term.now.coefficient +ℤ by } }
{
    Term {
        coefficient: term.coefficient + by,
        variable: term.variable,
    }
}

/// `coefficient` times `value`.
pub fn multiple(coefficient: i32, value: u16) -> i128
    ensures value { result ≡ coefficient *ℤ pos value }
    ensures size { unsigned_abs result ≤ 65535 * unsigned_abs coefficient }
{
    i128::from(coefficient) * i128::from(value)
}

/// The least product of `coefficient` and a value of the range.
pub fn least_multiple(coefficient: i32, range: WordRange) -> i128
    ensures value { result ≡ coefficient *ℤ pos (end_of range coefficient) }
    ensures order { range.low ≤ range.high }
    ensures size { unsigned_abs result ≤ 65535 * unsigned_abs coefficient }
{
    let (low, high) = (range.low(), range.high());
    multiple(coefficient, if coefficient >= 0 { low } else { high })
}

/// Whether each coefficient is 0.
fn all_zero(terms: &[Term]) -> bool
    ensures { IsTrue result ↔ All (λ t. t.coefficient ≡ pos 0) terms.now }
{
    terms.iter().all(|term| term.coefficient == 0)
}

/// The index of the first term with `variable`.
fn position(terms: &[Term], variable: &Variable) -> Option<usize>
    ensures { MatchOption result (All (λ t. t.variable ≢ variable.now) terms.now)
        (λ k. (k < length terms.now) × HoldsAt (λ t. t.variable ≡ variable.now) terms.now k) }
{
    terms.iter().position(|term| term.variable == *variable)
}

impl Form {
    /// The sum with this constant and no terms.
    pub fn new(constant: i128) -> Form
        ensures { result ≡ record { constant = constant; terms = [] } }
    {
        let unused = Term {
            coefficient: 0,
            variable: Variable::A,
        };
        Form {
            constant,
            terms: [unused; 9],
            count: 0,
        }
    }

    /// Adds `by` to the constant.
    pub fn raise(&mut self, by: i128)
        requires { unsigned_abs self.old.constant + unsigned_abs by < 2 ^ 100 }
        ensures { self.new ≡ record self.old { constant = self.old.constant +ℤ by } }
    {
        self.constant += by;
    }

    /// Adds a term; one with the same variable absorbs it.
    pub fn add(&mut self, term: Term)
        requires room { length self.old.terms < 9 }
        requires fits { weight self.old.terms + unsigned_abs term.coefficient < 2 ^ 31 }
        ensures total { (x : Variable → ℤ) → total x self.new.terms
            ≡ total x self.old.terms +ℤ term.coefficient *ℤ x term.variable }
        ensures constant { self.new.constant ≡ self.old.constant }
        ensures count { length self.new.terms ≤ length self.old.terms + 1 }
        ensures weight { weight self.new.terms ≤ weight self.old.terms + unsigned_abs
            term.coefficient }
    {
        match position(&self.terms[..self.count], &term.variable) {
            Some(place) => {
                let raised = raised(&self.terms[place], term.coefficient);
                self.terms[place] = raised;
            }
            None => {
                self.terms[self.count] = term;
                self.count += 1;
            }
        }
    }

    /// The least value over the ranges.
    pub fn least<R: Ranges>(&self, ranges: &R) -> i128
        requires small { unsigned_abs self.now.constant < 2 ^ 60 }
        requires light { weight self.now.terms < 2 ^ 31 }
        ensures bound { (x : Valuation) → LiesIn (R.range_of ranges.now) x
            → result ≤ℤ value (whole x) self.now }
        ensures reached { (x : Valuation) × LiesIn (R.range_of ranges.now) x
            × (value (whole x) self.now ≡ result) }
        ensures size { unsigned_abs result < 2 ^ 61 }
    {
        let mut least = self.constant;
        for term in &self.terms[..self.count] {
            least += least_multiple(term.coefficient, ranges.range(term.variable));
        }
        least
    }

    /// Whether the value is 0 at all values of the variables.
    pub fn is_zero(&self) -> bool
        ensures { IsTrue result ↔ ((x : Valuation) → value (whole x) self.now ≡ pos 0) }
    {
        if self.constant != 0 {
            return false;
        }
        all_zero(&self.terms[..self.count])
    }
}
