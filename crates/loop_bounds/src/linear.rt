// Linears: a constant and at most three terms.
ghost use Rattle.std.specs.Prelude.{◌≡◌, ◌≢◌, ◌↔◌, IsTrue, ◌≤◌, ◌<◌, [], length, take, ℤ, pos, ◌+ℤ◌, ◌*ℤ◌, unsigned_abs, SomeIff, All};
ghost use Rattle.loop_bounds.specs.declared.variable.Variable.{Variable};
ghost use Rattle.loop_bounds.specs.Variable.{rank_of};

use crate::variable::Variable;
use std::marker::Model;

/// The greatest absolute value of a constant.
pub const GREATEST_CONSTANT: u32 = 1_000_000_000;

/// The greatest absolute value of a coefficient.
pub const GREATEST_COEFFICIENT: u32 = 1_000_000;

/// A coefficient times a variable.
#[derive(Clone, Copy, PartialEq, Eq)]
pub struct Term {
    pub coefficient: i32,
    pub variable: Variable,
}

/// Fills the places of a linear that have no term.
const PADDING: Term = Term {
    coefficient: 0,
    variable: Variable::A,
};

/// A constant and at most three terms, whose variables rise strictly in their order. The constant is at most
/// 1,000,000,000 in size, each coefficient 1 to 1,000,000.
#[derive(Clone, Copy, PartialEq, Eq)]
pub struct Linear {
    constant: i32,
    terms: [Term; 3],
    count: usize,
}

impl Model for Linear {
    ghost use Rattle.std.specs.Prelude.{length, take};
    ghost use Rattle.loop_bounds.specs.Linear.{LinearView, IsStored, padded};

    ghost Value = { LinearView };

    ghost use Rattle.loop_bounds.specs.LinearLaws.{padded_again};

    ghost view = { λ l. record { constant = l.constant; terms = take l.count l.terms } };

    ghost invariant = { λ l. IsStored l.constant l.terms l.count };

    ghost inverse = { λ s. record { constant = s.constant; terms = padded s.terms; count = length s.terms } };

    ghost inverse_ok = { λ l h. padded_again l.constant l.terms l.count h };
}

fn is_coefficient(coefficient: i32) -> bool
    ensures { IsTrue result
        ↔ ((0 < unsigned_abs coefficient) × (unsigned_abs coefficient ≤ 1000000)) }
{
    (1..=GREATEST_COEFFICIENT).contains(&coefficient.unsigned_abs())
}

/// Whether the variable of each term comes before `variable`.
fn all_before(terms: &[Term], variable: Variable) -> bool
    ensures { IsTrue result ↔ All (λ t. rank_of t.variable < rank_of variable) terms.now }
{
    let rank = variable.rank();
    terms.iter().all(|term| term.variable.rank() < rank)
}

impl Linear {
    ghost use Rattle.loop_bounds.specs.Linear.{LinearView, IsLinear, extended, padded, value};

    /// The linear 0.
    pub fn zero() -> Linear
        ensures { result ≡ record { constant = pos 0; terms = [] } }
    {
        Linear {
            constant: 0,
            terms: [PADDING; 3],
            count: 0,
        }
    }

    /// The constant as a linear, or None if it is above 1,000,000,000 in size.
    pub fn of_constant(constant: i32) -> Option<Linear>
        ensures { SomeIff result (unsigned_abs constant ≤ 1000000000)
            (record { constant = constant; terms = [] }) }
    {
        if constant.unsigned_abs() > GREATEST_CONSTANT {
            return None;
        }
        Some(Linear {
            constant,
            ..Linear::zero()
        })
    }

    /// Whether the term may be added at the end: there is room, its coefficient is 1 to 1,000,000 in size, and its
    /// variable comes after the others.
    fn takes(&self, term: &Term) -> bool
        ensures { IsTrue result ↔ IsLinear (extended self.now term.now) }
    {
        if self.count == 3 {
            return false;
        }
        if !is_coefficient(term.coefficient) {
            return false;
        }
        all_before(self.terms(), term.variable)
    }

    /// The linear with one more term at its end. None if there are three terms already, the coefficient is 0 or above
    /// 1,000,000 in size, or the variable does not come after the others.
    pub fn with_term(self, term: Term) -> Option<Linear>
        ensures { SomeIff result (IsLinear (extended self term)) (extended self term) }
    {
        if !self.takes(&term) {
            return None;
        }
        let mut terms = self.terms;
        terms[self.count] = term;
        Some(Linear {
            constant: self.constant,
            terms,
            count: self.count + 1,
        })
    }

    /// The linear with one more term at its end, which it takes.
    fn longer(self, term: Term) -> Linear
        requires { IsLinear (extended self term) }
        ensures { result ≡ extended self term }
    {
        self.with_term(term).unwrap_or(self)
    }

    /// The constant as a linear.
    fn without_terms(&self) -> Linear
        ensures { result ≡ record { constant = self.now.constant; terms = [] } }
    {
        Linear::of_constant(self.constant()).unwrap_or(Linear::zero())
    }

    /// The linear without the term of a variable, and the coefficient of that variable, 0 if it has no term.
    pub fn apart(&self, variable: Variable) -> (Linear, i32)
        ensures value { (x : Variable → ℤ) → value x self.now
            ≡ value x result.0 +ℤ result.1 *ℤ x variable }
        ensures absent { All (λ t. t.variable ≢ variable) result.0.terms }
        ensures size { unsigned_abs result.1 ≤ 1000000 }
    {
        let mut rest = self.without_terms();
        let mut coefficient = 0;
        for term in self.terms() {
            if term.variable == variable {
                coefficient = term.coefficient;
            } else {
                rest = rest.longer(*term);
            }
        }
        (rest, coefficient)
    }

    /// The constant, at most 1,000,000,000 in size.
    pub fn constant(&self) -> i32
        ensures value { result ≡ self.now.constant }
        ensures linear { IsLinear self.now }
    {
        self.constant
    }

    /// The terms, at most three, in the strictly rising order of their variables.
    pub fn terms(&self) -> &[Term]
        ensures value { result.now ≡ self.now.terms }
        ensures linear { IsLinear self.now }
    {
        &self.terms[..self.count]
    }
}
