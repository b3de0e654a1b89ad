// Sums: a constant and terms.
ghost use Rattle.std.specs.Prelude.{◌≡◌, ℕ, ◌+◌, ◌*◌, ◌<◌, ◌≤◌, ◌^◌, [], ◌∷◌, ◌++◌, length, All, ℤ, pos, ◌+ℤ◌, ◌*ℤ◌, unsigned_abs, map};
ghost use Rattle.loop_bounds.specs.Form.{weight};
ghost use Rattle.linear_sums.specs.Sum.{IsMadeOf, multiplied, sign, plus_term, plus_multiple};

use arrayvec::ArrayVec;
use loop_bounds::{Linear, Term, Variable};
use std::marker::Model;

/// The room for terms.
const ROOM: usize = 32;

/// A coefficient times a variable.
#[derive(Clone, Copy)]
pub(crate) struct SumTerm {
    coefficient: i128,
    variable: Variable,
}

impl Model for SumTerm {
    ghost use Rattle.loop_bounds.specs.declared.linear.Term.{Term};

    ghost Value = { Term };

    ghost view = { λ t. record { coefficient = t.coefficient; variable = t.variable } };

    ghost inverse = { λ t. record { coefficient = t.coefficient; variable = t.variable } };
}

impl Default for SumTerm {
    ghost use Rattle.std.specs.Prelude.{pos};
    ghost use Rattle.loop_bounds.specs.declared.variable.Variable.TheVariants.{A};

    ghost is_default = { λ t. t ≡ record { coefficient = pos 0; variable = A } };

    fn default() -> SumTerm {
        SumTerm {
            coefficient: 0,
            variable: Variable::A,
        }
    }
}

impl SumTerm {
    pub(crate) fn coefficient(&self) -> i128
        ensures { result ≡ self.now.coefficient }
    {
        self.coefficient
    }

    pub(crate) fn variable(&self) -> Variable
        ensures { result ≡ self.now.variable }
    {
        self.variable
    }
}

/// A whole number and terms, whose variables may stand more than once and in any order. It has room for 32 parts, each
/// a term or a whole number. No number wraps.
#[derive(Drop)]
pub struct Sum {
    constant: i128,
    terms: ArrayVec<SumTerm, ROOM>,
}

impl Model for Sum {
    ghost use Rattle.loop_bounds.specs.Linear.{LinearView};
    ghost use Rattle.linear_sums.specs.Sum.{IsMadeOf};

    ghost Value = { LinearView };

    ghost view = { λ s. record { constant = s.constant; terms = s.terms.items } };

    ghost invariant = { λ s. IsMadeOf 32 (record { constant = s.constant; terms = s.terms.items }) };

    ghost inverse = { λ s. record { constant = s.constant; terms = record { items = s.terms } } };
}

fn sign(negated: bool) -> i128
    ensures { result ≡ sign negated }
{
    if negated { -1 } else { 1 }
}

/// The product of two whole numbers.
pub(crate) fn times(a: i128, b: i128) -> i128
    requires a { unsigned_abs a < 2 ^ 60 }
    requires b { unsigned_abs b < 2 ^ 60 }
    ensures value { result ≡ a *ℤ b }
    ensures size { unsigned_abs result ≡ unsigned_abs a * unsigned_abs b }
{
    a * b
}

impl Sum {
    /// The sum 0.
    pub fn zero() -> Sum
        ensures exact { result ≡ record { constant = pos 0; terms = [] } }
        ensures room { IsMadeOf 0 result }
    {
        Sum {
            constant: 0,
            terms: ArrayVec::new(),
        }
    }

    pub(crate) fn constant(&self) -> i128
        ensures value { result ≡ self.now.constant }
        ensures made { IsMadeOf 32 self.now }
    {
        self.constant
    }

    pub(crate) fn terms(&self) -> &[SumTerm]
        ensures value { result.now ≡ self.now.terms }
        ensures made { IsMadeOf 32 self.now }
    {
        self.terms.as_slice()
    }

    /// Adds a term.
    pub(crate) fn push(&mut self, coefficient: i128, variable: Variable)
        requires room { IsMadeOf 31 self.old }
        requires small { unsigned_abs coefficient ≤ 256000000 }
        ensures exact { self.new ≡ plus_term self.old coefficient variable }
        ensures room { (count : ℕ) → IsMadeOf count self.old → IsMadeOf (count + 1) self.new }
    {
        self.terms.push(SumTerm {
            coefficient,
            variable,
        });
    }

    /// Adds a whole number.
    pub(crate) fn raise(&mut self, by: i128)
        requires room { IsMadeOf 31 self.old }
        requires small { unsigned_abs by ≤ 2 ^ 50 }
        ensures exact { self.new ≡ record self.old { constant = self.old.constant +ℤ by } }
        ensures room { (count : ℕ) → IsMadeOf count self.old → IsMadeOf (count + 1) self.new }
    {
        self.constant += by;
    }

    /// Adds multiples of terms.
    fn add_terms(&mut self, terms: &[Term], factor: i32)
        requires few { length terms.now ≤ 3 }
        requires small { All (λ t. unsigned_abs factor * unsigned_abs t.coefficient ≤ 256000000) terms.now }
        requires room { IsMadeOf 29 self.old }
        ensures exact { self.new
            ≡ record self.old { terms = self.old.terms ++ map (multiplied factor) terms.now } }
        ensures room { (count : ℕ) → IsMadeOf count self.old → IsMadeOf (count + 3) self.new }
    {
        for term in terms {
            self.push(
                times(i128::from(factor), i128::from(term.coefficient)),
                term.variable,
            );
        }
    }

    /// Adds a multiple of a linear.
    pub(crate) fn add_multiple(&mut self, linear: &Linear, factor: i32)
        requires factor { unsigned_abs factor ≤ 1000000 }
        requires small { All (λ t. unsigned_abs factor * unsigned_abs t.coefficient ≤ 256000000) linear.now.terms }
        requires room { IsMadeOf 28 self.old }
        ensures exact { self.new ≡ plus_multiple self.old factor linear.now }
        ensures room { (count : ℕ) → IsMadeOf count self.old → IsMadeOf (count + 4) self.new }
    {
        self.raise(times(i128::from(factor), i128::from(linear.constant())));
        self.add_terms(linear.terms(), factor);
    }

    /// Adds a multiple of a linear. It takes four parts of the room.
    pub fn add(&mut self, linear: &Linear, factor: i32)
        requires factor { unsigned_abs factor ≤ 256 }
        requires room { IsMadeOf 28 self.old }
        ensures exact { self.new ≡ plus_multiple self.old factor linear.now }
        ensures room { (count : ℕ) → IsMadeOf count self.old → IsMadeOf (count + 4) self.new }
    {
        let _linear = linear.terms();
        self.add_multiple(linear, factor);
    }

    /// Adds another sum, or its negation.
    pub fn add_sum(&mut self, other: &Sum, negated: bool)
        requires room { IsMadeOf 16 self.old }
        requires other { IsMadeOf 16 other.now }
        ensures exact { self.new ≡ plus_multiple self.old (sign negated) other.now }
        ensures room { (count more : ℕ) → IsMadeOf count self.old → IsMadeOf more other.now → IsMadeOf (count + more) self.new }
    {
        let factor = sign(negated);
        self.shift(times(factor, other.constant()));
        for term in other.terms() {
            self.append(times(factor, term.coefficient()), term.variable());
        }
    }

    fn append(&mut self, coefficient: i128, variable: Variable)
        requires room { length self.old.terms < 32 }
        requires light { weight self.old.terms + unsigned_abs coefficient ≤ 8192000000 }
        ensures { self.new ≡ plus_term self.old coefficient variable }
    {
        self.terms.push(SumTerm {
            coefficient,
            variable,
        });
    }

    fn shift(&mut self, by: i128)
        requires { unsigned_abs self.old.constant + unsigned_abs by ≤ 2 ^ 55 }
        ensures { self.new ≡ record self.old { constant = self.old.constant +ℤ by } }
    {
        self.constant += by;
    }
}
