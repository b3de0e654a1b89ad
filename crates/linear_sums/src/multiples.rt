// The tests on canons: zero, multiples and equality.
ghost use Rattle.std.specs.Prelude.{◌≡◌, ◌≢◌, ◌↔◌, ◌<◌, ◌^◌, All, IsTrue, pos, Some, MatchOption, unsigned_abs};
ghost use Rattle.loop_bounds.specs.Effect.{Valuation, whole};
ghost use Rattle.loop_bounds.specs.Linear.{value};
ghost use Rattle.loop_bounds.specs.declared.variable.Variable.{Variable};
ghost use Rattle.linear_sums.specs.Bytes.{AgreesWithBytes, EachByte};
ghost use Rattle.linear_sums.specs.Canon.{canon, IsZeroIn, IsSameIn, IsMultipleIn, AgreeAt, AreProportional, HasOneValues};

use crate::bytes::bytes;
use crate::sum::{Sum, SumTerm, times};
use loop_bounds::{Ranges, Variable};

fn is_equal(a: i128, b: i128) -> bool
    ensures { IsTrue result ↔ (a ≡ b) }
{
    a == b
}

/// Whether multiples of two canons are equal at the coefficient of a variable, or at the constant (`at` is None).
fn agree_at<R: Ranges>(
    a: &Sum,
    a_factor: i128,
    b: &Sum,
    b_factor: i128,
    at: &Option<Variable>,
    ranges: &R,
) -> bool
    requires a_factor { unsigned_abs a_factor < 2 ^ 60 }
    requires b_factor { unsigned_abs b_factor < 2 ^ 60 }
    ensures { IsTrue result ↔ AgreeAt (R.range_of ranges.now) a_factor a.now b_factor b.now at.now }
{
    is_equal(
        times(a_factor, a.canon(at, ranges)),
        times(b_factor, b.canon(at, ranges)),
    )
}

/// Whether they are equal at the coefficient of a variable.
fn agree_at_variable<R: Ranges>(
    a: &Sum,
    a_factor: i128,
    b: &Sum,
    b_factor: i128,
    variable: &Variable,
    ranges: &R,
) -> bool
    requires a_factor { unsigned_abs a_factor < 2 ^ 60 }
    requires b_factor { unsigned_abs b_factor < 2 ^ 60 }
    ensures { IsTrue result ↔ AgreeAt (R.range_of ranges.now) a_factor a.now b_factor b.now (Some variable.now) }
{
    agree_at(a, a_factor, b, b_factor, &Some(*variable), ranges)
}

/// Whether they are equal at each byte of a variable.
fn agree_at_bytes<R: Ranges>(
    a: &Sum,
    a_factor: i128,
    b: &Sum,
    b_factor: i128,
    variable: &Variable,
    ranges: &R,
) -> bool
    requires a_factor { unsigned_abs a_factor < 2 ^ 60 }
    requires b_factor { unsigned_abs b_factor < 2 ^ 60 }
    ensures { IsTrue result
        ↔ EachByte (λ v. AgreeAt (R.range_of ranges.now) a_factor a.now b_factor b.now (Some v)) variable.now }
{
    match bytes(variable) {
        Some(word) => {
            agree_at_variable(a, a_factor, b, b_factor, &word.high, ranges)
                && agree_at_variable(a, a_factor, b, b_factor, &word.low, ranges)
        }
        None => agree_at_variable(a, a_factor, b, b_factor, variable, ranges),
    }
}

/// Whether they are equal at each byte of the terms' variables.
fn agree_at_terms<R: Ranges>(
    a: &Sum,
    a_factor: i128,
    b: &Sum,
    b_factor: i128,
    terms: &[SumTerm],
    ranges: &R,
) -> bool
    requires a_factor { unsigned_abs a_factor < 2 ^ 60 }
    requires b_factor { unsigned_abs b_factor < 2 ^ 60 }
    ensures { IsTrue result
        ↔ All (λ t. EachByte (λ v. AgreeAt (R.range_of ranges.now) a_factor a.now b_factor b.now (Some v)) t.variable) terms.now }
{
    for term in terms {
        if !agree_at_bytes(a, a_factor, b, b_factor, &term.variable(), ranges) {
            return false;
        }
    }
    true
}

/// Whether multiples of two canons are equal.
fn are_proportional<R: Ranges>(a: &Sum, a_factor: i128, b: &Sum, b_factor: i128, ranges: &R) -> bool
    requires a_factor { unsigned_abs a_factor < 2 ^ 60 }
    requires b_factor { unsigned_abs b_factor < 2 ^ 60 }
    ensures { IsTrue result
        ↔ AreProportional (R.range_of ranges.now) a_factor a.now b_factor b.now }
{
    if !agree_at(a, a_factor, b, b_factor, &None, ranges) {
        return false;
    }
    if !agree_at_terms(a, a_factor, b, b_factor, a.terms(), ranges) {
        return false;
    }
    agree_at_terms(a, a_factor, b, b_factor, b.terms(), ranges)
}

impl Sum {
    /// The variable if its coefficient in the canon is not 0.
    fn if_there<R: Ranges>(&self, variable: &Variable, ranges: &R) -> Option<Variable>
        ensures { MatchOption result
            (canon self.now (R.range_of ranges.now) (Some variable.now) ≡ pos 0)
            (λ v. canon self.now (R.range_of ranges.now) (Some v) ≢ pos 0) }
    {
        if self.canon(&Some(*variable), ranges) == 0 {
            None
        } else {
            Some(*variable)
        }
    }

    /// A byte of a variable, or the variable, whose coefficient in the canon is not 0.
    fn byte_there<R: Ranges>(&self, variable: &Variable, ranges: &R) -> Option<Variable>
        ensures { MatchOption result
            (EachByte (λ v. canon self.now (R.range_of ranges.now) (Some v) ≡ pos 0) variable.now)
            (λ v. canon self.now (R.range_of ranges.now) (Some v) ≢ pos 0) }
    {
        let Some(word) = bytes(variable) else {
            return self.if_there(variable, ranges);
        };
        if let Some(high) = self.if_there(&word.high, ranges) {
            return Some(high);
        }
        self.if_there(&word.low, ranges)
    }

    /// A variable whose coefficient in the canon is not 0.
    fn variable_there<R: Ranges>(&self, ranges: &R) -> Option<Variable>
        ensures { MatchOption result
            ((v : Variable) → canon self.now (R.range_of ranges.now) (Some v) ≡ pos 0)
            (λ v. canon self.now (R.range_of ranges.now) (Some v) ≢ pos 0) }
    {
        for term in self.terms() {
            if let Some(variable) = self.byte_there(&term.variable(), ranges) {
                return Some(variable);
            }
        }
        None
    }

    /// Whether the canon is a multiple of the other's, by what both have at one place.
    fn is_multiple_at<R: Ranges>(&self, other: &Sum, at: &Option<Variable>, ranges: &R) -> bool
        requires { canon self.now (R.range_of ranges.now) at.now ≢ pos 0 }
        ensures { IsTrue result ↔ IsMultipleIn (R.range_of ranges.now) self.now other.now }
    {
        let (here, there) = (self.canon(at, ranges), other.canon(at, ranges));
        if is_equal(there, 0) {
            return false;
        }
        are_proportional(self, there, other, here, ranges)
    }

    /// Whether the canon is 0, with the one-valued variables of `ranges` put in.
    pub fn is_zero<R: Ranges>(&self, ranges: &R) -> bool
        ensures exact { IsTrue result ↔ IsZeroIn (R.range_of ranges.now) self.now }
        ensures true_of_values { IsTrue result → (x : Valuation) → AgreesWithBytes x
            → HasOneValues (R.range_of ranges.now) x → value (whole x) self.now ≡ pos 0 }
    {
        if !is_equal(self.canon(&None, ranges), 0) {
            return false;
        }
        match self.variable_there(ranges) {
            None => true,
            Some(_there) => false,
        }
    }

    /// Whether the canons are equal, with the one-valued variables of `ranges` put in.
    pub fn is_same<R: Ranges>(&self, other: &Sum, ranges: &R) -> bool
        ensures exact { IsTrue result ↔ IsSameIn (R.range_of ranges.now) self.now other.now }
        ensures true_of_values { IsTrue result → (x : Valuation) → AgreesWithBytes x
            → HasOneValues (R.range_of ranges.now) x
            → value (whole x) self.now ≡ value (whole x) other.now }
    {
        are_proportional(self, 1, other, 1, ranges)
    }

    /// Whether the canon is 0 or a multiple of the other's: multiples of both, by factors that are not 0, are equal.
    /// The one-valued variables of `ranges` are put in.
    pub fn is_multiple_of<R: Ranges>(&self, other: &Sum, ranges: &R) -> bool
        ensures exact { IsTrue result ↔ IsMultipleIn (R.range_of ranges.now) self.now other.now }
        ensures true_of_values { IsTrue result → (x : Valuation) → AgreesWithBytes x
            → HasOneValues (R.range_of ranges.now) x
            → value (whole x) other.now ≡ pos 0 → value (whole x) self.now ≡ pos 0 }
    {
        if !is_equal(self.canon(&None, ranges), 0) {
            return self.is_multiple_at(other, &None, ranges);
        }
        match self.variable_there(ranges) {
            Some(variable) => self.is_multiple_at(other, &Some(variable), ranges),
            None => true,
        }
    }
}
