// Canons: the coefficients and the constant of a sum in byte form, with one-valued variables put in.
ghost use Rattle.std.specs.Prelude.{◌≡◌, ◌<◌, ◌≤◌, ◌^◌, pos, unsigned_abs};
ghost use Rattle.linear_sums.specs.Bytes.{byte_form};
ghost use Rattle.linear_sums.specs.Canon.{share, once_at, constant_at, canon};

use crate::bytes::bytes;
use crate::sum::{Sum, times};
use loop_bounds::{Ranges, Variable};

/// 1 if the variables are the same, else 0. None is no variable.
fn once(at: &Option<Variable>, variable: &Variable) -> i128
    ensures value { result ≡ once_at at.now variable.now }
    ensures size { unsigned_abs result ≤ 1 }
{
    match at {
        Some(at) if at.rank() == variable.rank() => 1,
        _ => 0,
    }
}

/// What a variable of the byte form adds to the constant (`at` is None) or to the coefficient of a variable.
fn share<R: Ranges>(at: &Option<Variable>, variable: &Variable, ranges: &R) -> i128
    ensures value { result ≡ share (R.range_of ranges.now) at.now variable.now }
    ensures size { unsigned_abs result ≤ 65535 }
{
    match ranges.range(*variable).value() {
        Some(value) => { if at.is_none() { i128::from(value) } else { 0 } }
        None => once(at, variable),
    }
}

/// What a variable adds through its bytes.
fn share_by_bytes<R: Ranges>(at: &Option<Variable>, variable: &Variable, ranges: &R) -> i128
    ensures value { result ≡ byte_form (share (R.range_of ranges.now) at.now) variable.now }
    ensures size { unsigned_abs result < 2 ^ 25 }
{
    match bytes(variable) {
        Some(word) => 256 * share(at, &word.high, ranges) + share(at, &word.low, ranges),
        None => share(at, variable, ranges),
    }
}

impl Sum {
    /// What the constant adds to a place of the canon.
    fn start(&self, at: &Option<Variable>) -> i128
        ensures value { result ≡ constant_at self.now at.now }
        ensures size { unsigned_abs result ≤ 2 ^ 55 }
    {
        if at.is_none() { self.constant() } else { 0 }
    }

    /// The coefficient of a variable in the canon, or the constant (`at` is None).
    pub(crate) fn canon<R: Ranges>(&self, at: &Option<Variable>, ranges: &R) -> i128
        ensures value { result ≡ canon self.now (R.range_of ranges.now) at.now }
        ensures size { unsigned_abs result < 2 ^ 60 }
    {
        let mut sum = self.start(at);
        for term in self.terms() {
            let share = share_by_bytes(at, &term.variable(), ranges);
            sum += times(term.coefficient(), share);
        }
        sum
    }
}
