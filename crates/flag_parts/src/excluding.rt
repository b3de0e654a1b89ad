// Where a linear is not 0: its one-valued variables are put in, and one value is cut from the ends of a range.
ghost use Rattle.std.specs.Prelude.{◌≡◌, ◌≢◌, ◌<◌, ◌≤◌, ◌^◌, ◌*◌, ◌*ℤ◌, List, Some, None, IfSome, IsTrue, MatchBool, pos, ◌+ℤ◌, unsigned_abs};
ghost use Rattle.intervals.specs.Domain.{Entry};
ghost use Rattle.loop_bounds.specs.Effect.{whole};
ghost use Rattle.loop_bounds.specs.Linear.{value};
ghost use Rattle.z80_draft.specs.Registers.{IsRegs};
ghost use Rattle.abs_state.specs.Holds.{Holds};
ghost use Rattle.abs_state.specs.Seen.{Seen};
ghost use Rattle.abs_state.specs.Variables.{range_of, cut_to, value_in};
ghost use Rattle.abs_state.specs.declared.cell.KeptCell.{KeptCell};
ghost use Rattle.flag_parts.specs.Excluding.{known_part, known_value, is_free, with_free, with_term, free_terms, only_term, balance, without_value, without_word, not_zero, not_zero_by};

use abs_state::AbsState;
use loop_bounds::{Linear, Ranges, Term, Tightenable, Variable};

/// The terms whose variables have more than one value.
#[derive(Clone, Copy)]
pub(crate) enum FreeTerms {
    Nothing,
    One(Term),
    More,
}

impl FreeTerms {
    fn with(&self, term: &Term) -> FreeTerms
        ensures { result ≡ with_free self.now term.now }
    {
        match self {
            FreeTerms::Nothing => FreeTerms::One(*term),
            FreeTerms::One(_) => FreeTerms::More,
            FreeTerms::More => FreeTerms::More,
        }
    }
}

/// The value of a one-valued variable, else 0.
fn known_part<R: Ranges>(variable: &Variable, ranges: &R) -> u16
    ensures { pos result ≡ known_part (R.range_of ranges.now) variable.now }
{
    match ranges.range(*variable).value() {
        Some(value) => value,
        None => 0,
    }
}

/// A coefficient times a value.
fn multiple(coefficient: i32, value: u16) -> i128
    ensures value { result ≡ coefficient *ℤ pos value }
    ensures size { unsigned_abs result ≤ 65535 * unsigned_abs coefficient }
{
    i128::from(coefficient) * i128::from(value)
}

/// The value of a linear without its free terms.
fn known_value<R: Ranges>(linear: &Linear, ranges: &R) -> i128
    ensures value { result ≡ known_value (R.range_of ranges.now) linear.now }
    ensures size { unsigned_abs result < 2 ^ 57 }
{
    let mut sum = i128::from(linear.constant());
    for term in linear.terms() {
        sum += multiple(term.coefficient, known_part(&term.variable, ranges));
    }
    sum
}

fn is_free<R: Ranges>(term: &Term, ranges: &R) -> bool
    ensures { result ≡ is_free (R.range_of ranges.now) term.now }
{
    ranges.range(term.variable).value().is_none()
}

/// One more term, if it is free.
fn with_term<R: Ranges>(free: &FreeTerms, term: &Term, ranges: &R) -> FreeTerms
    ensures { result ≡ with_term (R.range_of ranges.now) free.now term.now }
{
    if is_free(term, ranges) {
        free.with(term)
    } else {
        *free
    }
}

fn free_terms<R: Ranges>(terms: &[Term], ranges: &R) -> FreeTerms
    ensures { result ≡ free_terms (R.range_of ranges.now) terms.now }
{
    let mut free = FreeTerms::Nothing;
    for term in terms {
        free = with_term(&free, term, ranges);
    }
    free
}

/// The word whose product with the coefficient becomes 0 when the constant is added, or None if there is none.
fn balance(coefficient: i32, constant: i128) -> Option<u16>
    requires coefficient { 0 < unsigned_abs coefficient }
    requires small { unsigned_abs constant < 2 ^ 57 }
    ensures { result ≡ balance coefficient constant }
{
    let word = constant.unsigned_abs() / u128::from(coefficient.unsigned_abs());
    if word > 65535 {
        return None;
    }
    let word = word as u16;
    if multiple(coefficient, word) + constant == 0 {
        Some(word)
    } else {
        None
    }
}

/// Cuts one value from the ends of a variable's range.
fn cut_out(state: &mut AbsState, variable: &Variable, value: u16) -> bool
    ensures { MatchBool result (without_value state.old variable.now value ≡ Some state.new)
        (without_value state.old variable.now value ≡ None) }
{
    match state.range(*variable).without(value) {
        Some(left) => state.cut(*variable, left),
        None => false,
    }
}

/// Cuts the word at which a term balances a constant from the ends of its variable's range.
fn cut_balance(state: &mut AbsState, term: &Term, constant: i128) -> bool
    requires coefficient { 0 < unsigned_abs term.now.coefficient }
    requires small { unsigned_abs constant < 2 ^ 57 }
    ensures { MatchBool result
        (without_word state.old term.now.variable (balance term.now.coefficient constant) ≡ Some state.new)
        (without_word state.old term.now.variable (balance term.now.coefficient constant) ≡ None) }
{
    match balance(term.coefficient, constant) {
        Some(word) => cut_out(state, &term.variable, word),
        None => true,
    }
}

/// The term of a linear that has no other.
fn only_term(linear: &Linear) -> Option<Term>
    ensures exact { result ≡ only_term linear.now.terms }
    ensures solid { IfSome result (λ term. 0 < unsigned_abs term.coefficient) }
{
    match linear.terms() {
        [term] => Some(*term),
        _ => None,
    }
}

/// Restricts a state to where a linear is not 0. Of an only term the word at which the linear is 0 is cut from the ends
/// of the variable's range. Of several, the one-valued variables are put in. If none is left, nothing is left where the
/// linear is 0. If one is left, the word at which the linear is 0 is cut from the ends of its range. Answers whether
/// anything is left.
pub(crate) fn exclude_zero(linear: &Linear, state: &mut AbsState) -> bool
    ensures exact { MatchBool result (not_zero linear.now state.old ≡ Some state.new)
        (not_zero linear.now state.old ≡ None) }
    ensures holds { (cells : List KeptCell) (entry : Entry) (m : Seen) → IsRegs m.regs
        → Holds state.old cells entry m → value (whole (value_in m)) linear.now ≢ pos 0
        → IsTrue result × Holds state.new cells entry m }
{
    cut_zero(linear, state)
}

/// The same, without a word on machines.
fn cut_zero(linear: &Linear, state: &mut AbsState) -> bool
    ensures { MatchBool result (not_zero linear.now state.old ≡ Some state.new)
        (not_zero linear.now state.old ≡ None) }
{
    match only_term(linear) {
        Some(term) => cut_balance(state, &term, i128::from(linear.constant())),
        None => cut_free(linear, state),
    }
}

/// The same by the terms whose variables have more than one value.
fn cut_free(linear: &Linear, state: &mut AbsState) -> bool
    ensures { MatchBool result
        (not_zero_by (free_terms (range_of state.old) linear.now.terms)
        (known_value (range_of state.old) linear.now) state.old ≡ Some state.new)
        (not_zero_by (free_terms (range_of state.old) linear.now.terms)
        (known_value (range_of state.old) linear.now) state.old ≡ None) }
{
    let constant = known_value(linear, state);
    let free = free_terms(linear.terms(), state);
    match &free {
        FreeTerms::Nothing => constant != 0,
        FreeTerms::One(term) => cut_balance(state, term, constant),
        FreeTerms::More => true,
    }
}
