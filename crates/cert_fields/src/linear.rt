// Linears as fields of a row.
ghost use Rattle.std.specs.Prelude.{◌≡◌, ◌≢◌, ℕ, ℤ, List, [], ◌++◌, MatchBool};
ghost use Rattle.std.specs.Fmt.{signed_decimal};
ghost use Rattle.loop_bounds.specs.Linear.{LinearView, extended};
ghost use Rattle.cert_fields.specs.Counted.{ReadsCounted};
ghost use Rattle.cert_fields.specs.Linear.{IsCoefficient, IsPotential, IsShort, IsShortPotential, IsSum, linear_text, potential_text};
ghost use Rattle.cert_fields.specs.Terms.{BeginsWithSign, IsConstant, IsKept, KeepsShort, ReadsConstant, ReadsTerm, term_of};

use crate::counted::Counted;
use crate::term::{split_at_sign, term_field};
use crate::variable::NamedVariable;
use loop_bounds::{GREATEST_CONSTANT, Linear, Term};
use stack_shape::SLOTS;
use texts::decimal_between;

/// What is kept of a linear while it is read.
#[derive(Clone, Copy)]
struct SoFar {
    /// The linear, as long as it is within the limits.
    linear: Option<Linear>,
    /// The least rank that the next variable may have.
    least: u128,
}

/// The linear with one more term, as long as it is within the limits.
fn with_term(linear: Option<Linear>, coefficient: i32, variable: NamedVariable) -> Option<Linear>
    ensures { (slots : ℕ) (done : LinearView) → KeepsShort done linear
        → let next = extended done (term_of (coefficient, variable))
        in IsSum slots next → KeepsShort next result }
{
    if !variable.is_below(SLOTS) {
        return None;
    }
    let linear = linear?;
    let variable = variable.in_shape()?;
    linear.with_term(Term {
        coefficient,
        variable,
    })
}

impl SoFar {
    /// What is kept of a linear without terms.
    fn of_constant(constant: i32) -> SoFar
        requires { IsConstant constant }
        ensures { (slots : ℕ) → IsKept slots (record { constant = constant; terms = [] }) result }
    {
        SoFar {
            linear: Linear::of_constant(constant),
            least: 0,
        }
    }

    /// Adds a term. The answer is false if its variable does not come after the others, or is a slot beyond the shape.
    fn add(&mut self, coefficient: i32, variable: NamedVariable, slots: usize) -> bool
        requires { IsCoefficient coefficient }
        ensures { (done : LinearView) → IsKept slots done self.old
            → let next = extended done (term_of (coefficient, variable))
            in MatchBool result (IsKept slots next self.new) (¬ IsSum slots next) }
    {
        let rank = variable.rank();
        if rank < self.least {
            return false;
        }
        if !variable.is_below(slots) {
            return false;
        }
        self.linear = with_term(self.linear, coefficient, variable);
        self.least = rank + 1;
        true
    }

    /// Adds the term at the beginning of the text. The result is the text from the next sign on.
    fn add_first<'a>(&mut self, text: &'a [u8], slots: usize) -> Option<&'a [u8]>
        ensures { (done : LinearView) → IsKept slots done self.old
            → ReadsTerm slots text.now done self.new result }
    {
        let (sign, behind) = text.split_first()?;
        let (body, after) = split_at_sign(behind);
        let Some((coefficient, variable)) = term_field(*sign, body) else {
            return None;
        };
        if self.add(coefficient, variable, slots) {
            Some(after)
        } else {
            None
        }
    }
}

/// The constant at the beginning of the text, and the text from the next sign on.
fn constant_before(text: &[u8]) -> Option<(i32, &[u8])>
    ensures { ReadsConstant text.now result }
{
    let (first, behind) = text.split_first()?;
    if *first == b'-' {
        let (digits, terms) = split_at_sign(behind);
        let size = decimal_between(digits, 1, GREATEST_CONSTANT)?;
        return Some((-(size as i32), terms));
    }
    let (digits, terms) = split_at_sign(text);
    let size = decimal_between(digits, 0, GREATEST_CONSTANT)?;
    Some((size as i32, terms))
}

/// A linear in a row with this many slots.
pub fn linear_field(field: &[u8], slots: usize) -> Option<Counted<Linear>>
    ensures { ReadsCounted linear_text (IsSum slots) IsShort field.now result }
{
    let (constant, mut rest) = constant_before(field)?;
    let mut so_far = SoFar::of_constant(constant);
    while !rest.is_empty() {
        rest = so_far.add_first(rest, slots)?;
    }
    Some(match so_far.linear {
        Some(linear) => Counted::Fits(linear),
        None => Counted::TooMany,
    })
}

/// A potential: a linear, or a dash if there is none.
pub fn potential_field(field: &[u8], slots: usize) -> Option<Counted<Option<Linear>>>
    ensures { ReadsCounted potential_text (IsPotential slots) IsShortPotential field.now result }
{
    if field == b"-".as_slice() {
        return Some(Counted::Fits(None));
    }
    match linear_field(field, slots)? {
        Counted::Fits(linear) => Some(Counted::Fits(Some(linear))),
        Counted::TooMany => Some(Counted::TooMany),
    }
}
