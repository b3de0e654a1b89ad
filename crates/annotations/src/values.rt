// Numbers and names in TOML values.

ghost use Rattle.std.specs.Prelude.{◌≡◌, pos, IfSome};
ghost use Rattle.toml.specs.Data.{integer};
ghost use Rattle.toml.specs.View.{view};

use cert_fields::variable_field;
use intervals::ByteRange;
use loop_bounds::{Linear, Term, Variable};
use toml::Value;
use z80_decode::Register8;

/// A number from 0 to 65,535.
pub(crate) fn word(value: &Value) -> Option<u16>
    ensures { IfSome result (λ number. view value.now ≡ integer (pos number)) }
{
    match value.as_integer() {
        Some(number) => u16::try_from(number).ok(),
        None => None,
    }
}

/// A number from 0 to 255.
pub(crate) fn byte(value: &Value) -> Option<u8>
    ensures { IfSome result (λ number. view value.now ≡ integer (pos number)) }
{
    match value.as_integer() {
        Some(number) => u8::try_from(number).ok(),
        None => None,
    }
}

/// A number of 32 bits with a sign.
pub(crate) fn signed(value: &Value) -> Option<i32> {
    match value.as_integer() {
        Some(number) => i32::try_from(number).ok(),
        None => None,
    }
}

/// The register with this letter.
pub(crate) fn register(value: &Value) -> Option<Register8> {
    match value.as_str() {
        Some(name) => cert_fields::register_field(name.as_bytes()),
        None => None,
    }
}

/// The variable with this name.
pub(crate) fn variable(value: &Value) -> Option<Variable> {
    match value.as_str() {
        Some(name) => variable_field(name.as_bytes()),
        None => None,
    }
}

/// The elements of an array of two.
fn both(value: &Value) -> Option<(&Value, &Value)> {
    match value.as_array() {
        Some(items) => match items.as_slice() {
            [first, second] => Some((first, second)),
            _ => None,
        },
        None => None,
    }
}

/// The bytes from `low` to `high`; None if `high` is below `low`.
pub(crate) fn byte_range(low: &Value, high: &Value) -> Option<ByteRange>
    ensures { IfSome result (λ range. (view low.now ≡ integer (pos range.low))
        × (view high.now ≡ integer (pos range.high))) }
{
    ByteRange::new(byte(low)?, byte(high)?)
}

/// A range of bytes, as an array of its two ends.
pub(crate) fn part(value: &Value) -> Option<ByteRange> {
    let (low, high) = both(value)?;
    byte_range(low, high)
}

/// A term, as an array of a variable's name and a coefficient.
fn term(value: &Value) -> Option<Term> {
    let (name, coefficient) = both(value)?;
    Some(Term {
        variable: variable(name)?,
        coefficient: signed(coefficient)?,
    })
}

/// The linear that is 0 where a sum of terms, in any order, is a number.
pub(crate) fn fact(sum: &Value, is: &Value) -> Option<Linear> {
    let number = signed(is)?;
    let Some(items) = sum.as_array() else {
        return None;
    };
    let mut linear = Linear::of_constant(number.checked_neg()?)?;
    for item in items {
        linear = with_term(&linear, term(item)?)?;
    }
    Some(linear)
}

/// A linear with one more term, in its place by the rank of its variable.
fn with_term(linear: &Linear, term: Term) -> Option<Linear> {
    let rank = term.variable.rank();
    let place = linear
        .terms()
        .partition_point(|other| other.variable.rank() < rank);
    let mut longer = Linear::of_constant(linear.constant())?;
    for before in linear.terms().iter().take(place) {
        longer = longer.with_term(*before)?;
    }
    longer = longer.with_term(term)?;
    for behind in linear.terms().iter().skip(place) {
        longer = longer.with_term(*behind)?;
    }
    Some(longer)
}
