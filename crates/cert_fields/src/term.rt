// The terms of a linear, as they are read.
ghost use Rattle.std.specs.Prelude.{◌≡◌, ◌<◌, ◌≤◌, ◌∷◌, [], option_map, unsigned_abs};
ghost use Rattle.std.specs.List.{position};
ghost use Rattle.cert_fields.specs.Linear.{sign_of, term_text};
ghost use Rattle.cert_fields.specs.Terms.{IsCutAtSign, IsTerm, is_sign, term_of};
ghost use Rattle.texts.specs.Numbers.{Reads};

use crate::variable::{NamedVariable, named_variable_field};
use loop_bounds::GREATEST_COEFFICIENT;
use texts::{decimal_between, split_once};

/// Whether a byte is a sign.
fn is_sign(byte: u8) -> bool
    ensures { result ≡ is_sign byte }
{
    byte == b'+' || byte == b'-'
}

/// The place of the first sign.
fn position_of_sign(text: &[u8]) -> Option<usize>
    ensures { result ≡ position is_sign text.now }
{
    text.iter().position(|byte| is_sign(*byte))
}

/// The text before the first sign, and the text from there on.
pub(crate) fn split_at_sign(text: &[u8]) -> (&[u8], &[u8])
    ensures { IsCutAtSign text.now result.0.now result.1.now }
{
    match position_of_sign(text) {
        Some(at) => (&text[..at], &text[at..]),
        None => (text, &[]),
    }
}

/// The number with this size and this sign.
fn signed(sign: u8, size: u32) -> Option<i32>
    requires positive { 0 < size }
    requires small { size ≤ 1000000 }
    ensures { Reads sign_of (λ z. unsigned_abs z ≡ size) (sign ∷ []) result }
{
    match sign {
        b'+' => Some(size as i32),
        b'-' => Some(-(size as i32)),
        _ => None,
    }
}

/// The coefficient and the variable of a term with this sign.
pub(crate) fn term_field(sign: u8, body: &[u8]) -> Option<(i32, NamedVariable)>
    ensures { Reads term_text IsTerm (sign ∷ body.now) (option_map term_of result) }
{
    let (digits, name) = split_once(body, b'*')?;
    let size = decimal_between(digits, 1, GREATEST_COEFFICIENT)?;
    let coefficient = signed(sign, size)?;
    let variable = named_variable_field(name)?;
    Some((coefficient, variable))
}
