// The texts of facts: a sum of variables that is always the same.

use crate::kind::NoteKind;
use crate::note_text::{Misfit, Names, formed, keep};
use cert_fields::variable_field;
use loop_bounds::{Linear, Term};
use symbols::number;

/// A fact: `DE+2*B = 4041h`, perhaps with `through` and the end of the loop over which it is carried.
pub(crate) fn fact(names: Names<'_>, said: &str) -> Result<NoteKind, Misfit> {
    let (sum, right) = formed(said.split_once('='))?;
    let (value, through) = match right.split_once(" through ") {
        Some((value, end)) => (value, Some(names.loop_end(end.trim_ascii())?)),
        None => (right, None),
    };
    let value = value_of(names, value.trim_ascii())?;
    Ok(NoteKind::Fact {
        fact: linear(names, sum, value)?,
        through,
    })
}

/// The value of a sum: a number, perhaps with a minus sign, or what an address is.
fn value_of(names: Names<'_>, text: &str) -> Result<i32, Misfit> {
    if let Some(digits) = text.strip_prefix('-') {
        let value = formed(number(digits.trim_ascii()))?;
        let value = formed(i32::try_from(value).ok())?;
        return formed(value.checked_neg());
    }
    match number(text) {
        Some(value) => formed(i32::try_from(value).ok()),
        None => Ok(i32::from(names.address(text)?)),
    }
}

/// The linear that is 0 where the sum has the value.
fn linear(names: Names<'_>, sum: &str, value: i32) -> Result<Linear, Misfit> {
    let mut terms = Vec::new(names.alloc);
    for piece in sum.split('+') {
        add_terms(&mut terms, piece)?;
    }
    terms.sort_unstable_by_key(|term| term.variable.rank());
    let mut linear = formed(Linear::of_constant(formed(value.checked_neg())?))?;
    for term in &terms {
        linear = formed(linear.with_term(*term))?;
    }
    Ok(linear)
}

/// Adds the terms of a piece of a sum without plus signs. Nothing may stand before a minus sign.
fn add_terms(terms: &mut Vec<Term>, piece: &str) -> Result<(), Misfit> {
    if let Some((before, after)) = piece.split_once('-') {
        if !before.trim_ascii().is_empty() {
            keep(terms, formed(term(before, 1))?)?;
        }
        for part in after.split('-') {
            keep(terms, formed(term(part, -1))?)?;
        }
        return Ok(());
    }
    keep(terms, formed(term(piece, 1))?)
}

/// A term: a variable, or a number, a star and a variable. It is counted with this sign.
fn term(text: &str, sign: i32) -> Option<Term> {
    let (coefficient, name) = match text.split_once('*') {
        Some((coefficient, name)) => (number(coefficient.trim_ascii())?, name),
        None => (1, text),
    };
    Some(Term {
        coefficient: i32::try_from(coefficient).ok()?.checked_mul(sign)?,
        variable: variable_field(name.trim_ascii().as_bytes())?,
    })
}
