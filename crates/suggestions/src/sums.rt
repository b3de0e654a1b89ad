// Sums of variables.

use loop_bounds::{Linear, Part, Variable};
use named_annotations::variable_name;
use std::alloc::{AllocError, Global};

/// Whether a variable has 16 bits.
pub(crate) fn is_word(variable: Variable) -> bool {
    matches!(
        variable,
        Variable::Bc
            | Variable::De
            | Variable::Hl
            | Variable::Ix
            | Variable::Iy
            | Variable::Slot(_, Part::Word)
    )
}

/// The terms of a linear as pairs of a name and a coefficient, as annotations have them.
pub(crate) fn sum_pairs(alloc: Global, linear: &Linear) -> Result<String, AllocError> {
    let mut sum = String::new(alloc);
    for term in linear.terms() {
        let comma = if sum.is_empty() { "" } else { ", " };
        let name = variable_name(alloc, term.variable)?;
        let text = format!(in alloc; "{comma}[\"{name}\", {}]", term.coefficient)?;
        sum.push_str(text.as_str())?;
    }
    Ok(sum)
}

/// An equation with the terms on the left and the constant on the right, such as `DE + 2*B = 4061`. Where the first
/// coefficient is negative, all signs are turned.
pub(crate) fn equation(alloc: Global, linear: &Linear) -> Result<String, AllocError> {
    let turned = match linear.terms().first() {
        Some(term) => term.coefficient < 0,
        None => false,
    };
    let mut text = String::new(alloc);
    for term in linear.terms() {
        let coefficient = if turned {
            term.coefficient.saturating_neg()
        } else {
            term.coefficient
        };
        let name = variable_name(alloc, term.variable)?;
        let sign = match (text.is_empty(), coefficient < 0) {
            (true, true) => "-",
            (true, false) => "",
            (false, true) => " - ",
            (false, false) => " + ",
        };
        let size = coefficient.unsigned_abs();
        let term = if size == 1 {
            format!(in alloc; "{sign}{name}")?
        } else {
            format!(in alloc; "{sign}{size}*{name}")?
        };
        text.push_str(term.as_str())?;
    }
    let constant = i64::from(linear.constant());
    let is = if turned { constant } else { -constant };
    let has_word = linear.terms().iter().any(|term| is_word(term.variable));
    let right = if has_word && 256 <= is && is <= 65_535 {
        format!(in alloc; " = {is:04X}")?
    } else {
        format!(in alloc; " = {is}")?
    };
    text.push_str(right.as_str())?;
    Ok(text)
}
