// The texts of facts.

use loop_bounds::{Linear, Part, Term, Variable};
use std::alloc::{AllocError, Global};
use std::fmt;

/// The name of a variable: a register, a pair, `s2`, `s2h` or `s2l`.
#[derive(Clone, Copy)]
struct VariableText(Variable);

impl fmt::Display for VariableText {
    fn fmt<W: fmt::Write>(&self, f: &mut fmt::Formatter<W>) -> fmt::Result {
        let name = match self.0 {
            Variable::A => "A",
            Variable::B => "B",
            Variable::C => "C",
            Variable::D => "D",
            Variable::E => "E",
            Variable::H => "H",
            Variable::L => "L",
            Variable::Bc => "BC",
            Variable::De => "DE",
            Variable::Hl => "HL",
            Variable::Ix => "IX",
            Variable::Iy => "IY",
            Variable::Slot(number, Part::Word) => return write!(f, "s{}", number.number()),
            Variable::Slot(number, Part::High) => return write!(f, "s{}h", number.number()),
            Variable::Slot(number, Part::Low) => return write!(f, "s{}l", number.number()),
        };
        write!(f, "{name}")
    }
}

/// A term of a sum, with its sign: `BC`, ` + 2*B`, ` - C`.
#[derive(Clone, Copy)]
struct TermText {
    is_first: bool,
    coefficient: i64,
    variable: Variable,
}

impl fmt::Display for TermText {
    fn fmt<W: fmt::Write>(&self, f: &mut fmt::Formatter<W>) -> fmt::Result {
        let sign = match (self.is_first, self.coefficient < 0) {
            (true, false) => "",
            (true, true) => "-",
            (false, false) => " + ",
            (false, true) => " - ",
        };
        let variable = VariableText(self.variable);
        match self.coefficient.unsigned_abs() {
            1 => write!(f, "{sign}{variable}"),
            size => write!(f, "{sign}{size}*{variable}"),
        }
    }
}

/// The name of a variable.
pub fn variable_text(alloc: Global, variable: Variable) -> Result<String, AllocError> {
    let name = VariableText(variable);
    format!(in alloc; "{name}")
}

/// The text of a linear: `44 + 13*B - 2*C`.
pub fn linear_text(alloc: Global, linear: &Linear) -> Result<String, AllocError> {
    let constant = linear.constant();
    let mut sum = format!(in alloc; "{constant}")?;
    add_terms(alloc, &mut sum, linear.terms(), false, None)?;
    Ok(sum)
}

/// Whether the variable is a word.
pub(crate) fn is_word(variable: Variable) -> bool {
    match variable {
        Variable::A
        | Variable::B
        | Variable::C
        | Variable::D
        | Variable::E
        | Variable::H
        | Variable::L
        | Variable::Slot(_, Part::High | Part::Low) => false,
        Variable::Bc
        | Variable::De
        | Variable::Hl
        | Variable::Ix
        | Variable::Iy
        | Variable::Slot(_, Part::Word) => true,
    }
}

/// Adds terms to a sum, with the signs turned if `is_turned`. `Some(true)` keeps the positive ones only, `Some(false)`
/// the others.
fn add_terms(
    alloc: Global,
    sum: &mut String,
    terms: &[Term],
    is_turned: bool,
    positive: Option<bool>,
) -> Result<(), AllocError> {
    for term in terms {
        let coefficient = turned(term.coefficient, is_turned);
        if positive == Some(coefficient <= 0) {
            continue;
        }
        let text = TermText {
            is_first: sum.is_empty(),
            coefficient,
            variable: term.variable,
        };
        let text = format!(in alloc; "{text}")?;
        sum.push_str(text.as_str())?;
    }
    Ok(())
}

/// A number, with its sign turned if `is_turned`.
fn turned(number: i32, is_turned: bool) -> i64 {
    let number = i64::from(number);
    if is_turned {
        number.saturating_neg()
    } else {
        number
    }
}

/// A linear with its terms on one side and its constant on the other.
#[derive(Drop)]
pub(crate) struct LinearSides {
    /// The terms, a positive one first.
    pub sum: String,
    /// The constant on the other side.
    pub constant: i64,
    /// Whether the signs are turned, since no term is positive.
    pub is_turned: bool,
}

/// The two sides of a linear.
pub(crate) fn sides_of(alloc: Global, linear: &Linear) -> Result<LinearSides, AllocError> {
    let terms = linear.terms();
    let mut sum = String::new(alloc);
    let has_positive = terms.iter().any(|term| term.coefficient > 0);
    let is_turned = !has_positive && !terms.is_empty();
    match terms.first() {
        None => sum.push_str("0")?,
        Some(first) if has_positive && first.coefficient < 0 => {
            add_terms(alloc, &mut sum, terms, is_turned, Some(true))?;
            add_terms(alloc, &mut sum, terms, is_turned, Some(false))?;
        }
        Some(_) => add_terms(alloc, &mut sum, terms, is_turned, None)?,
    }
    Ok(LinearSides {
        sum,
        constant: turned(linear.constant(), !is_turned),
        is_turned,
    })
}

/// The text of a fact, which is a linear that is 0: its terms, the constant on the other side, with a positive term
/// first. `BC + DE = 43B0`, `A - B = 5`. The constant has four hexadecimal digits if a variable is a word and it is 256
/// or more, else it is decimal.
pub fn fact_text(alloc: Global, fact: &Linear) -> Result<String, AllocError> {
    let LinearSides { sum, constant, .. } = sides_of(alloc, fact)?;
    if constant >= 256 && fact.terms().iter().any(|term| is_word(term.variable)) {
        format!(in alloc; "{sum} = {constant:04X}")
    } else {
        format!(in alloc; "{sum} = {constant}")
    }
}
