// The texts of flag parts.

use crate::linears::{LinearSides, is_word, sides_of};
use flag_letters::{FlagPart, Letter};
use loop_bounds::{Linear, Term};
use std::alloc::{AllocError, Global};

/// The letter of the flag of which a part tells.
fn flag_letter(letter: Letter) -> &'static str {
    match letter {
        Letter::Zero | Letter::ZeroIfBelow => "Z",
        Letter::CarryIfBelow => "C",
        Letter::SignIfBelow => "S",
    }
}

/// Whether the flag is set where the part's linear is this constant.
fn is_set(letter: Letter, constant: i32) -> bool {
    match letter {
        Letter::Zero => constant == 0,
        Letter::ZeroIfBelow | Letter::CarryIfBelow | Letter::SignIfBelow => constant < 0,
    }
}

/// What the terms of a part are compared by: they are equal to the constant, below it or above it.
fn comparison(letter: Letter, is_turned: bool) -> &'static str {
    match letter {
        Letter::Zero => "=",
        Letter::ZeroIfBelow | Letter::CarryIfBelow | Letter::SignIfBelow => {
            if is_turned { ">" } else { "<" }
        }
    }
}

/// The constant of a part as a text: of one register two hexadecimal digits, of one pair four, else a decimal.
fn constant_text(alloc: Global, linear: &Linear, constant: i64) -> Result<String, AllocError> {
    match linear.terms() {
        [term] if is_single(term) && constant > 0 => {
            if is_word(term.variable) {
                format!(in alloc; "{constant:04X}")
            } else {
                format!(in alloc; "{constant:02X}")
            }
        }
        _ => format!(in alloc; "{constant}"),
    }
}

/// Whether a term is one variable, or its negation.
fn is_single(term: &Term) -> bool {
    term.coefficient == 1 || term.coefficient == -1
}

/// The text of a flag part: where its flag is set. `C: L < 40` is C where L is below 40h; `Z: A = 0`; `S: A > 7F`. A
/// part without a variable is `C set` or `C clear`.
pub fn part_text(alloc: Global, part: &FlagPart) -> Result<String, AllocError> {
    let flag = flag_letter(part.letter);
    if part.linear.terms().is_empty() {
        let is_set = is_set(part.letter, part.linear.constant());
        let word = if is_set { "set" } else { "clear" };
        return format!(in alloc; "{flag} {word}");
    }
    let LinearSides {
        sum,
        constant,
        is_turned,
    } = sides_of(alloc, &part.linear)?;
    let sign = comparison(part.letter, is_turned);
    let constant = constant_text(alloc, &part.linear, constant)?;
    format!(in alloc; "{flag}: {sum} {sign} {constant}")
}
