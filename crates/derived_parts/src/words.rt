// Words and their bytes.

use loop_bounds::{Part, Variable};

/// The two bytes of a word.
#[derive(Clone, Copy)]
pub(crate) struct Halves {
    pub high: Variable,
    pub low: Variable,
}

fn high_of(word: &Variable) -> Option<Variable> {
    match *word {
        Variable::Bc => Some(Variable::B),
        Variable::De => Some(Variable::D),
        Variable::Hl => Some(Variable::H),
        Variable::Slot(number, Part::Word) => Some(Variable::Slot(number, Part::High)),
        _ => None,
    }
}

fn low_of(word: &Variable) -> Option<Variable> {
    match *word {
        Variable::Bc => Some(Variable::C),
        Variable::De => Some(Variable::E),
        Variable::Hl => Some(Variable::L),
        Variable::Slot(number, Part::Word) => Some(Variable::Slot(number, Part::Low)),
        _ => None,
    }
}

/// The bytes of BC, DE, HL or a slot. None for a byte, IX and IY.
pub(crate) fn halves_of(variable: &Variable) -> Option<Halves> {
    let high = high_of(variable)?;
    let low = low_of(variable)?;
    Some(Halves { high, low })
}

/// The word whose low byte a variable is.
pub(crate) fn word_above(low: &Variable) -> Option<Variable> {
    match *low {
        Variable::C => Some(Variable::Bc),
        Variable::E => Some(Variable::De),
        Variable::L => Some(Variable::Hl),
        Variable::Slot(number, Part::Low) => Some(Variable::Slot(number, Part::Word)),
        _ => None,
    }
}
