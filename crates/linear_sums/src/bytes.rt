// The bytes of words.
ghost use Rattle.std.specs.Prelude.{◌≡◌, option_map};
ghost use Rattle.linear_sums.specs.Bytes.{bytes_of};

use loop_bounds::{Part, Variable};

/// The two bytes of a word.
#[derive(Clone, Copy)]
pub(crate) struct WordBytes {
    pub high: Variable,
    pub low: Variable,
}

fn high_byte(variable: &Variable) -> Option<Variable>
    ensures { result ≡ option_map (λ word. word.high) (bytes_of variable.now) }
{
    match *variable {
        Variable::Bc => Some(Variable::B),
        Variable::De => Some(Variable::D),
        Variable::Hl => Some(Variable::H),
        Variable::Slot(number, Part::Word) => Some(Variable::Slot(number, Part::High)),
        _ => None,
    }
}

fn low_byte(variable: &Variable) -> Option<Variable>
    ensures { result ≡ option_map (λ word. word.low) (bytes_of variable.now) }
{
    match *variable {
        Variable::Bc => Some(Variable::C),
        Variable::De => Some(Variable::E),
        Variable::Hl => Some(Variable::L),
        Variable::Slot(number, Part::Word) => Some(Variable::Slot(number, Part::Low)),
        _ => None,
    }
}

/// The bytes of BC, DE, HL or a slot; None for a byte, IX and IY, which stand for themselves.
pub(crate) fn bytes(variable: &Variable) -> Option<WordBytes>
    ensures { result ≡ bytes_of variable.now }
{
    let high = high_byte(variable)?;
    let low = low_byte(variable)?;
    Some(WordBytes { high, low })
}
