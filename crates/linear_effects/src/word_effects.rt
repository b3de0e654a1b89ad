// HL, IX and IY after 16-bit arithmetic as linears.
ghost use Rattle.std.specs.Prelude.{◌≡◌, ◌<◌, ◌≤◌, if◌then◌else◌};
ghost use Rattle.loop_bounds.specs.Variable.{rank_of};
ghost use Rattle.linear_effects.specs.WordEffects.{word_operand_range, index_range, word_sum, word_difference, word_sum_effect, word_difference_with, word_difference_effect};

use crate::windows::window_number;
use abs_state::Pairs;
use flag_conditions::{OperandWord, no_terms, one_term, two_terms};
use intervals::WordRange;
use loop_bounds::{Linear, Variable};
use z80_decode::Index;

fn word_operand_range(operand: OperandWord, own: WordRange, pairs: &Pairs) -> WordRange
    ensures { result ≡ word_operand_range operand own pairs.now }
{
    match operand {
        OperandWord::Bc => pairs.bc.word,
        OperandWord::De => pairs.de.word,
        OperandWord::Own => own,
    }
}

/// The range of an index register.
pub(crate) fn index_range(index: Index, pairs: &Pairs) -> WordRange
    ensures { result ≡ index_range index pairs.now }
{
    match index {
        Index::Ix => pairs.ix.word,
        Index::Iy => pairs.iy.word,
    }
}

/// v + x + k - 65,536*q, for a word whose variable comes after BC and DE.
fn word_sum(carry: bool, variable: Variable, operand: OperandWord, window: u32) -> Linear
    requires known { 8 < rank_of variable }
    requires small { window ≤ 1024 }
    ensures { result ≡ word_sum carry variable operand window }
{
    let start = i32::from(carry) - 65_536 * window as i32;
    match operand {
        OperandWord::Bc => two_terms(start, 1, Variable::Bc, 1, variable),
        OperandWord::De => two_terms(start, 1, Variable::De, 1, variable),
        OperandWord::Own => one_term(start, 2, variable),
    }
}

/// 65,536 + v - x - k - 65,536*q, for a word whose variable comes after BC and DE.
fn word_difference(carry: bool, variable: Variable, operand: OperandWord, window: u32) -> Linear
    requires known { 8 < rank_of variable }
    requires small { window ≤ 1024 }
    ensures { result ≡ word_difference carry variable operand window }
{
    let start = 65_536 - i32::from(carry) - 65_536 * window as i32;
    match operand {
        OperandWord::Bc => two_terms(start, -1, Variable::Bc, 1, variable),
        OperandWord::De => two_terms(start, -1, Variable::De, 1, variable),
        OperandWord::Own => no_terms(start),
    }
}

pub(crate) fn word_sum_effect(
    variable: Variable,
    own: WordRange,
    operand: Option<OperandWord>,
    carry: Option<bool>,
    pairs: &Pairs,
) -> Option<Linear>
    requires { 8 < rank_of variable }
    ensures { result ≡ word_sum_effect variable own operand carry pairs.now }
{
    match operand {
        None => None,
        Some(known) => match carry {
            None => None,
            Some(carry) => {
                let other = word_operand_range(known, own, pairs);
                let low = u32::from(own.low()) + u32::from(other.low()) + u32::from(carry);
                let high = u32::from(own.high()) + u32::from(other.high()) + u32::from(carry);
                match window_number(65_536, low, high) {
                    None => None,
                    Some(window) => Some(word_sum(carry, variable, known, window)),
                }
            }
        },
    }
}

/// A difference with another word.
fn word_difference_with(
    variable: Variable,
    own: WordRange,
    known: OperandWord,
    carry: bool,
    pairs: &Pairs,
) -> Option<Linear>
    requires { 8 < rank_of variable }
    ensures { result ≡ word_difference_with variable own known carry pairs.now }
{
    let other = word_operand_range(known, own, pairs);
    let low = 65_536 + u32::from(own.low()) - u32::from(other.high()) - u32::from(carry);
    let high = 65_536 + u32::from(own.high()) - u32::from(other.low()) - u32::from(carry);
    match window_number(65_536, low, high) {
        None => None,
        Some(window) => Some(word_difference(carry, variable, known, window)),
    }
}

/// v - v - k
fn own_difference(carry: bool, variable: Variable) -> Linear
    requires { 8 < rank_of variable }
    ensures { result ≡ word_difference carry variable OperandWord.Own (if carry then 0 else 1) }
{
    if carry {
        word_difference(true, variable, OperandWord::Own, 0)
    } else {
        word_difference(false, variable, OperandWord::Own, 1)
    }
}

pub(crate) fn word_difference_effect(
    variable: Variable,
    own: WordRange,
    operand: Option<OperandWord>,
    carry: Option<bool>,
    pairs: &Pairs,
) -> Option<Linear>
    requires { 8 < rank_of variable }
    ensures { result ≡ word_difference_effect variable own operand carry pairs.now }
{
    match operand {
        None => None,
        Some(known) => match carry {
            None => None,
            Some(carry) => match known {
                OperandWord::Own => Some(own_difference(carry, variable)),
                _ => word_difference_with(variable, own, known, carry, pairs),
            },
        },
    }
}
