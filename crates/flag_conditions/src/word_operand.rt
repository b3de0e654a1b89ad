// Words as operands in a linear: BC, DE, or the word that changes.
ghost use Rattle.std.specs.Prelude.{◌≡◌, ◌<◌};
ghost use Rattle.loop_bounds.specs.Variable.{rank_of};
ghost use Rattle.flag_conditions.specs.OperandTerm.{variable_of_index, word_of_pair, word_of_index_pair};

use loop_bounds::Variable;
use z80_decode::{Index, IndexPair, OperandPair};

/// An operand of 16-bit arithmetic, as it stands in a linear. `Own` is the word that changes.
#[derive(Clone, Copy)]
pub enum OperandWord {
    Bc,
    De,
    Own,
}

/// The operand of ADD, ADC and SBC with HL; None for SP, which is no variable.
pub fn operand_word(pair: OperandPair) -> Option<OperandWord>
    ensures { result ≡ word_of_pair pair }
{
    match pair {
        OperandPair::Bc => Some(OperandWord::Bc),
        OperandPair::De => Some(OperandWord::De),
        OperandPair::Hl => Some(OperandWord::Own),
        OperandPair::Sp => None,
    }
}

/// The operand of ADD with an index register; None for SP, which is no variable.
pub fn index_operand_word(pair: IndexPair) -> Option<OperandWord>
    ensures { result ≡ word_of_index_pair pair }
{
    match pair {
        IndexPair::Bc => Some(OperandWord::Bc),
        IndexPair::De => Some(OperandWord::De),
        IndexPair::Own => Some(OperandWord::Own),
        IndexPair::Sp => None,
    }
}

/// The variable of an index register, which comes after BC and DE.
pub fn index_variable(index: Index) -> Variable
    ensures value { result ≡ variable_of_index index }
    ensures after_de { 8 < rank_of result }
{
    match index {
        Index::Ix => Variable::Ix,
        Index::Iy => Variable::Iy,
    }
}
