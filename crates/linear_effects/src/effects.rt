// The linear effect of each instruction.
ghost use Rattle.std.specs.Prelude.{◌≡◌, IfSome};
ghost use Rattle.linear_effects.specs.Effects.{effect_of, HasSlightTerms, IsTrueEffect};

use crate::byte_effects::{arithmetic_effect, complemented, negate_effect, operand_range};
use crate::variable_effect::{LinearEffect, becoming};
use crate::word_effects::{index_range, word_difference_effect, word_sum_effect};
use abs_state::Pairs;
use flag_conditions::{index_operand_word, index_variable, operand_term, operand_word};
use intervals::ByteRange;
use loop_bounds::Variable;
use z80_decode::Instr;

/// The variable that an instruction makes a linear of the variables before it, if there is one beside those that it
/// leaves, copies, raises or lowers by 1. `byte` is the range of the byte in work at the end of the instruction,
/// `carry` the carry before it, if it is known.
#[tactic(auto, using(crate::proofs::Each::table_effects_true, crate::proofs::Slight::table_slight), unfolding(crate::specs::Effects::effect_of))]
pub fn linear_effect(
    instr: &Instr,
    pairs: &Pairs,
    byte: ByteRange,
    carry: Option<bool>,
) -> Option<LinearEffect>
    ensures exact { result ≡ effect_of instr.now pairs.now byte carry }
    ensures slight { IfSome result HasSlightTerms }
    ensures of_machines { IsTrueEffect result instr.now pairs.now byte carry }
{
    match instr {
        Instr::Arithmetic(kind, operand) => becoming(
            Variable::A,
            arithmetic_effect(
                *kind,
                operand_term(*operand, byte),
                carry,
                pairs.af.high,
                operand_range(*operand, pairs, byte),
            ),
        ),
        Instr::Complement => becoming(Variable::A, Some(complemented())),
        Instr::Negate => becoming(Variable::A, negate_effect(pairs.af.high)),
        Instr::AddHl(pair) => becoming(
            Variable::Hl,
            word_sum_effect(
                Variable::Hl,
                pairs.hl.word,
                operand_word(*pair),
                Some(false),
                pairs,
            ),
        ),
        Instr::AdcHl(pair) => becoming(
            Variable::Hl,
            word_sum_effect(
                Variable::Hl,
                pairs.hl.word,
                operand_word(*pair),
                carry,
                pairs,
            ),
        ),
        Instr::SbcHl(pair) => becoming(
            Variable::Hl,
            word_difference_effect(
                Variable::Hl,
                pairs.hl.word,
                operand_word(*pair),
                carry,
                pairs,
            ),
        ),
        Instr::AddIndex(index, pair) => becoming(
            index_variable(*index),
            word_sum_effect(
                index_variable(*index),
                index_range(*index, pairs),
                index_operand_word(*pair),
                Some(false),
                pairs,
            ),
        ),
        _ => None,
    }
}
