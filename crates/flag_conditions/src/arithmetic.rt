// Conditions of 8-bit arithmetic and logic.
ghost use Rattle.std.specs.Prelude.{◌≡◌};
ghost use Rattle.flag_conditions.specs.NewConditions.{sum_before, difference_before, arithmetic_before, sum_after, difference_after, arithmetic_after};

use crate::byte_operand::OperandTerm;
use crate::linears::{byte_excess, byte_left};
use crate::logic::{and_conditions, or_conditions, xor_conditions};
use crate::new_parts::NewParts;
use crate::parts::{carry_if_below, of_byte, of_byte_and, zero};
use flag_letters::FlagPart;
use loop_bounds::Variable;
use z80_decode::{ArithmeticKind, Operand};

fn sum_before(operand: Option<OperandTerm>, carry: Option<bool>) -> NewParts
    ensures { result ≡ sum_before operand carry }
{
    match operand {
        None => NewParts::none(),
        Some(known) => match carry {
            None => NewParts::none(),
            Some(carry) => NewParts::one(carry_if_below(byte_left(carry, known))),
        },
    }
}

fn difference_before(operand: Option<OperandTerm>, carry: Option<bool>) -> NewParts
    ensures { result ≡ difference_before operand carry }
{
    match operand {
        None => NewParts::none(),
        Some(known) => match carry {
            None => NewParts::none(),
            Some(true) => NewParts::one(carry_if_below(byte_excess(true, known))),
            Some(false) => {
                let excess = byte_excess(false, known);
                NewParts::two(carry_if_below(excess), zero(excess))
            }
        },
    }
}

/// The conditions over the variables before the operation.
pub(crate) fn arithmetic_before(
    kind: ArithmeticKind,
    operand: Operand,
    known: Option<OperandTerm>,
    carry: Option<bool>,
) -> NewParts
    ensures { result ≡ arithmetic_before kind operand known carry }
{
    match kind {
        ArithmeticKind::Add => sum_before(known, Some(false)),
        ArithmeticKind::Adc => sum_before(known, carry),
        ArithmeticKind::Sub => difference_before(known, Some(false)),
        ArithmeticKind::Sbc => difference_before(known, carry),
        ArithmeticKind::And => and_conditions(operand),
        ArithmeticKind::Xor => xor_conditions(known),
        ArithmeticKind::Or => or_conditions(known),
        ArithmeticKind::Compare => difference_before(known, Some(false)),
    }
}

fn sum_after(operand: Option<OperandTerm>, carry: Option<bool>) -> Option<FlagPart>
    ensures { result ≡ sum_after operand carry }
{
    match operand {
        None | Some(OperandTerm::A) => None,
        Some(known) => match carry {
            None | Some(true) => None,
            Some(false) => Some(carry_if_below(byte_excess(false, known))),
        },
    }
}

fn difference_after(operand: Option<OperandTerm>, carry: Option<bool>) -> Option<FlagPart>
    ensures { result ≡ difference_after operand carry }
{
    match operand {
        None | Some(OperandTerm::A) => None,
        Some(known) => match carry {
            None | Some(true) => None,
            Some(false) => Some(carry_if_below(byte_left(false, known))),
        },
    }
}

/// The conditions over the variables after the operation.
pub(crate) fn arithmetic_after(
    kind: ArithmeticKind,
    known: Option<OperandTerm>,
    carry: Option<bool>,
) -> NewParts
    ensures { result ≡ arithmetic_after kind known carry }
{
    match kind {
        ArithmeticKind::Add => of_byte_and(&Variable::A, sum_after(known, Some(false))),
        ArithmeticKind::Adc => of_byte_and(&Variable::A, sum_after(known, carry)),
        ArithmeticKind::Sub => of_byte_and(&Variable::A, difference_after(known, Some(false))),
        ArithmeticKind::Sbc => of_byte_and(&Variable::A, difference_after(known, carry)),
        ArithmeticKind::And | ArithmeticKind::Xor | ArithmeticKind::Or => of_byte(&Variable::A),
        ArithmeticKind::Compare => NewParts::none(),
    }
}
