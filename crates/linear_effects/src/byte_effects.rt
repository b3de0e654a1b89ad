// A after 8-bit arithmetic and logic as a linear.
ghost use Rattle.std.specs.Prelude.{◌≡◌, ◌≤◌, if◌then◌else◌};
ghost use Rattle.linear_effects.specs.ByteEffects.{operand_range, byte_sum, difference_start, byte_difference, sum_effect, difference_with, difference_effect, and_effect, above_effect, or_effect, xor_effect, arithmetic_effect, negate_effect, complemented};

use crate::bits::{has_all, is_above};
use crate::windows::window_number;
use abs_state::Pairs;
use flag_conditions::{OperandTerm, no_terms, one_term, two_terms};
use intervals::ByteRange;
use loop_bounds::{Linear, Variable};
use z80_decode::{ArithmeticKind, Operand, Place};

/// The range of an operand, given that of the byte in work.
pub(crate) fn operand_range(operand: Operand, pairs: &Pairs, byte: ByteRange) -> ByteRange
    ensures { result ≡ operand_range operand pairs.now byte }
{
    match operand {
        Operand::Immediate(number) => ByteRange::single(number),
        Operand::Place(Place::Register(register)) => pairs.byte(register),
        Operand::Place(Place::Memory(_)) => byte,
    }
}

/// A + x + k - 256*q
fn byte_sum(carry: bool, operand: OperandTerm, window: u32) -> Linear
    requires { window ≤ 1024 }
    ensures { result ≡ byte_sum carry operand window }
{
    let start = 256 * window as i32;
    let carry = i32::from(carry);
    match operand {
        OperandTerm::A => one_term(carry - start, 2, Variable::A),
        OperandTerm::Other(r) => two_terms(carry - start, 1, Variable::A, 1, r.variable()),
        OperandTerm::Number(number) => {
            one_term(carry + i32::from(number) - start, 1, Variable::A)
        }
    }
}

/// 256 - k - 256*q
fn difference_start(carry: bool, window: u32) -> i32
    requires { window ≤ 1024 }
    ensures { result ≡ difference_start carry window }
{
    256 - i32::from(carry) - 256 * window as i32
}

/// 256 + A - x - k - 256*q
fn byte_difference(carry: bool, operand: OperandTerm, window: u32) -> Linear
    requires { window ≤ 1024 }
    ensures { result ≡ byte_difference carry operand window }
{
    let start = difference_start(carry, window);
    match operand {
        OperandTerm::A => no_terms(start),
        OperandTerm::Other(r) => two_terms(start, 1, Variable::A, -1, r.variable()),
        OperandTerm::Number(number) => one_term(start - i32::from(number), 1, Variable::A),
    }
}

fn sum_effect(
    operand: Option<OperandTerm>,
    carry: Option<bool>,
    a: ByteRange,
    b: ByteRange,
) -> Option<Linear>
    ensures { result ≡ sum_effect operand carry a b }
{
    match operand {
        None => None,
        Some(known) => match carry {
            None => None,
            Some(carry) => {
                let low = u32::from(a.low()) + u32::from(b.low()) + u32::from(carry);
                let high = u32::from(a.high()) + u32::from(b.high()) + u32::from(carry);
                match window_number(256, low, high) {
                    None => None,
                    Some(window) => Some(byte_sum(carry, known, window)),
                }
            }
        },
    }
}

/// A difference with another operand than A.
fn difference_with(known: OperandTerm, carry: bool, a: ByteRange, b: ByteRange) -> Option<Linear>
    ensures { result ≡ difference_with known carry a b }
{
    let low = 256 + u32::from(a.low()) - u32::from(b.high()) - u32::from(carry);
    let high = 256 + u32::from(a.high()) - u32::from(b.low()) - u32::from(carry);
    match window_number(256, low, high) {
        None => None,
        Some(window) => Some(byte_difference(carry, known, window)),
    }
}

/// A - A - k
fn own_difference(carry: bool) -> Linear
    ensures { result ≡ byte_difference carry OperandTerm.A (if carry then 0 else 1) }
{
    if carry {
        byte_difference(true, OperandTerm::A, 0)
    } else {
        byte_difference(false, OperandTerm::A, 1)
    }
}

fn difference_effect(
    operand: Option<OperandTerm>,
    carry: Option<bool>,
    a: ByteRange,
    b: ByteRange,
) -> Option<Linear>
    ensures { result ≡ difference_effect operand carry a b }
{
    match operand {
        None => None,
        Some(known) => match carry {
            None => None,
            Some(carry) => match known {
                OperandTerm::A => Some(own_difference(carry)),
                _ => difference_with(known, carry, a, b),
            },
        },
    }
}

fn and_effect(operand: Option<OperandTerm>, a: ByteRange, b: ByteRange) -> Option<Linear>
    ensures { result ≡ and_effect operand a b }
{
    match operand {
        Some(OperandTerm::A) => Some(one_term(0, 1, Variable::A)),
        _ => {
            if has_all(a, b) {
                Some(one_term(0, 1, Variable::A))
            } else {
                None
            }
        }
    }
}

/// OR and XOR with a number whose bits are above those of A.
fn above_effect(a: ByteRange, b: ByteRange) -> Option<Linear>
    ensures { result ≡ above_effect a b }
{
    if is_above(a, b) {
        Some(one_term(i32::from(b.low()), 1, Variable::A))
    } else {
        None
    }
}

fn or_effect(operand: Option<OperandTerm>, a: ByteRange, b: ByteRange) -> Option<Linear>
    ensures { result ≡ or_effect operand a b }
{
    match operand {
        Some(OperandTerm::A) => Some(one_term(0, 1, Variable::A)),
        _ => above_effect(a, b),
    }
}

fn xor_effect(operand: Option<OperandTerm>, a: ByteRange, b: ByteRange) -> Option<Linear>
    ensures { result ≡ xor_effect operand a b }
{
    match operand {
        Some(OperandTerm::A) => None,
        _ => above_effect(a, b),
    }
}

/// A after an operation, given the operand, the carry, and the ranges of A and the operand.
pub(crate) fn arithmetic_effect(
    kind: ArithmeticKind,
    operand: Option<OperandTerm>,
    carry: Option<bool>,
    a: ByteRange,
    b: ByteRange,
) -> Option<Linear>
    ensures { result ≡ arithmetic_effect kind operand carry a b }
{
    match kind {
        ArithmeticKind::Add => sum_effect(operand, Some(false), a, b),
        ArithmeticKind::Adc => sum_effect(operand, carry, a, b),
        ArithmeticKind::Sub => difference_effect(operand, Some(false), a, b),
        ArithmeticKind::Sbc => difference_effect(operand, carry, a, b),
        ArithmeticKind::And => and_effect(operand, a, b),
        ArithmeticKind::Xor => xor_effect(operand, a, b),
        ArithmeticKind::Or => or_effect(operand, a, b),
        ArithmeticKind::Compare => None,
    }
}

/// NEG
pub(crate) fn negate_effect(a: ByteRange) -> Option<Linear>
    ensures { result ≡ negate_effect a }
{
    match window_number(256, 256 - u32::from(a.high()), 256 - u32::from(a.low())) {
        None => None,
        Some(window) => Some(one_term(256 - 256 * window as i32, -1, Variable::A)),
    }
}

/// CPL
pub(crate) fn complemented() -> Linear
    ensures { result ≡ complemented }
{
    one_term(255, -1, Variable::A)
}
