// Conditions of AND, XOR and OR over the variables before.
ghost use Rattle.std.specs.Prelude.{◌≡◌, ◌∷◌};
ghost use Rattle.flag_conditions.specs.NewConditions.{no_carry, of_byte, and_before, xor_before, or_before};

use crate::byte_operand::OperandTerm;
use crate::linears::{a_first, a_last, above_128, byte_excess, left_of_127, only};
use crate::new_parts::NewParts;
use crate::parts::{no_carry, sign_if_below, zero, zero_if_below};
use loop_bounds::Variable;
use z80_decode::{Operand, Place, Register8};

/// C is clear, and Z and S are those of A.
fn of_a() -> NewParts
    ensures { result ≡ no_carry ∷ of_byte Variable.A }
{
    NewParts::three(
        no_carry(),
        zero(only(Variable::A)),
        sign_if_below(left_of_127(Variable::A)),
    )
}

/// AND A; AND 80h
pub(crate) fn and_conditions(operand: Operand) -> NewParts
    ensures { result ≡ no_carry ∷ and_before operand }
{
    match operand {
        Operand::Immediate(number) => {
            if number == 0x80 {
                NewParts::two(no_carry(), zero_if_below(above_128(Variable::A)))
            } else {
                NewParts::one(no_carry())
            }
        }
        Operand::Place(Place::Memory(_)) => NewParts::one(no_carry()),
        Operand::Place(Place::Register(register)) => and_register(register),
    }
}

fn and_register(register: Register8) -> NewParts
    ensures { result ≡ no_carry ∷ and_before (Operand.Place (Place.Register register)) }
{
    match register {
        Register8::A => of_a(),
        _ => NewParts::one(no_carry()),
    }
}

pub(crate) fn xor_conditions(operand: Option<OperandTerm>) -> NewParts
    ensures { result ≡ no_carry ∷ xor_before operand }
{
    match operand {
        Some(known) => NewParts::two(no_carry(), zero(byte_excess(false, known))),
        None => NewParts::one(no_carry()),
    }
}

/// OR A; OR r
pub(crate) fn or_conditions(operand: Option<OperandTerm>) -> NewParts
    ensures { result ≡ no_carry ∷ or_before operand }
{
    match operand {
        Some(OperandTerm::A) => of_a(),
        Some(OperandTerm::Other(register)) => NewParts::three(
            no_carry(),
            zero(a_first(register)),
            zero(a_last(register)),
        ),
        Some(OperandTerm::Number(_)) | None => NewParts::one(no_carry()),
    }
}
