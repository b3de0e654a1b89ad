// Variables as a text names them.
ghost use Rattle.std.specs.Prelude.{◌≡◌, ℕ, ◌<◌, ◌^◌, ◌++◌, ◌↔◌, IsTrue, MatchOption, option_map};
ghost use Rattle.std.specs.Fmt.{decimal};
ghost use Rattle.loop_bounds.specs.Variable.{part_rank, rank_of};
ghost use Rattle.cert_fields.specs.Linear.{IsBelow};
ghost use Rattle.cert_fields.specs.VariableNames.{part_letter, variable_name};
ghost use Rattle.cert_fields.specs.Terms.{IsNoSlot, variable_of};
ghost use Rattle.texts.specs.Numbers.{Reads};

use crate::slot_number::slot_number_field;
use loop_bounds::{Part, SlotNumber, Variable};

/// A variable that a text names.
#[derive(Clone, Copy)]
pub(crate) enum NamedVariable {
    /// A register or a pair.
    Register(Variable),
    /// A slot, which may be beyond any shape, or a byte of it.
    Slot(usize, Part),
}

/// A register or a pair.
fn register_variable_field(field: &[u8]) -> Option<Variable>
    ensures { Reads variable_name IsNoSlot field.now result }
{
    match field {
        [b'A'] => Some(Variable::A),
        [b'B'] => Some(Variable::B),
        [b'C'] => Some(Variable::C),
        [b'D'] => Some(Variable::D),
        [b'E'] => Some(Variable::E),
        [b'H'] => Some(Variable::H),
        [b'L'] => Some(Variable::L),
        [b'B', b'C'] => Some(Variable::Bc),
        [b'D', b'E'] => Some(Variable::De),
        [b'H', b'L'] => Some(Variable::Hl),
        [b'I', b'X'] => Some(Variable::Ix),
        [b'I', b'Y'] => Some(Variable::Iy),
        _ => None,
    }
}

/// The text of a slot's number, and the part of the slot.
fn split_part(text: &[u8]) -> (&[u8], Part)
    ensures parts { text.now ≡ result.0.now ++ part_letter result.1 }
    ensures only { (n : ℕ) (part : Part) → n < 2 ^ 64 → text.now ≡ decimal n ++ part_letter part
        → (result.0.now ≡ decimal n) × (result.1 ≡ part) }
{
    let Some((last, digits)) = text.split_last() else {
        return (text, Part::Word);
    };
    if *last == b'h' {
        return (digits, Part::High);
    }
    if *last == b'l' {
        return (digits, Part::Low);
    }
    (text, Part::Word)
}

/// The variable with this name; its slot may be beyond any shape.
pub(crate) fn named_variable_field(field: &[u8]) -> Option<NamedVariable>
    ensures { Reads variable_name (IsBelow (2 ^ 64)) field.now (option_map variable_of result) }
{
    match field.split_first()? {
        (b's', behind) => {
            let (digits, part) = split_part(behind);
            let number = slot_number_field(digits)?;
            Some(NamedVariable::Slot(number, part))
        }
        _ => Some(NamedVariable::Register(register_variable_field(field)?)),
    }
}

/// The variable with this name: a register, a pair, a slot with a number up to 63, or a byte of one.
pub fn variable_field(field: &[u8]) -> Option<Variable>
    ensures { Reads variable_name (IsBelow 64) field.now result }
{
    named_variable_field(field)?.in_shape()
}

impl NamedVariable {
    /// The rank in the order of the variables.
    pub(crate) fn rank(&self) -> u128
        ensures { result ≡ rank_of (variable_of self.now) }
    {
        match self {
            NamedVariable::Register(variable) => u128::from(variable.rank()),
            NamedVariable::Slot(number, part) => 12 + 3 * *number as u128 + part_place(*part),
        }
    }

    /// Whether it is no slot, or one with a number below `slots`.
    pub(crate) fn is_below(&self, slots: usize) -> bool
        ensures { IsTrue result ↔ IsBelow slots (variable_of self.now) }
    {
        self.rank() < 12 + 3 * slots as u128
    }

    /// The variable; None for a slot with a number of 64 or more.
    pub(crate) fn in_shape(self) -> Option<Variable>
        ensures { MatchOption result (¬ IsBelow 64 (variable_of self))
            (λ variable. (variable ≡ variable_of self) × IsBelow 64 variable) }
    {
        match self {
            NamedVariable::Register(variable) => Some(variable),
            NamedVariable::Slot(number, part) => {
                let number = u8::try_from(number).ok()?;
                let slot = SlotNumber::new(number)?;
                Some(Variable::Slot(slot, part))
            }
        }
    }
}

/// The place of a part in the order of the three.
fn part_place(part: Part) -> u128
    ensures value { result ≡ part_rank part }
    ensures within { result < 3 }
{
    match part {
        Part::Word => 0,
        Part::High => 1,
        Part::Low => 2,
    }
}
