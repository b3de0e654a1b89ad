// Effects of steps.
ghost use Rattle.std.specs.Prelude.{◌≡◌};

use crate::variable::{Part, SlotNumber, Variable};

/// What a step leaves in one variable.
#[derive(Clone, Copy, PartialEq, Eq)]
pub enum Change {
    /// The value of a variable, this one or another, before the step.
    Old(Variable),
    /// One more than that value; the sum does not wrap.
    Raised(Variable),
    /// One less than that value; the difference does not wrap.
    Lowered(Variable),
    /// A constant.
    Constant(u16),
    Unknown,
}

/// What a step leaves in the slot that it writes.
#[derive(Clone, Copy, PartialEq, Eq)]
pub struct SlotChange {
    pub number: SlotNumber,
    pub word: Change,
    pub high: Change,
    pub low: Change,
}

/// What a step leaves in each variable, in terms of the variables before it. A step writes at most one slot.
#[derive(Clone, Copy, PartialEq, Eq)]
pub struct Effect {
    pub a: Change,
    pub b: Change,
    pub c: Change,
    pub d: Change,
    pub e: Change,
    pub h: Change,
    pub l: Change,
    pub bc: Change,
    pub de: Change,
    pub hl: Change,
    pub ix: Change,
    pub iy: Change,
    pub slot: Option<SlotChange>,
}

impl Effect {
    ghost use Rattle.loop_bounds.specs.declared.effect.Change.TheVariants.{Old};
    ghost use Rattle.loop_bounds.specs.declared.variable.Variable.{Variable};
    ghost use Rattle.loop_bounds.specs.Effect.{unchanged, change_of};

    /// The effect that changes no variable.
    pub fn unchanged() -> Effect
        ensures exact { result ≡ unchanged }
        ensures old { (v : Variable) → change_of result v ≡ Old v }
    {
        Effect {
            a: Change::Old(Variable::A),
            b: Change::Old(Variable::B),
            c: Change::Old(Variable::C),
            d: Change::Old(Variable::D),
            e: Change::Old(Variable::E),
            h: Change::Old(Variable::H),
            l: Change::Old(Variable::L),
            bc: Change::Old(Variable::Bc),
            de: Change::Old(Variable::De),
            hl: Change::Old(Variable::Hl),
            ix: Change::Old(Variable::Ix),
            iy: Change::Old(Variable::Iy),
            slot: None,
        }
    }

    /// What the step leaves in `variable`.
    pub fn change(&self, variable: Variable) -> Change
        ensures { result ≡ change_of self.now variable }
    {
        match variable {
            Variable::A => self.a,
            Variable::B => self.b,
            Variable::C => self.c,
            Variable::D => self.d,
            Variable::E => self.e,
            Variable::H => self.h,
            Variable::L => self.l,
            Variable::Bc => self.bc,
            Variable::De => self.de,
            Variable::Hl => self.hl,
            Variable::Ix => self.ix,
            Variable::Iy => self.iy,
            Variable::Slot(number, part) => match self.slot {
                Some(slot) if slot.number == number => slot.part(part),
                _ => Change::Old(variable),
            },
        }
    }
}

impl SlotChange {
    ghost use Rattle.loop_bounds.specs.Effect.{part_change};

    fn part(self, part: Part) -> Change
        ensures { result ≡ part_change self part }
    {
        match part {
            Part::Word => self.word,
            Part::High => self.high,
            Part::Low => self.low,
        }
    }
}
