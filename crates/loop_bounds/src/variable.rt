// The variables of linears: registers, register pairs, slots and their bytes.
ghost use Rattle.std.specs.Prelude.{◌≡◌, ◌<◌, ◌≤◌, SomeIff};

use stack_shape::SLOTS;
use std::marker::Model;

/// The word of a slot, or one of its bytes.
#[derive(Clone, Copy, PartialEq, Eq)]
pub enum Part {
    Word,
    High,
    Low,
}

/// The number of a slot, 0 to 63. Slot 0 was pushed first.
#[derive(Clone, Copy, PartialEq, Eq)]
pub struct SlotNumber {
    number: u8,
}

impl Model for SlotNumber {
    ghost use Rattle.std.specs.Prelude.{ℕ, ◌<◌};

    ghost Value = { ℕ };

    ghost view = { λ s. s.number };

    ghost invariant = { λ s. s.number < 64 };

    ghost inverse = { λ n. record { number = n } };
}

/// A variable of a linear: a register, a register pair, a slot of the stack shape, or a byte of a slot.
#[derive(Clone, Copy, PartialEq, Eq)]
pub enum Variable {
    A,
    B,
    C,
    D,
    E,
    H,
    L,
    Bc,
    De,
    Hl,
    Ix,
    Iy,
    Slot(SlotNumber, Part),
}

impl SlotNumber {
    /// The slot with this number, or None from 64 on.
    pub fn new(number: u8) -> Option<SlotNumber>
        ensures { SomeIff result (number < 64) number }
    {
        if usize::from(number) < SLOTS {
            Some(SlotNumber { number })
        } else {
            None
        }
    }

    /// The number, 0 to 63.
    pub fn number(self) -> u8
        ensures value { result ≡ self }
        ensures within { result < 64 }
    {
        self.number
    }
}

impl Part {
    ghost use Rattle.loop_bounds.specs.Variable.{part_rank};

    fn rank(self) -> u16
        ensures value { result ≡ part_rank self }
        ensures within { result < 3 }
    {
        match self {
            Part::Word => 0,
            Part::High => 1,
            Part::Low => 2,
        }
    }
}

impl Variable {
    ghost use Rattle.loop_bounds.specs.Variable.{rank_of};

    /// The rank in the order A B C D E H L BC DE HL IX IY s0 s0h s0l s1 s1h .. s63l, 0 to 203.
    pub fn rank(self) -> u16
        ensures value { result ≡ rank_of self }
        ensures within { result < 204 }
    {
        match self {
            Variable::A => 0,
            Variable::B => 1,
            Variable::C => 2,
            Variable::D => 3,
            Variable::E => 4,
            Variable::H => 5,
            Variable::L => 6,
            Variable::Bc => 7,
            Variable::De => 8,
            Variable::Hl => 9,
            Variable::Ix => 10,
            Variable::Iy => 11,
            Variable::Slot(slot, part) => 12 + 3 * u16::from(slot.number()) + part.rank(),
        }
    }
}
