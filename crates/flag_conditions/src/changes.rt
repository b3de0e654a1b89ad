// The flags that an instruction may change.
ghost use Rattle.std.specs.Prelude.{◌≡◌};
ghost use Rattle.flag_conditions.specs.FlagChanges.{leaves, changes_of, changes_of_pop};

use flag_letters::Letter;
use z80_decode::{Instr, StackPair};

/// Which of Z, C and S an instruction may change.
#[derive(Clone, Copy)]
pub enum FlagChanges {
    Nothing,
    CarryAlone,
    AllButCarry,
    All,
}

impl FlagChanges {
    /// The flags that an instruction may change (UM0080, "Condition Bits Affected"). A flag that the manual leaves
    /// undefined is changed.
    #[tactic(auto, unfolding(crate::specs::FlagChanges::changes_of))]
    pub(crate) fn of(instr: &Instr) -> FlagChanges
        ensures { result ≡ changes_of instr.now }
    {
        match instr {
            Instr::LoadASpecial(_)
            | Instr::BlockCompare(_)
            | Instr::Increment(_)
            | Instr::Decrement(_)
            | Instr::RotateDigitsLeft
            | Instr::RotateDigitsRight
            | Instr::TestBit(..) => FlagChanges::AllButCarry,
            Instr::Pop(pair) => FlagChanges::of_pop(*pair),
            Instr::ExchangeAf
            | Instr::Arithmetic(..)
            | Instr::DecimalAdjust
            | Instr::Negate
            | Instr::AdcHl(_)
            | Instr::SbcHl(_)
            | Instr::Shift(..) => FlagChanges::All,
            Instr::ComplementCarry
            | Instr::SetCarry
            | Instr::AddHl(_)
            | Instr::AddIndex(..)
            | Instr::RotateA(_) => FlagChanges::CarryAlone,
            _ => FlagChanges::Nothing,
        }
    }

    fn of_pop(pair: StackPair) -> FlagChanges
        ensures { result ≡ changes_of_pop pair }
    {
        match pair {
            StackPair::Af => FlagChanges::All,
            _ => FlagChanges::Nothing,
        }
    }

    /// Whether the flag of a letter is left alone.
    pub(crate) fn leaves(self, letter: Letter) -> bool
        ensures { result ≡ leaves self letter }
    {
        match self {
            FlagChanges::Nothing => true,
            FlagChanges::CarryAlone => !matches!(letter, Letter::CarryIfBelow),
            FlagChanges::AllButCarry => matches!(letter, Letter::CarryIfBelow),
            FlagChanges::All => false,
        }
    }
}
