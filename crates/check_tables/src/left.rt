// What an exit leaves.

ghost use Rattle.std.specs.Prelude.{◌≡◌};
ghost use Rattle.check_tables.specs.Lefts.{left_of, mode_number, numbered_mode, state_of};

use abs_state::{AbsState, Mode, Pairs};
use intervals::Pair;
use stack_shape::Shape;

/// What counts of an exit's state after the call: the mode (as a number), the count of armed cells, and the ten pairs.
#[derive(Clone, Copy, PartialEq, Eq, Hash)]
pub struct Left {
    mode: u8,
    armed: u16,
    af: Pair,
    bc: Pair,
    de: Pair,
    hl: Pair,
    ix: Pair,
    iy: Pair,
    alternate_af: Pair,
    alternate_bc: Pair,
    alternate_de: Pair,
    alternate_hl: Pair,
}

impl Left {
    /// What an exit in this state leaves.
    pub(crate) fn of(state: &AbsState) -> Left
        ensures { result ≡ left_of state.now }
    {
        let pairs = &state.pairs;
        Left {
            mode: mode_number(state.mode),
            armed: state.armed,
            af: pairs.af,
            bc: pairs.bc,
            de: pairs.de,
            hl: pairs.hl,
            ix: pairs.ix,
            iy: pairs.iy,
            alternate_af: pairs.alternate_af,
            alternate_bc: pairs.alternate_bc,
            alternate_de: pairs.alternate_de,
            alternate_hl: pairs.alternate_hl,
        }
    }

    /// An exit's state that leaves this, without a flag fact and with an empty shape.
    pub fn state(&self) -> AbsState
        ensures { result ≡ state_of self.now }
    {
        AbsState {
            mode: numbered_mode(self.mode),
            armed: self.armed,
            pairs: self.pairs(),
            flag: None,
            shape: Shape::empty(),
        }
    }

    fn pairs(&self) -> Pairs
        ensures { result ≡ (state_of self.now).pairs }
    {
        Pairs {
            af: self.af,
            bc: self.bc,
            de: self.de,
            hl: self.hl,
            ix: self.ix,
            iy: self.iy,
            alternate_af: self.alternate_af,
            alternate_bc: self.alternate_bc,
            alternate_de: self.alternate_de,
            alternate_hl: self.alternate_hl,
        }
    }
}

fn mode_number(mode: Mode) -> u8
    ensures { result ≡ mode_number mode }
{
    match mode {
        Mode::Unset => 0,
        Mode::Set => 1,
        Mode::Nmi => 2,
    }
}

/// The mode with this number.
fn numbered_mode(number: u8) -> Mode
    ensures { result ≡ numbered_mode number }
{
    match number {
        0 => Mode::Unset,
        1 => Mode::Set,
        _ => Mode::Nmi,
    }
}
