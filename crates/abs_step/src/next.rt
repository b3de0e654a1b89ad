// Successors.
ghost use Rattle.std.specs.Prelude.{◌≡◌};

use abs_state::AbsState;
use loop_bounds::Effect;
use smallvec::SmallVec;

/// The kind of a successor.
#[derive(Clone, Copy, PartialEq, Eq)]
pub enum NextKind {
    /// To an address of the same procedure.
    Jump,
    /// To a callee, with the caller's state at the call.
    Call,
    /// Out of the procedure.
    Exit,
}

/// A successor: an address and what is known there.
#[derive(Drop)]
pub struct Next {
    /// The address; of a Call the callee's entry, of an Exit 0.
    pub address: u16,
    pub state: AbsState,
    /// How each variable here comes from the variables of the row. Where its range here has one value, it is that
    /// constant.
    pub effect: Effect,
    /// The same without the priority of constants: what comes from a variable of the row is known as that.
    pub moved: Effect,
    /// T-states of the instruction, 4 to 23.
    pub cost: u8,
    pub kind: NextKind,
    /// Whether the instruction's test held: it jumps, calls or returns on its condition, or repeats. False where it has
    /// no test.
    pub taken: bool,
}

/// At most two successors.
pub type Nexts = SmallVec<Next, 2>;

impl Default for Next {
    ghost use Rattle.abs_step.specs.Successors.{no_next};

    ghost is_default = { λ n. n ≡ no_next };

    /// A placeholder.
    fn default() -> Next {
        Next {
            address: 0,
            state: AbsState::of_main(),
            effect: Effect::unchanged(),
            moved: Effect::unchanged(),
            cost: 0,
            kind: NextKind::Exit,
            taken: false,
        }
    }
}
