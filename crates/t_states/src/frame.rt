// The T-states of a frame, of an acceptance, of an idle turn, and the greatest budget.

ghost use Rattle.std.specs.Prelude.{◌≡◌, ◌-◌, ◌*◌};
ghost use Rattle.t_states.specs.Frame.{nmi_cost, idle_cost, frame};
ghost use Rattle.t_states.specs.Budget.{max_budget};

/// T-states of the acceptance of an NMI (UM0080, "Interrupt Response").
pub const NMI_COST: u8 = 11;

/// T-states of one idle turn of the halted machine, which executes NOPs (UM0080, "HALT").
pub const IDLE_COST: u8 = 4;

/// T-states of a frame: 264 lines of 192 T-states.
pub const FRAME: u32 = 50_688;

/// The greatest budget of the NMI routine in T-states, its acceptance included: 50,688 - 1 - 22. The event in which a
/// frame ends latches the NMI. It takes at most 23 T-states, so the acceptance begins at a phase of 22 at most. When
/// 50,665 T-states have passed from there, the next frame has not ended.
pub const MAX_BUDGET: u32 = 50_665;

/// A law: the constants are the numbers of the definitions. A call does nothing.
pub fn fixed_numbers()
    ensures acceptance { NMI_COST ≡ nmi_cost }
    ensures idle { IDLE_COST ≡ idle_cost }
    ensures frame { FRAME ≡ frame }
    ensures budget { MAX_BUDGET ≡ max_budget }
    ensures lines { frame ≡ 264 * 192 }
    ensures remainder { max_budget ≡ frame - 1 - 22 }
{}
