// Laws of single steps (docs/BOARD.md, "Runs"): numbers stay in range, an event takes 4 to 23 T-states, and from a
// state in an environment there is one step and one trap. Each law is the contract of a function with an empty body.

ghost use Rattle.board_laws.specs.MachineLaws.{StatesStayInRangeStep, StatesStayInRangeReached, EventsTakeTime, StepsAreSingleEvent, StepsAreSingleState, StepsAreSingleTrap};

/// A law: if the ROM consists of bytes, a step from a state in range leads to a state in range, and every state that a
/// run from a reset reaches is in range.
pub fn states_stay_in_range()
    ensures step { StatesStayInRangeStep }
    ensures reached { StatesStayInRangeReached }
{}

/// A law: an event takes 4 to 23 T-states.
pub fn events_take_time()
    ensures { EventsTakeTime }
{}

/// A law: from one state in one environment there is at most one event, one next state, and one trap.
pub fn steps_are_single()
    ensures event { StepsAreSingleEvent }
    ensures state { StepsAreSingleState }
    ensures trap { StepsAreSingleTrap }
{}
