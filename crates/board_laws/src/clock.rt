// Laws of the clock (docs/BOARD.md, "Phase and flip-flop"): the phase along a run, and when an NMI can be latched. They
// do not depend on what instructions do. Each law is the contract of a function with an empty body.

ghost use Rattle.board_laws.specs.ClockLaws.{TimeChangesTheClockAlone, EventsMoveTheClockClock, EventsMoveTheClockClear, PhasesFollowTheTime, AcceptancesBeginEarlyLatched, AcceptancesBeginEarlyEarly, AcceptancesBeginEarlyUnlatched};

/// A law: the T-states of an event change only the phase and the flip-flop.
pub fn time_changes_the_clock_alone()
    ensures { TimeChangesTheClockAlone }
{}

/// A law: each event advances the phase by its T-states. It leaves an NMI latched only if a blank began in it. If the
/// NMI enable is clear before and after it and none was latched, none is latched after it, and the line is clear.
pub fn events_move_the_clock()
    ensures clock { EventsMoveTheClockClock }
    ensures clear { EventsMoveTheClockClear }
{}

/// A law: along a run that begins with a phase below 50,688, the phase advances by the T-states that pass.
pub fn phases_follow_the_time()
    ensures { PhasesFollowTheTime }
{}

/// A law: an event accepts exactly where an NMI is latched before it. An acceptance begins at a phase of 22 at most. As
/// long as no more than 50,665 T-states have passed since an acceptance, no NMI is latched.
pub fn acceptances_begin_early()
    ensures latched { AcceptancesBeginEarlyLatched }
    ensures early { AcceptancesBeginEarlyEarly }
    ensures unlatched { AcceptancesBeginEarlyUnlatched }
{}
