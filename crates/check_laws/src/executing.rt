// The law that a chain of activations executes its instruction.

ghost use Rattle.check_laws.specs.ExecutingLaws.{ChainsTakeInstructions};

/// A law: on a board, a chain of activations of an accepted certificate, whose lowest is main's or has a time, executes
/// its instruction without a trap. It continues at a row that holds, or its lowest activation leaves by an exit. What
/// the chain may still take pays the instruction's T-states. Each waiting activation is at the row of its call.
pub fn chains_take_instructions()
    ensures { ChainsTakeInstructions }
{}
