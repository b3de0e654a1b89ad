// Laws of lists of moves, of their test, and of the effect.

ghost use Rattle.std.specs.Prelude.{◌≡◌, List, None};
ghost use Rattle.z80_decode.specs.declared.instr.Instr.{Instr};
ghost use Rattle.z80_moves.specs.Moves.{moves_of};
ghost use Rattle.z80_moves.specs.declared.moves.Move.{Move};
ghost use Rattle.abs_draft.specs.Outcomes.{before_test, test_of};
ghost use Rattle.abs_laws.specs.Lists.{IsParted, IsShortList, marked};
ghost use Rattle.abs_laws.specs.OutcomesLaws.{TestsFitLeft, TestsFitMarked, TestsFitTaken, TestsFitKept, ListsFit, ListsGoByTheirTestWithout, ListsGoByTheirTestWithTest, WaysFitMet, WaysFitStraight, WaysFitLeft, WaysFitHeld, WaysFitTaken, SettledEffectsFollow};

/// A law: for the actual outcome of a test something is left, and it describes the draft, also one with another outcome
/// marked. Marking an outcome on a draft keeps what is known true. A test changes neither the effect nor the shape.
pub fn tests_fit()
    ensures left { TestsFitLeft }
    ensures marked { TestsFitMarked }
    ensures taken { TestsFitTaken }
    ensures kept { TestsFitKept }
{}

/// A law: moves without stack accesses and without a test, one after another, keep the abstract draft true.
pub fn lists_fit()
    ensures { ListsFit }
{}

/// A law: a list without a test consists of the moves before the test. One with a test makes those, marks the outcome,
/// and makes the moves after it if the test held.
pub fn lists_go_by_their_test()
    ensures all { (moves : List Move) → test_of moves ≡ None → before_test moves ≡ moves }
    ensures without { ListsGoByTheirTestWithout }
    ensures with_test { ListsGoByTheirTestWithTest }
    ensures parts { (moves : List Move) → IsParted moves }
{}

/// A law: the moves of an instruction have at most one test and make at most two data writes, all before it.
pub fn instructions_are_short()
    ensures { (instr : Instr) → IsShortList (moves_of instr) }
{}

/// A law: both outcomes of a list. What is known at its test, or at its end without a test, describes the draft there.
/// If the test did not hold, that is the end. If it held, the moves after it go on from there.
pub fn ways_fit()
    ensures met { WaysFitMet }
    ensures straight { WaysFitStraight }
    ensures left { WaysFitLeft }
    ensures held { WaysFitHeld }
    ensures taken { WaysFitTaken }
{}

/// A law: the effect with priority for constants gives the value of each variable.
pub fn settled_effects_follow()
    ensures { SettledEffectsFollow }
{}
