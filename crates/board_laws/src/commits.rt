// Laws of a draft that reaches the board.

ghost use Rattle.address_map.specs.AddressMap.{MapView};
ghost use Rattle.z80_draft.specs.Draft.{DraftView};
ghost use Rattle.board_step.specs.State.{BoardView};
ghost use Rattle.board_step.specs.Step.{committed};
ghost use Rattle.board_laws.specs.Board.{ReachesBoard};
ghost use Rattle.board_laws.specs.Region.{used};
ghost use Rattle.board_laws.specs.CommitsLaws.{MissedBytesStayStored, MissedBytesStayCommitted, MissedBytesStayUsed, MissedBytesStayUnused, DraftsMeetNoTrap, DraftsReachTheBoardEnable, DraftsReachTheBoardWords, TimeKeepsWords, CommitsStayInRangeInstruction, CommitsStayInRangeAcceptance};

/// A law: data writes that miss the cells of a region keep its bytes, and so does an event without stack accesses. The
/// region may be any addresses. Only the part from SP up has to be missed, and nothing where no words lie.
pub fn missed_bytes_stay()
    ensures stored { MissedBytesStayStored }
    ensures committed { MissedBytesStayCommitted }
    ensures used { MissedBytesStayUsed }
    ensures unused { MissedBytesStayUnused }
{}

/// A law: a draft does not trap if its data writes go neither to the ROM nor to unmapped addresses and its stack
/// accesses are in the region.
pub fn drafts_meet_no_trap()
    ensures { DraftsMeetNoTrap }
{}

/// A law: on the board that a draft has reached, the registers, the halt and the words on the stack are the draft's.
/// The phase, the flip-flop and the size of work RAM are as before, and so is the NMI enable if no data write goes to
/// it.
pub fn drafts_reach_the_board()
    ensures rest { (map : MapView) (draft : DraftView) (s : BoardView) → ReachesBoard map draft s }
    ensures enable { DraftsReachTheBoardEnable }
    ensures words { DraftsReachTheBoardWords }
{}

/// A law: the T-states of an event, which pass last, keep the words.
pub fn time_keeps_words()
    ensures { TimeKeepsWords }
{}

/// A law: if the ROM consists of bytes, an instruction and an acceptance leave each number of the state in its range,
/// before their T-states pass.
pub fn commits_stay_in_range()
    ensures instruction { CommitsStayInRangeInstruction }
    ensures acceptance { CommitsStayInRangeAcceptance }
{}
