// Laws of the instructions, and of the acceptance of an NMI: what each leaves on the stack.

ghost use Rattle.board_laws.specs.InstructionsLaws.{PushesLayWords, PopsTakeWords, ExchangesSwapWords, AcceptancesLayWords, LoadsOfSpBeginAStack, OtherInstructionsKeepWords, InstructionsAreToldApartAside, InstructionsAreToldApartSets};

/// A law: if the region has room for one more word, PUSH, CALL, CALL cc if taken, and RST do not trap, and leave their
/// word on top of the others.
pub fn pushes_lay_words()
    ensures { PushesLayWords }
{}

/// A law: if a word lies on the stack, POP, RET, RET cc if taken, RETI and RETN do not trap, take that word, and leave
/// those under it.
pub fn pops_take_words()
    ensures { PopsTakeWords }
{}

/// A law: if a word lies on the stack, EX (SP) does not trap, takes that word, and leaves the register's word in its
/// place.
pub fn exchanges_swap_words()
    ensures { ExchangesSwapWords }
{}

/// A law: if the region has room for one more word, accepting an NMI does not trap, and leaves the program counter on
/// top of the words.
pub fn acceptances_lay_words()
    ensures { AcceptancesLayWords }
{}

/// A law: LD SP,nn with the region's top begins a stack without words.
pub fn loads_of_sp_begin_a_stack()
    ensures { LoadsOfSpBeginAStack }
{}

/// A law: an instruction that leaves SP and the stack alone makes no stack access. It keeps the words if its data
/// writes miss them.
pub fn other_instructions_keep_words()
    ensures { OtherInstructionsKeepWords }
{}

/// A law: an instruction that does not push or pop, is not EX (SP), and does not load, increment or decrement SP leaves
/// SP and the stack alone. One that loads, increments or decrements SP makes no stack access.
pub fn instructions_are_told_apart()
    ensures aside { InstructionsAreToldApartAside }
    ensures sets { InstructionsAreToldApartSets }
{}
