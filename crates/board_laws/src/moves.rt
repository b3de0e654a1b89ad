// Laws of the moves: what each move with stack accesses leaves on the stack, after any other moves.

ghost use Rattle.board_laws.specs.MovesLaws.{PushMovesLayWords, PopMovesTakeWordsLeaves, PopMovesTakeWordsReads, PopMovesTakeWordsGives, ExchangeMovesSwapWordsLeaves, ExchangeMovesSwapWordsGives, StacklessMovesKeepSpAccesses, StacklessMovesKeepSpSp, StacklessMovesKeepSpStackless, DraftsKeepWordsAside, DraftsKeepWordsAlike};

/// A law: if the region has room for one more word, a push leaves the register's word on top of the others.
pub fn push_moves_lay_words()
    ensures { PushMovesLayWords }
{}

/// A law: a pop takes the top word into the register, whatever the environment. The register is not SP.
pub fn pop_moves_take_words()
    ensures leaves { PopMovesTakeWordsLeaves }
    ensures reads { PopMovesTakeWordsReads }
    ensures gives { PopMovesTakeWordsGives }
{}

/// A law: EX (SP) takes the top word in the same way and leaves the register's word in its place.
pub fn exchange_moves_swap_words()
    ensures leaves { ExchangeMovesSwapWordsLeaves }
    ensures gives { ExchangeMovesSwapWordsGives }
{}

/// A law: moves without stack accesses make none, and a move that does not write SP keeps it.
pub fn stackless_moves_keep_sp()
    ensures accesses { StacklessMovesKeepSpAccesses }
    ensures sp { StacklessMovesKeepSpSp }
    ensures stackless { StacklessMovesKeepSpStackless }
{}

/// A law: a draft without stack accesses that keeps SP leaves the words, if its data writes miss them. Drafts with the
/// same accesses, writes and SP leave the same words.
pub fn drafts_keep_words()
    ensures aside { DraftsKeepWordsAside }
    ensures alike { DraftsKeepWordsAlike }
{}
