// Laws of the words on a stack: their bytes and their order.

ghost use Rattle.std.specs.Prelude.{ℕ, ◌+◌, ◌≡◌, List, ◌++◌, length, reverse};
ghost use Rattle.board_laws.specs.Words.{on_top};
ghost use Rattle.board_laws.specs.WordsLaws.{WordsAreTheirBytesSize, WordsAreTheirBytesOne, WordsAreTheirBytesKept, WordsAreTheirBytesSame, WordsPlaceSp, WordsAreOrderedPushed, WordsAreOrderedUnder};

/// A law: words on the stack take two bytes each. The same bytes lay no other words, and two states lay the same words
/// exactly if they agree on the bytes.
pub fn words_are_their_bytes()
    ensures size { WordsAreTheirBytesSize }
    ensures one { WordsAreTheirBytesOne }
    ensures kept { WordsAreTheirBytesKept }
    ensures same { WordsAreTheirBytesSame }
{}

/// A law: n words on the stack put SP 2n below the region's top, and in the region.
pub fn words_place_sp()
    ensures { WordsPlaceSp }
{}

/// A law: the last pushed word of an activation lies lowest, below all words under the activation's.
pub fn words_are_ordered()
    ensures order { (words under : List ℕ) → on_top words under ≡ reverse words ++ under }
    ensures pushed { WordsAreOrderedPushed }
    ensures count { (words under : List ℕ)
        → length (on_top words under) ≡ length words + length under }
    ensures under { WordsAreOrderedUnder }
{}
