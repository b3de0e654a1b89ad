// How pairs are spelled.
ghost use Rattle.std.specs.Prelude.{◌≡◌, ◌≤◌, ◌+◌, ◌++◌, length};
ghost use Rattle.cert_fields.specs.Pair.{known_text, origin_text, pair_text, range_text, ranges_text};
ghost use Rattle.texts.specs.Made.{MADE_LEN};
ghost use Rattle.texts.specs.Numbers.{hex2, hex4};

use crate::pair::is_all;
use intervals::{ByteRange, Pair, RegPair, WordRange};
use texts::MadeLine;

/// Adds a range of words.
fn add_word_range(line: &mut MadeLine, range: &WordRange)
    requires { length line.old + 9 ≤ MADE_LEN }
    ensures value { line.new ≡ line.old ++ range_text hex4 range.now }
    ensures grown { length line.new ≡ length line.old + 9 }
{
    line.add_hex4(range.low());
    line.add_byte(b'-');
    line.add_hex4(range.high());
}

/// Adds a range of bytes.
fn add_byte_range(line: &mut MadeLine, range: &ByteRange)
    requires { length line.old + 5 ≤ MADE_LEN }
    ensures value { line.new ≡ line.old ++ range_text hex2 range.now }
    ensures grown { length line.new ≡ length line.old + 5 }
{
    line.add_hex2(range.low());
    line.add_byte(b'-');
    line.add_hex2(range.high());
}

/// Adds the ranges of the word, of the high byte and of the low byte.
#[tactic(auto, unfolding(crate::specs::Pair::ranges_text))]
fn add_ranges(line: &mut MadeLine, pair: &Pair)
    requires { length line.old + 21 ≤ MADE_LEN }
    ensures value { line.new ≡ line.old ++ ranges_text pair.now }
    ensures grown { length line.new ≡ length line.old + 21 }
{
    add_word_range(line, &pair.word);
    line.add_byte(b':');
    add_byte_range(line, &pair.high);
    line.add_byte(b':');
    add_byte_range(line, &pair.low);
}

/// Adds the ranges of a pair; a star if all three are full.
#[tactic(auto, unfolding(crate::specs::Pair::known_text))]
fn add_known(line: &mut MadeLine, pair: &Pair)
    requires { length line.old + 21 ≤ MADE_LEN }
    ensures value { line.new ≡ line.old ++ known_text pair.now }
    ensures grown { length line.new ≤ length line.old + 21 }
{
    if is_all(pair) {
        line.add_byte(b'*');
    } else {
        add_ranges(line, pair);
    }
}

/// Adds an origin, if there is one.
fn add_origin(line: &mut MadeLine, origin: Option<RegPair>)
    requires { length line.old + 4 ≤ MADE_LEN }
    ensures value { line.new ≡ line.old ++ origin_text origin }
    ensures grown { length line.new ≤ length line.old + 4 }
{
    if let Some(origin) = origin {
        line.add_byte(b'@');
        line.add(origin.name());
    }
}

/// Adds a pair: its ranges, and its origin if it has one.
#[tactic(auto, unfolding(crate::specs::Pair::pair_text))]
pub fn add_pair(line: &mut MadeLine, pair: Pair)
    requires { length line.old + 25 ≤ MADE_LEN }
    ensures value { line.new ≡ line.old ++ pair_text pair }
    ensures grown { length line.new ≤ length line.old + 25 }
{
    add_known(line, &pair);
    add_origin(line, pair.origin);
}
