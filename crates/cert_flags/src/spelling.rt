// How the FLAG field of a row is spelled.
ghost use Rattle.std.specs.Prelude.{◌≡◌, ◌≤◌, ◌+◌, ◌++◌, length};
ghost use Rattle.cert_flags.specs.Flags.{flags_text, flags_with};
ghost use Rattle.cert_flags.specs.Parts.{part_text, parts_text};
ghost use Rattle.texts.specs.Made.{MADE_LEN};

use crate::form::FlagForm;
use crate::letter::letter_byte;
use abs_state::FlagFact;
use cert_fields::{add_flag_fact, add_linear};
use flag_letters::{FlagPart, FlagParts};
use texts::MadeLine;

/// Adds a flag part: its letter and its linear.
#[tactic(auto, unfolding(crate::specs::Parts::part_text))]
fn add_part(line: &mut MadeLine, part: &FlagPart)
    requires { length line.old + 51 ≤ MADE_LEN }
    ensures value { line.new ≡ line.old ++ part_text part.now }
    ensures grown { length line.new ≤ length line.old + 51 }
{
    line.add_byte(letter_byte(part.letter));
    add_linear(line, &part.linear);
}

/// Adds the flag parts of a row, or a dash if there are none.
#[tactic(auto, unfolding(crate::specs::Parts::parts_text))]
pub fn add_parts(line: &mut MadeLine, parts: &FlagParts)
    requires { length line.old + 415 ≤ MADE_LEN }
    ensures value { line.new ≡ line.old ++ parts_text parts.now }
    ensures grown { length line.new ≤ length line.old + 415 }
{
    let Some((first, others)) = parts.parts().split_first() else {
        return line.add_byte(b'-');
    };
    add_part(line, first);
    for part in others {
        line.add_byte(b',');
        add_part(line, part);
    }
}

/// Adds what a row says of the flags in a form: its flag fact, or its flag parts; a dash if there are none.
pub fn add_flags(line: &mut MadeLine, form: FlagForm, fact: Option<FlagFact>, parts: &FlagParts)
    requires { length line.old + 415 ≤ MADE_LEN }
    ensures value { line.new ≡ line.old ++ flags_text form (flags_with fact parts.now) }
    ensures grown { length line.new ≤ length line.old + 415 }
{
    match form {
        FlagForm::Fact => add_flag_fact(line, fact),
        FlagForm::Parts => add_parts(line, parts),
    }
}
