// How letters, flag facts, facts and shapes are spelled.
ghost use Rattle.std.specs.Prelude.{◌≡◌, ◌<◌, ◌≤◌, ◌+◌, ◌++◌, ◌∷◌, [], length};
ghost use Rattle.cert_fields.specs.Facts.{facts_text};
ghost use Rattle.cert_fields.specs.Flag.{flag_text};
ghost use Rattle.cert_fields.specs.Names.{mode_letter, register_letter};
ghost use Rattle.cert_fields.specs.Shape.{shape_text};
ghost use Rattle.texts.specs.Made.{MADE_LEN};

use crate::facts::Facts;
use crate::linear_spelling::add_linear;
use crate::pair_spelling::add_pair;
use abs_state::{FlagFact, Mode};
use stack_shape::Shape;
use texts::MadeLine;
use z80_decode::Register8;

fn register_byte(register: Register8) -> u8
    ensures { result ∷ [] ≡ register_letter register }
{
    match register {
        Register8::A => b'A',
        Register8::B => b'B',
        Register8::C => b'C',
        Register8::D => b'D',
        Register8::E => b'E',
        Register8::H => b'H',
        Register8::L => b'L',
    }
}

/// Adds the letter of a register.
pub fn add_register(line: &mut MadeLine, register: Register8)
    requires { length line.old < MADE_LEN }
    ensures value { line.new ≡ line.old ++ register_letter register }
    ensures grown { length line.new ≡ length line.old + 1 }
{
    line.add_byte(register_byte(register));
}

fn mode_byte(mode: Mode) -> u8
    ensures { result ∷ [] ≡ mode_letter mode }
{
    match mode {
        Mode::Unset => b'u',
        Mode::Set => b's',
        Mode::Nmi => b'n',
    }
}

/// Adds the letter of a mode.
pub fn add_mode(line: &mut MadeLine, mode: Mode)
    requires { length line.old < MADE_LEN }
    ensures value { line.new ≡ line.old ++ mode_letter mode }
    ensures grown { length line.new ≡ length line.old + 1 }
{
    line.add_byte(mode_byte(mode));
}

/// Adds a flag fact, or a dash if there is none.
pub fn add_flag_fact(line: &mut MadeLine, fact: Option<FlagFact>)
    requires { length line.old + 3 ≤ MADE_LEN }
    ensures value { line.new ≡ line.old ++ flag_text fact }
    ensures grown { length line.new ≤ length line.old + 3 }
{
    match fact {
        None => line.add_byte(b'-'),
        Some(FlagFact::Zero(register)) => {
            line.add_byte(b'z');
            add_register(line, register);
        }
        Some(FlagFact::Compared(byte)) => {
            line.add_byte(b'c');
            line.add_hex2(byte);
        }
    }
}

/// Adds the facts of a row, or a dash if there are none.
#[tactic(auto, unfolding(crate::specs::Facts::facts_text))]
pub fn add_facts(line: &mut MadeLine, facts: &Facts)
    requires { length line.old + 203 ≤ MADE_LEN }
    ensures value { line.new ≡ line.old ++ facts_text facts.now }
    ensures grown { length line.new ≤ length line.old + 203 }
{
    let Some((first, others)) = facts.as_slice().split_first() else {
        return line.add_byte(b'-');
    };
    add_linear(line, first);
    for fact in others {
        line.add_byte(b',');
        add_linear(line, fact);
    }
}

/// Adds the slots of a shape, first pushed first, or a dash if there are none.
#[tactic(auto, unfolding(crate::specs::Shape::shape_text))]
pub fn add_shape(line: &mut MadeLine, shape: &Shape)
    requires { length line.old + 1663 ≤ MADE_LEN }
    ensures value { line.new ≡ line.old ++ shape_text shape.now }
    ensures grown { length line.new ≤ length line.old + 1663 }
{
    let Some((first, others)) = shape.slots().split_first() else {
        return line.add_byte(b'-');
    };
    add_pair(line, first.pair);
    for slot in others {
        line.add_byte(b',');
        add_pair(line, slot.pair);
    }
}
