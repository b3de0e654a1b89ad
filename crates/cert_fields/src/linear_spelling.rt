// How linears are spelled.
ghost use Rattle.std.specs.Prelude.{◌≡◌, ◌<◌, ◌≤◌, ◌+◌, ◌++◌, ◌∷◌, [], decimal, length};
ghost use Rattle.cert_fields.specs.Linear.{IsCoefficient, linear_text, potential_text, sign_of, term_text};
ghost use Rattle.cert_fields.specs.VariableNames.{part_letter, variable_name};
ghost use Rattle.texts.specs.Made.{MADE_LEN};

use itoa::Buffer;
use loop_bounds::{Linear, Part, SlotNumber, Term, Variable};
use texts::MadeLine;

/// Adds a decimal.
fn add_decimal(line: &mut MadeLine, number: u32)
    requires { length line.old + length (decimal number) ≤ MADE_LEN }
    ensures value { line.new ≡ line.old ++ decimal number }
    ensures grown { length line.new ≡ length line.old + length (decimal number) }
{
    let mut buffer = Buffer::new();
    line.add(buffer.format(number).as_bytes());
}

/// Adds the letter of a slot's part: none for the word.
fn add_part(line: &mut MadeLine, part: Part)
    requires { length line.old < MADE_LEN }
    ensures value { line.new ≡ line.old ++ part_letter part }
    ensures grown { length line.new ≤ length line.old + 1 }
{
    match part {
        Part::Word => {}
        Part::High => line.add_byte(b'h'),
        Part::Low => line.add_byte(b'l'),
    }
}

/// Adds the name of a slot, or of a byte of it.
#[tactic(auto, using(crate::proofs::LengthLemmas::two_digits))]
fn add_slot(line: &mut MadeLine, slot: SlotNumber, part: Part)
    requires { length line.old + 4 ≤ MADE_LEN }
    ensures value { line.new ≡ line.old ++ variable_name (Variable.Slot slot part) }
    ensures grown { length line.new ≤ length line.old + 4 }
{
    line.add_byte(b's');
    add_decimal(line, u32::from(slot.number()));
    add_part(line, part);
}

/// Adds the name of a variable.
fn add_variable(line: &mut MadeLine, variable: Variable)
    requires { length line.old + 4 ≤ MADE_LEN }
    ensures value { line.new ≡ line.old ++ variable_name variable }
    ensures grown { length line.new ≤ length line.old + 4 }
{
    match variable {
        Variable::A => line.add(b"A"),
        Variable::B => line.add(b"B"),
        Variable::C => line.add(b"C"),
        Variable::D => line.add(b"D"),
        Variable::E => line.add(b"E"),
        Variable::H => line.add(b"H"),
        Variable::L => line.add(b"L"),
        Variable::Bc => line.add(b"BC"),
        Variable::De => line.add(b"DE"),
        Variable::Hl => line.add(b"HL"),
        Variable::Ix => line.add(b"IX"),
        Variable::Iy => line.add(b"IY"),
        Variable::Slot(slot, part) => add_slot(line, slot, part),
    }
}

/// The sign of a coefficient.
fn sign_byte(coefficient: i32) -> u8
    ensures { result ∷ [] ≡ sign_of coefficient }
{
    if coefficient < 0 { b'-' } else { b'+' }
}

/// Adds a term.
#[tactic(auto, using(crate::proofs::LengthLemmas::seven_digits), unfolding(crate::specs::Linear::term_text))]
fn add_term(line: &mut MadeLine, term: &Term)
    requires coefficient { IsCoefficient term.now.coefficient }
    requires room { length line.old + 13 ≤ MADE_LEN }
    ensures value { line.new ≡ line.old ++ term_text term.now }
    ensures grown { length line.new ≤ length line.old + 13 }
{
    line.add_byte(sign_byte(term.coefficient));
    add_decimal(line, term.coefficient.unsigned_abs());
    line.add_byte(b'*');
    add_variable(line, term.variable);
}

/// Adds a linear.
#[tactic(auto, unfolding(crate::specs::Linear::linear_text))]
pub fn add_linear(line: &mut MadeLine, linear: &Linear)
    requires { length line.old + 50 ≤ MADE_LEN }
    ensures value { line.new ≡ line.old ++ linear_text linear.now }
    ensures grown { length line.new ≤ length line.old + 50 }
{
    let mut buffer = Buffer::new();
    line.add(buffer.format(linear.constant()).as_bytes());
    for term in linear.terms() {
        add_term(line, term);
    }
}

/// Adds a potential, or a dash if there is none.
pub fn add_potential(line: &mut MadeLine, potential: Option<Linear>)
    requires { length line.old + 50 ≤ MADE_LEN }
    ensures value { line.new ≡ line.old ++ potential_text potential }
    ensures grown { length line.new ≤ length line.old + 50 }
{
    match potential {
        Some(linear) => add_linear(line, &linear),
        None => line.add_byte(b'-'),
    }
}
