// Adds fields to a line.

ghost use Rattle.std.specs.Prelude.{◌≡◌, ◌≤◌, ◌+◌, ◌∷◌, ◌++◌, length, decimal};
ghost use Rattle.texts.specs.Made.{MADE_LEN};
ghost use Rattle.texts.specs.Numbers.{hex4};

use texts::MadeLine;

/// Adds a space and a number in decimal.
pub fn add_decimal_field(lines: &mut MadeLine, number: u128)
    requires { length lines.old + 40 ≤ MADE_LEN }
    ensures value { lines.new ≡ lines.old ++ 32 ∷ decimal number }
    ensures grown { length lines.new ≤ length lines.old + 40 }
{
    lines.add_byte(b' ');
    lines.add_decimal(number);
}

/// Adds a space and a word as four upper-case hexadecimal digits.
pub fn add_hex4_field(lines: &mut MadeLine, word: u16)
    requires { length lines.old + 5 ≤ MADE_LEN }
    ensures value { lines.new ≡ lines.old ++ 32 ∷ hex4 word }
    ensures grown { length lines.new ≤ length lines.old + 5 }
{
    lines.add_byte(b' ');
    lines.add_hex4(word);
}
